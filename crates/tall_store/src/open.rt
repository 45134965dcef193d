//! Opening a datastore over a shelf.
ghost use Rattle.std.specs.Prelude.{◌≡◌, ◌≢◌, ◌<◌, ◌≤◌, ◌^◌, ◌∷◌, [], Err, IfErr, IfOk, IfSome, Some, false, length, option_map, true};
ghost use Rattle.std.specs.Result.{result_map_both};
ghost use Rattle.csv.specs.Records.{fields_of};
ghost use Rattle.tall_outside.specs.OpenedNames.{Adds, OpensOnce};
ghost use Rattle.tall_outside.specs.Shelf.{file_in};
ghost use Rattle.tall_outside.specs.ShelfCounts.{IsLater, shelf_counts};
ghost use Rattle.tall_cut.specs.Asked.{Asks};
ghost use Rattle.tall_cut.specs.Cuts.{cutter_left, cutter_shelf};
ghost use Rattle.tall_store.specs.Options.{is_accepted, options_seen};
ghost use Rattle.tall_store.specs.Opening.{IsWithin, Opens, first_name, opened_file, opened_records, opening};
ghost use Rattle.tall_store.specs.Chosen.{chosen_seen};
ghost use Rattle.tall_store.specs.Taking.{TakesNext};
ghost use Rattle.tall_store.specs.Causes.{HasOpened, IsExplained, RefusesUnopened, opening_counts};

use crate::faults::StoreFault;
use crate::opening::{Chosen, is_accepted, keep, open_first};
use crate::options::Options;
use crate::record::keep_record;
use crate::store::Datastore;
use csv::ByteRecord;
use std::alloc::Global;
use std::marker::Brand;
use tall_cut::{Cause, Cutter, FeedFault, Lent, Next, OpenedFile, ReadSize, open_feed};
use tall_outside::Shelf;

/// The most bytes that one opening of a file may give.
const FILE_LIMIT: u64 = 1 << 50;

// Why the cutter stopped.
fn stopped<'s, S: Shelf, K: OpenedFile>(cutter: &Cutter<'s, S, K>) -> StoreFault
    requires { K.limit ≡ 2 ^ 50 }
    ensures stopped { (due : _) → Opens due (Err result) }
    ensures explained { IsExplained (Err result) (opening_counts K.OpenedFile) (shelf_counts S.Shelf (cutter_shelf cutter.now)) }
    ensures longer { result ≡ StoreFault.TooLarge → IfSome K.size (λ size. 2 ^ 50 < size) }
{
    match cutter.cause() {
        Cause::Failed => StoreFault::Failed,
        Cause::TooLarge => StoreFault::TooLarge,
        Cause::Memory => StoreFault::Memory,
    }
}

// The next record of a file, to keep.
#[tactic(auto, using(crate::proofs::Told::took_one))]
fn next_record<'s, S: Shelf, K: OpenedFile>(
    alloc: Global,
    cutter: &mut Cutter<'s, S, K>,
) -> Result<Option<ByteRecord>, StoreFault>
    requires { K.limit ≡ 2 ^ 50 }
    ensures took { TakesNext (cutter_left cutter.old) (cutter_left cutter.new) (result_map_both (λ found. option_map fields_of found) (λ e. e) result) }
    ensures free { IfErr result (λ fault. (due : _) → Opens due (Err fault)) }
    ensures explained { IfErr result (λ fault. IsExplained (Err fault) (opening_counts K.OpenedFile) (shelf_counts S.Shelf (cutter_shelf cutter.new))) }
    ensures longer { IfErr result (λ fault. fault ≡ StoreFault.TooLarge → IfSome K.size (λ size. 2 ^ 50 < size)) }
{
    match cutter.first_record() {
        Next::Block(block) => match keep_record(alloc, &block, 0) {
            Ok(kept) => return Ok(Some(kept)),
            Err(_) => return Err(StoreFault::Memory),
        },
        Next::End => return Ok(None),
        Next::Stopped => return Err(stopped(cutter)),
    }
}

// The datastore of what a cutter has left of the first file.
#[tactic(auto, using(crate::proofs::Told::told_none, crate::proofs::Told::told_free, crate::proofs::Told::told_plain, crate::proofs::Told::told_two, crate::proofs::Told::told_one))]
fn open_left<'s, S: Shelf, K: OpenedFile>(
    alloc: Global,
    cutter: &mut Cutter<'s, S, K>,
    chosen: Chosen,
) -> Result<Datastore, StoreFault>
    requires limit { K.limit ≡ 2 ^ 50 }
    requires accepted { is_accepted (chosen_seen chosen) ≡ true }
    requires files { length chosen.files.items < 2 ^ 20 }
    ensures told { IfSome (cutter_left cutter.old) (λ records. Opens (opened_records (chosen_seen chosen) records) result) }
    ensures explained { IsExplained result (opening_counts K.OpenedFile) (shelf_counts S.Shelf (cutter_shelf cutter.new)) }
    ensures longer { result ≡ Err StoreFault.TooLarge → IfSome K.size (λ size. 2 ^ 50 < size) }
    ensures files { IfOk result (λ store. store.files ≡ chosen.files.items) }
{
    let first = match next_record(alloc, cutter) {
        Ok(Some(first)) => first,
        Ok(None) => return Err(StoreFault::NoHeader),
        Err(fault) => return Err(fault),
    };
    if !chosen.header {
        return match first.clone() {
            Ok(fields) => open_first(alloc, chosen, first, &fields),
            Err(_) => Err(StoreFault::Memory),
        };
    }
    match next_record(alloc, cutter) {
        Ok(Some(fields)) => return open_first(alloc, chosen, first, &fields),
        Ok(None) => return open_first(alloc, chosen, first, &ByteRecord::new(alloc)),
        Err(fault) => return Err(fault),
    }
}

// The datastore of the first file of a lent shelf; the shelf comes back.
#[tactic(auto, using(crate::proofs::Asked::asked_once, crate::proofs::Asked::asked_adds))]
fn open_file<'s, S: Shelf, K: OpenedFile>(
    alloc: Global,
    lent: Lent<'s, S>,
    chosen: Chosen,
    opened: &mut Result<Datastore, StoreFault>,
) -> Lent<'s, S>
    requires asks { Asks S.Shelf K.OpenedFile lent.shelf.ghost_name lent.shelf.now (first_name chosen.files.items) (2 ^ 50) }
    requires accepted { is_accepted (chosen_seen chosen) ≡ true }
    requires some { 0 < length chosen.files.items }
    requires files { length chosen.files.items < 2 ^ 20 }
    ensures returns { (Some result.shelf.ghost_name ≡ K.lender) × (S.held result.shelf.now ≡ K.held) }
    ensures told { IfSome K.held (λ files. Opens (opened_file (chosen_seen chosen) (file_in files (first_name chosen.files.items))) opened.new) }
    ensures within { IfSome K.held (λ files. IsWithin files (chosen_seen chosen) → opened.new ≢ Err StoreFault.TooLarge) }
    ensures explained { IsExplained opened.new (opening_counts K.OpenedFile) (shelf_counts S.Shelf result.shelf.now) }
    ensures later { IsLater (opening_counts K.OpenedFile) (shelf_counts S.Shelf result.shelf.now) }
    ensures once { OpensOnce (first_name chosen.files.items) (S.opened lent.entry.shelf.now) (S.opened result.shelf.now) }
    ensures opened { HasOpened opened.new → Adds (first_name chosen.files.items ∷ []) (S.opened lent.entry.shelf.now) (S.opened result.shelf.now) }
    ensures files { IfOk opened.new (λ store. store.files ≡ chosen.files.items) }
{
    match open_feed::<S, K>(lent, chosen.files[0].as_str(), FILE_LIMIT) {
        Ok(feed) => {
            let mut cutter = Cutter::new(alloc, feed, chosen.delimiter, ReadSize::File);
            *opened = open_left(alloc, &mut cutter, chosen);
            return cutter.into_lent();
        }
        Err(refused) => {
            *opened = Err(match refused.fault {
                FeedFault::NoSuch => StoreFault::NoFile,
                FeedFault::Failed => StoreFault::Failed,
                FeedFault::Memory => StoreFault::Memory,
            });
            return refused.lent;
        }
    }
}

// The datastore of accepted options.
#[tactic(auto, using(crate::proofs::Openings::files_named))]
fn open_chosen<S: Shelf>(
    alloc: Global,
    shelf: &mut S,
    chosen: Chosen,
) -> Result<Datastore, StoreFault>
    requires accepted { is_accepted (chosen_seen chosen) ≡ true }
    requires files { length chosen.files.items < 2 ^ 20 }
    ensures told { IfSome (S.held shelf.old) (λ files. Opens (opening files (chosen_seen chosen)) result) }
    ensures within { IfSome (S.held shelf.old) (λ files. IsWithin files (chosen_seen chosen) → result ≢ Err StoreFault.TooLarge) }
    ensures held { S.held shelf.new ≡ S.held shelf.old }
    ensures explained { IsExplained result (shelf_counts S.Shelf shelf.old) (shelf_counts S.Shelf shelf.new) }
    ensures later { IsLater (shelf_counts S.Shelf shelf.old) (shelf_counts S.Shelf shelf.new) }
    ensures once { OpensOnce (first_name chosen.files.items) (S.opened shelf.old) (S.opened shelf.new) }
    ensures opened { HasOpened result → Adds (first_name chosen.files.items ∷ []) (S.opened shelf.old) (S.opened shelf.new) }
    ensures files { IfOk result (λ store. store.files ≡ chosen.files.items) }
{
    let mut opened = Err(StoreFault::Memory);
    let _lent = open_file::<S, Brand>(alloc, Lent { shelf }, chosen, &mut opened);
    opened
}

impl Datastore {
    /// Opens the first file of a datastore, once, and reads its first record and its first data record. No other file
    /// is opened, and none where the options are not accepted.
    ///
    /// # Errors
    /// - `BadArgument` where no file or a file twice is named, the delimiter is no ASCII byte other than `"`, CR and LF,
    ///   the size is no number of records from 1 to 2^31 - 1, the selection is empty or has a name twice, or the formats
    ///   are an empty list; and, after the file was opened, where the first record has 2^20 fields or more, a selected
    ///   name is no variable's, or the number of formats isn't that of the variables.
    /// - `NoFile` where the first file isn't there.
    /// - `NoHeader` where the first file has no record, or a field of its header isn't UTF-8.
    /// - `Failed` where the shelf failed, `TooLarge` where more than 2^50 bytes came, `Memory` for want of memory.
    #[tactic(auto, using(tall_outside::proofs::NamesOpened::none_once))]
    pub fn open<S: Shelf>(
        alloc: Global,
        shelf: &mut S,
        options: Options,
    ) -> Result<Datastore, StoreFault>
        requires { length options.files.items < 2 ^ 20 }
        ensures told { IfSome (S.held shelf.old) (λ files. Opens (opening files (options_seen options)) result) }
        ensures within { IfSome (S.held shelf.old) (λ files. IsWithin files (options_seen options) → result ≢ Err StoreFault.TooLarge) }
        ensures held { S.held shelf.new ≡ S.held shelf.old }
        ensures explained { IsExplained result (shelf_counts S.Shelf shelf.old) (shelf_counts S.Shelf shelf.new) }
        ensures later { IsLater (shelf_counts S.Shelf shelf.old) (shelf_counts S.Shelf shelf.new) }
        ensures refused { is_accepted (options_seen options) ≡ false → RefusesUnopened result × (shelf.new ≡ shelf.old) }
        ensures once { OpensOnce (first_name (options_seen options).files) (S.opened shelf.old) (S.opened shelf.new) }
        ensures opened { HasOpened result → Adds (first_name (options_seen options).files ∷ []) (S.opened shelf.old) (S.opened shelf.new) }
        ensures files { IfOk result (λ store. store.files ≡ (options_seen options).files) }
    {
        let chosen = match keep(alloc, options) {
            Ok(chosen) => chosen,
            Err(_) => return Err(StoreFault::Memory),
        };
        if !is_accepted(&chosen) {
            return Err(StoreFault::BadArgument);
        }
        open_chosen(alloc, shelf, chosen)
    }
}
