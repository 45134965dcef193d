//! One file of a datastore, in blocks that were found and not read.
ghost use Rattle.std.specs.Prelude.{◌≡◌, ◌≢◌, ◌<◌, ◌≤◌, ◌^◌, ◌*◌, ◌+◌, ◌∷◌, [], IfErr, IfNone, IfOk, IfSome, Some, length};
ghost use Rattle.tall_outside.specs.OpenedNames.{Adds, OpensOnce};
ghost use Rattle.tall_outside.specs.ShelfCounts.{IsLater, shelf_counts};
ghost use Rattle.tall_cut.specs.Asked.{Asks, Returns};
ghost use Rattle.tall_cut.specs.Cuts.{block_rows, cutter_left, cutter_shelf, rows_of};
ghost use Rattle.tall_store.specs.Causes.{opening_counts};
ghost use Rattle.tall_store.specs.FileEnds as ends;
ghost use Rattle.tall_store.specs.FileEnds.{ChecksHeader, EndExplained, EndLonger, EndTooLong, IsAtFront, IsCause, IsReadWhole, OpensFile, RefusesFile, name_of_file, walked_file};

use crate::faults::{ReadingFault, ReadingKind};
use crate::file_end::FileEnd;
use crate::store::Datastore;
use tall_cut::{Cause, Cutter, FeedFault, Found, Lent, Next, OpenedFile, RawBlock, open_feed};
use tall_outside::Shelf;

/// The most bytes that one opening of a file may give.
const FILE_LIMIT: u64 = 1 << 50;

/// The first number that no row of a datastore has.
const ROW_LIMIT: u64 = 1 << 40;

/// The data records of one file of a datastore, of which some were given.
#[derive(Drop)]
pub struct FileRows<'s, S: Shelf, K: OpenedFile> {
    pub(crate) cutter: Cutter<'s, S, K>,
    pub(crate) file: u32,
    pub(crate) start: u64,
    pub(crate) row: u64,
    ghost rising: { start ≤ row },
}

/// Consecutive data records of one file, found and not read. They may be read on another thread.
#[derive(Drop)]
pub struct FileBlock {
    /// The records.
    pub raw: RawBlock,
    /// The place of the file in the datastore's list, from 0.
    pub file: u32,
    /// The row of the first record, from 1 over all files.
    pub row: u64,
}

/// What the reader of a file gives next.
#[derive(Drop)]
pub enum FileStep {
    /// The next records, at least one.
    Block(FileBlock),
    /// The reading ended.
    Ended(FileEnd),
}

/// Why a file gives no records, with the shelf that was lent.
#[derive(Drop)]
pub struct RefusedFile<'s, S> {
    /// Why.
    pub end: FileEnd,
    /// The shelf.
    pub lent: Lent<'s, S>,
}

// A fault of a file itself, at the row that comes next.
fn fault_at(kind: ReadingKind, file: u32, row: u64) -> FileEnd
    ensures { result ≡ FileEnd.Reading (ends.fault_at kind file row) }
{
    FileEnd::Reading(ReadingFault {
        kind,
        file,
        row,
        column: 0,
    })
}

// The fault of a file that has the row numbered 2^40.
fn too_many(file: u32) -> FileEnd
    ensures { result ≡ FileEnd.Reading (ends.too_many file) }
{
    fault_at(ReadingKind::TooManyRows, file, ROW_LIMIT)
}

// Why the cutter stopped.
fn stopped<'s, S: Shelf, K: OpenedFile>(cutter: &Cutter<'s, S, K>) -> FileEnd
    requires { K.limit ≡ 2 ^ 50 }
    ensures cause { IsCause result }
    ensures explained { EndExplained result (opening_counts K.OpenedFile) (shelf_counts S.Shelf (cutter_shelf cutter.now)) }
    ensures longer { EndLonger result K.size }
{
    match cutter.cause() {
        Cause::Failed => FileEnd::Failed,
        Cause::TooLarge => FileEnd::TooLarge,
        Cause::Memory => FileEnd::Memory,
    }
}

// Why a file was not opened.
fn not_opened(file: u32, row: u64, fault: FeedFault) -> FileEnd
    ensures { ends.NotOpened file row fault result }
{
    match fault {
        FeedFault::NoSuch => fault_at(ReadingKind::NoFile, file, row),
        FeedFault::Failed => FileEnd::Failed,
        FeedFault::Memory => FileEnd::Memory,
    }
}

// Takes the header off what a cutter has left, where files have one; an end where it is another, or was not read.
#[tactic(auto, using(crate::proofs::FileLemmas::no_header, crate::proofs::FileLemmas::header_end, crate::proofs::FileLemmas::header_other, crate::proofs::FileLemmas::header_same, crate::proofs::FileLemmas::header_unread))]
fn check_header<'s, S: Shelf, K: OpenedFile>(
    cutter: &mut Cutter<'s, S, K>,
    store: &Datastore,
    file: u32,
    row: u64,
) -> Option<FileEnd>
    requires { K.limit ≡ 2 ^ 50 }
    ensures told { IfSome (cutter_left cutter.old) (λ records. ChecksHeader store.now file row records result (cutter_left cutter.new)) }
    ensures front { IfSome result (IsAtFront file row) }
    ensures explained { IfSome result (λ end. EndExplained end (opening_counts K.OpenedFile) (shelf_counts S.Shelf (cutter_shelf cutter.new))) }
    ensures longer { IfSome result (λ end. EndLonger end K.size) }
    ensures rows { block_rows cutter.new ≡ block_rows cutter.old }
{
    if !store.has_header() {
        return None;
    }
    let header = match cutter.first_record() {
        Next::Block(header) => header,
        Next::End => return Some(fault_at(ReadingKind::HeaderDiffers, file, row)),
        Next::Stopped => return Some(stopped(cutter)),
    };
    if !store.same_header(&header) {
        return Some(fault_at(ReadingKind::HeaderDiffers, file, row));
    }
    cutter.give_back(header);
    None
}

// The row behind so many records from a row on; none where the first of them would have the row numbered 2^40 or a later one.
fn row_behind(row: u64, count: u64) -> Option<u64>
    ensures some { IfSome result (λ n. (n ≡ row + count) × (row < 2 ^ 40)) }
    ensures none { IfNone result (2 ^ 40 ≤ row + count) }
    ensures beyond { IfNone result (0 < count → 2 ^ 40 < row + count) }
{
    if row < ROW_LIMIT {
        row.checked_add(count)
    } else {
        None
    }
}

impl<'s, S: Shelf, K: OpenedFile> FileRows<'s, S, K> {
    ghost use Rattle.tall_store.specs.FileSteps.{IfEnded, IsPast, Steps, file_of, first_row, next_row, rows_left, rows_shelf, size_of_block};

    /// Opens a file of a datastore by its place in the list, from 0, where this row comes next, and looks at its header.
    /// It is the only opening of the file.
    ///
    /// # Errors
    /// - `Reading` with `NoFile` where the file isn't there, with `HeaderDiffers` where files have a header and the first
    ///   record is not that of the first file, both at the row that comes next.
    /// - `Failed` where the shelf failed, `TooLarge` where more than 2^50 bytes came, `Memory` for want of memory.
    #[tactic(auto, using(crate::proofs::FileLemmas::too_long_there, crate::proofs::FileLemmas::not_opened_small))]
    pub fn open(
        store: &Datastore,
        lent: Lent<'s, S>,
        file: u32,
        row: u64,
    ) -> Result<FileRows<'s, S, K>, RefusedFile<'s, S>>
        requires file { file < length store.now.files }
        requires asks { Asks S.Shelf K.OpenedFile lent.shelf.ghost_name lent.shelf.now (name_of_file store.now file) (2 ^ 50) }
        ensures told { IfOk result (λ r. IfSome K.held (λ files. OpensFile (walked_file store.now files file row) (rows_left r))) }
        ensures place { IfOk result (λ r. (file_of r ≡ file) × (first_row r ≡ row) × (next_row r ≡ row) × (size_of_block r ≡ rows_of store.now.size)) }
        ensures refused { IfErr result (λ e. IfSome K.held (λ files. RefusesFile (walked_file store.now files file row) e.end)) }
        ensures front { IfErr result (λ e. IsAtFront file row e.end) }
        ensures explained { IfErr result (λ e. EndExplained e.end (opening_counts K.OpenedFile) (shelf_counts S.Shelf e.lent.shelf.now)) }
        ensures longer { IfErr result (λ e. EndTooLong K.held (name_of_file store.now file) e.end) }
        ensures returns { IfErr result (λ e. (Some e.lent.shelf.ghost_name ≡ K.lender) × (S.held e.lent.shelf.now ≡ K.held)) }
        ensures later { IfErr result (λ e. IsLater (opening_counts K.OpenedFile) (shelf_counts S.Shelf e.lent.shelf.now)) }
        ensures once { IfErr result (λ e. OpensOnce (name_of_file store.now file) (S.opened lent.entry.shelf.now) (S.opened e.lent.shelf.now)) }
        ensures opened { IfErr result (λ e. e.end ≢ FileEnd.Memory → Adds (name_of_file store.now file ∷ []) (S.opened lent.entry.shelf.now) (S.opened e.lent.shelf.now)) }
    {
        match open_feed::<S, K>(lent, store.file_name(file), FILE_LIMIT) {
            Ok(feed) => {
                let mut cutter = Cutter::new(store.alloc(), feed, store.delimiter(), store.size());
                match check_header(&mut cutter, store, file, row) {
                    None => Ok(FileRows {
                        cutter,
                        file,
                        start: row,
                        row,
                    }),
                    Some(end) => Err(RefusedFile {
                        end,
                        lent: cutter.into_lent(),
                    }),
                }
            }
            Err(refused) => Err(RefusedFile {
                end: not_opened(file, row, refused.fault),
                lent: refused.lent,
            }),
        }
    }

    /// The next records: those of the next so many blocks of the datastore's ReadSize, fewer only at the end of the file.
    ///
    /// After the row numbered 2^40 each answer is `TooManyRows` or a cause.
    #[tactic(auto, using(crate::proofs::FileLemmas::too_many_left, crate::proofs::FileLemmas::too_many_ended))]
    pub fn next(&mut self, blocks: u16) -> FileStep
        requires some { 0 < blocks }
        requires limit { K.limit ≡ 2 ^ 50 }
        ensures steps { Steps (size_of_block self.old * blocks) result self.old self.new }
        ensures place { (file_of self.new ≡ file_of self.old) × (first_row self.new ≡ first_row self.old) × (size_of_block self.new ≡ size_of_block self.old) }
        ensures past { 2 ^ 40 < next_row self.old → IsPast result }
        ensures explained { IfEnded result (λ end. EndExplained end (opening_counts K.OpenedFile) (shelf_counts S.Shelf (rows_shelf self.new))) }
        ensures longer { IfEnded result (λ end. EndLonger end K.size) }
        ensures whole { IfEnded result (λ end. IsReadWhole end K.size) }
    {
        let raw = match self.cutter.next_raw(blocks) {
            Found::Block(raw) => raw,
            Found::End if self.row > ROW_LIMIT => return FileStep::Ended(too_many(self.file)),
            Found::End => return FileStep::Ended(FileEnd::Whole(self.row - self.start)),
            Found::Stopped => return FileStep::Ended(stopped(&self.cutter)),
        };
        let row = self.row;
        match row_behind(row, raw.count()) {
            Some(next) => {
                self.row = next;
                FileStep::Block(FileBlock {
                    raw,
                    file: self.file,
                    row,
                })
            }
            None => {
                self.row = u64::MAX;
                FileStep::Ended(too_many(self.file))
            }
        }
    }

    /// Takes a block back, so that its memory is used again for a later one.
    pub fn give_back(&mut self, raw: RawBlock)
        ensures left { rows_left self.new ≡ rows_left self.old }
        ensures place { (file_of self.new ≡ file_of self.old) × (first_row self.new ≡ first_row self.old) × (next_row self.new ≡ next_row self.old) × (size_of_block self.new ≡ size_of_block self.old) }
        ensures shelf { rows_shelf self.new ≡ rows_shelf self.old }
    {
        self.cutter.give_back_raw(raw);
    }

    /// The shelf, with what is known of it by the opening.
    pub fn into_lent(self) -> Lent<'s, S>
        ensures returns { Returns S.Shelf K.OpenedFile result.shelf.ghost_name result.shelf.now }
        ensures same { result.shelf.now ≡ rows_shelf self.entry }
    {
        let FileRows { cutter, .. } = self;
        cutter.into_lent()
    }
}
