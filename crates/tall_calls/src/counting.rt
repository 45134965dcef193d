//! How many data records a file of a datastore has, read in blocks: a caller of the reader of one file, with its contract.
ghost use Rattle.std.specs.Prelude.{◌≡◌, ◌<◌, ◌^◌, ℕ, IfSome, Some, length};
ghost use Rattle.tall_cut.specs.Asked.{Asks};
ghost use Rattle.tall_store.specs.FileEnds.{name_of_file, walked_file};
ghost use Rattle.tall_store.specs.FileSteps.{first_row, next_row, rows_left};

use std::marker::Brand;
use tall_cut::{Lent, OpenedFile};
use tall_outside::Shelf;
use tall_store::{Datastore, FileEnd, FileRows, FileStep};

/// Reads all that is left.
#[tactic(auto, using(tall_store::proofs::FileLemmas::follows_first, tall_store::proofs::FileLemmas::follows_end))]
fn count_left<'s, S: Shelf, K: OpenedFile>(rows: &mut FileRows<'s, S, K>) -> FileEnd
    requires limit { K.limit ≡ 2 ^ 50 }
    requires front { next_row rows.old ≡ first_row rows.old }
    ensures all { (n : ℕ) → result ≡ FileEnd.Whole n → IfSome (rows_left rows.old) (λ records. n ≡ length records) }
{
    loop {
        match rows.next(1) {
            FileStep::Block(block) => rows.give_back(block.raw),
            FileStep::Ended(end) => return end,
        }
    }
}

/// Reads a file of a lent shelf; the shelf comes back.
fn count_file<'s, S: Shelf, K: OpenedFile>(
    lent: Lent<'s, S>,
    store: &Datastore,
    file: u32,
    row: u64,
    end: &mut FileEnd,
) -> Lent<'s, S>
    requires file { file < length store.now.files }
    requires asks { Asks S.Shelf K.OpenedFile lent.shelf.ghost_name lent.shelf.now (name_of_file store.now file) (2 ^ 50) }
    ensures returns { (Some result.shelf.ghost_name ≡ K.lender) × (S.held result.shelf.now ≡ K.held) }
    ensures all { (n : ℕ) → end.new ≡ FileEnd.Whole n → IfSome K.held (λ files. n ≡ length (walked_file store.now files file row).records) }
{
    match FileRows::<'s, S, K>::open(store, lent, file, row) {
        Ok(rows) => {
            let mut rows = rows;
            *end = count_left(&mut rows);
            rows.into_lent()
        }
        Err(refused) => {
            *end = refused.end;
            refused.lent
        }
    }
}

/// How the reading of a file of a datastore ends, where this row comes next. All of it is as many records as the file has,
/// where the shelf tells, whatever its length.
pub(crate) fn count_records<S: Shelf>(
    shelf: &mut S,
    store: &Datastore,
    file: u32,
    row: u64,
) -> FileEnd
    requires { file < length store.now.files }
    ensures { (n : ℕ) → result ≡ FileEnd.Whole n → IfSome (S.held shelf.old) (λ files. n ≡ length (walked_file store.now files file row).records) }
{
    let mut end = FileEnd::Memory;
    let _lent = count_file::<S, Brand>(Lent { shelf }, store, file, row, &mut end);
    end
}
