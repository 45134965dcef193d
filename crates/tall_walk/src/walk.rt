//! The walk over files.
ghost use Rattle.std.specs.Prelude.{◌≡◌, ◌≢◌, ◌<◌, ◌≤◌, ◌^◌, ◌+◌, ◌++◌, ◌∷◌, ◌⊎◌, [], ℕ, IfErr, IfOk, List, Some, length, true};
ghost use Rattle.tall_outside.specs.ShelfCounts.{IsLater, shelf_counts};
ghost use Rattle.tall_cut.specs.Asked.{Asks};
ghost use Rattle.tall_cut.specs.Cuts.{rows_of};
ghost use Rattle.tall_cut.specs.Finding.{raw_count};
ghost use Rattle.tall_store.specs.Causes.{opening_counts};
ghost use Rattle.tall_store.specs.FileEnds.{EndExplained, EndLonger, EndTooLong, name_of_file};
ghost use Rattle.tall_store.specs.FileSteps.{file_of, first_row, next_row, rows_left, rows_shelf, size_of_block};
ghost use Rattle.tall_store.specs.Stores.{IsStore};
ghost use Rattle.tall_walk.specs.Events.{Event, a_block, block_of};
ghost use Rattle.tall_walk.specs.OneFile.{EndBehind, IfEnd, OpensOne, TellsFile, TellsLeft, WholeFile};
ghost use Rattle.tall_walk.specs.Walked.{EndsAs, EndsNext, IsExplained, IsLonger, OpensNext, Walked, WalkedTo};

use crate::ends::{FileOutcome, WalkEnd};
use crate::taker::TakesBlocks;
use std::marker::Brand;
use tall_cut::{Lent, OpenedFile, RawBlock};
use tall_outside::Shelf;
use tall_store::{Datastore, FileBlock, FileEnd, FileRows, FileStep};

/// The first number that no row of a datastore has.
const ROW_LIMIT: u64 = 1 << 40;

// Gives a block back to the reader, if there is one.
fn reuse<'s, S: Shelf, K: OpenedFile>(rows: &mut FileRows<'s, S, K>, spare: Option<RawBlock>)
    ensures left { rows_left rows.new ≡ rows_left rows.old }
    ensures place { (file_of rows.new ≡ file_of rows.old) × (first_row rows.new ≡ first_row rows.old) × (next_row rows.new ≡ next_row rows.old) × (size_of_block rows.new ≡ size_of_block rows.old) }
    ensures shelf { rows_shelf rows.new ≡ rows_shelf rows.old }
{
    if let Some(raw) = spare {
        rows.give_back(raw);
    }
}

// Hands a block to the taker; the reader uses the memory of the one that comes back.
fn take_block<'s, S: Shelf, K: OpenedFile, T: TakesBlocks>(
    rows: &mut FileRows<'s, S, K>,
    block: FileBlock,
    taker: &mut T,
) -> Result<(), T::Stop>
    requires file { block.file < T.files taker.old }
    requires first { 1 ≤ block.row }
    requires last { block.row < 2 ^ 40 }
    requires some { 0 < raw_count block.raw }
    requires taken { (before : List Event) × T.has_taken taker.old before }
    ensures took { IfOk result (λ _. (before : List Event) → T.has_taken taker.old before → T.has_taken taker.new (before ++ a_block (block_of block) ∷ [])) }
    ensures stopped { IfErr result (λ e. (before : List Event) → T.has_taken taker.old before → T.has_stopped taker.new e before (a_block (block_of block))) }
    ensures files { T.files taker.new ≡ T.files taker.old }
    ensures left { rows_left rows.new ≡ rows_left rows.old }
    ensures place { (file_of rows.new ≡ file_of rows.old) × (first_row rows.new ≡ first_row rows.old) × (next_row rows.new ≡ next_row rows.old) × (size_of_block rows.new ≡ size_of_block rows.old) }
    ensures shelf { rows_shelf rows.new ≡ rows_shelf rows.old }
{
    match taker.take(block) {
        Ok(spare) => {
            reuse(rows, spare);
            Ok(())
        }
        Err(stop) => Err(stop),
    }
}

// An end of a file, where the row that comes next is 2^40 or above, or not. The reader says no more of it at `TooManyRows`.
fn end_behind(end: FileEnd, beyond: bool) -> FileEnd
    ensures { EndBehind end beyond result }
{
    if beyond {
        return end;
    }
    match end {
        FileEnd::Reading(_) => FileEnd::Memory,
        other => other,
    }
}

// Hands all that is left of a file to the taker.
fn walk_left<'s, S: Shelf, K: OpenedFile, T: TakesBlocks>(
    rows: &mut FileRows<'s, S, K>,
    row: u64,
    taker: &mut T,
) -> FileOutcome<T::Stop>
    requires limit { K.limit ≡ 2 ^ 50 }
    requires front { next_row rows.old ≡ first_row rows.old }
    requires row { row ≡ first_row rows.old }
    requires first { 1 ≤ row }
    requires file { file_of rows.old < T.files taker.old }
    requires taken { (before : List Event) × T.has_taken taker.old before }
    ensures tells { (before : List Event) → T.has_taken taker.old before → TellsLeft (T.has_taken taker.new) (T.has_stopped taker.new) (size_of_block rows.old) (file_of rows.old) row before (rows_left rows.old) result }
    ensures files { T.files taker.new ≡ T.files taker.old }
    ensures explained { IfEnd result (λ end. EndExplained end (opening_counts K.OpenedFile) (shelf_counts S.Shelf (rows_shelf rows.new))) }
    ensures longer { IfEnd result (λ end. EndLonger end K.size) }
    ensures few { IfEnd result (λ end. (n : ℕ) → end ≡ FileEnd.Whole n → row + n ≤ 2 ^ 40) }
{
    let mut beyond = row >= ROW_LIMIT;
    loop {
        match rows.next(1) {
            FileStep::Block(block) => {
                beyond = block.raw.count() >= ROW_LIMIT - block.row;
                match take_block(rows, block, taker) {
                    Ok(_) => {}
                    Err(stop) => return FileOutcome::Stopped(stop),
                }
            }
            FileStep::Ended(end) => return FileOutcome::Ended(end_behind(end, beyond)),
        }
    }
}

// Walks over a file of a lent shelf; the shelf comes back.
fn walk_lent<'s, S: Shelf, K: OpenedFile, T: TakesBlocks>(
    lent: Lent<'s, S>,
    store: &Datastore,
    file: u32,
    row: u64,
    taker: &mut T,
    outcome: &mut FileOutcome<T::Stop>,
) -> Lent<'s, S>
    requires file { file < length store.now.files }
    requires files { T.files taker.old ≡ length store.now.files }
    requires first { 1 ≤ row }
    requires last { row ≤ 2 ^ 40 }
    requires size { 0 < rows_of store.now.size }
    requires asks { Asks S.Shelf K.OpenedFile lent.shelf.ghost_name lent.shelf.now (name_of_file store.now file) (2 ^ 50) }
    requires taken { (before : List Event) × T.has_taken taker.old before }
    ensures returns { (Some result.shelf.ghost_name ≡ K.lender) × (S.held result.shelf.now ≡ K.held) }
    ensures tells { (before : List Event) → T.has_taken taker.old before → TellsFile (T.has_taken taker.new) (T.has_stopped taker.new) store.now K.held file row before outcome.new }
    ensures files { T.files taker.new ≡ T.files taker.old }
    ensures later { IsLater (opening_counts K.OpenedFile) (shelf_counts S.Shelf result.shelf.now) }
    ensures explained { IfEnd outcome.new (λ end. EndExplained end (opening_counts K.OpenedFile) (shelf_counts S.Shelf result.shelf.now)) }
    ensures longer { IfEnd outcome.new (EndTooLong K.held (name_of_file store.now file)) }
    ensures opens { OpensOne (name_of_file store.now file) (S.opened lent.entry.shelf.now) (S.opened result.shelf.now) outcome.new }
    ensures few { IfEnd outcome.new (λ end. (n : ℕ) → end ≡ FileEnd.Whole n → row + n ≤ 2 ^ 40) }
{
    match FileRows::<'s, S, K>::open(store, lent, file, row) {
        Ok(rows) => {
            let mut rows = rows;
            *outcome = walk_left(&mut rows, row, taker);
            rows.into_lent()
        }
        Err(refused) => {
            *outcome = FileOutcome::Ended(refused.end);
            refused.lent
        }
    }
}

// Walks over a file.
fn walk_file<S: Shelf, T: TakesBlocks>(
    shelf: &mut S,
    store: &Datastore,
    file: u32,
    row: u64,
    taker: &mut T,
) -> FileOutcome<T::Stop>
    requires file { file < length store.now.files }
    requires files { T.files taker.old ≡ length store.now.files }
    requires first { 1 ≤ row }
    requires last { row ≤ 2 ^ 40 }
    requires size { 0 < rows_of store.now.size }
    requires taken { (before : List Event) × T.has_taken taker.old before }
    ensures tells { (before : List Event) → T.has_taken taker.old before → TellsFile (T.has_taken taker.new) (T.has_stopped taker.new) store.now (S.held shelf.old) file row before result }
    ensures files { T.files taker.new ≡ T.files taker.old }
    ensures held { S.held shelf.new ≡ S.held shelf.old }
    ensures later { IsLater (shelf_counts S.Shelf shelf.old) (shelf_counts S.Shelf shelf.new) }
    ensures explained { IfEnd result (λ end. EndExplained end (shelf_counts S.Shelf shelf.old) (shelf_counts S.Shelf shelf.new)) }
    ensures longer { IfEnd result (EndTooLong (S.held shelf.old) (name_of_file store.now file)) }
    ensures opens { OpensOne (name_of_file store.now file) (S.opened shelf.old) (S.opened shelf.new) result }
    ensures few { IfEnd result (λ end. (n : ℕ) → end ≡ FileEnd.Whole n → row + n ≤ 2 ^ 40) }
{
    let mut outcome = FileOutcome::Ended(FileEnd::Memory);
    let _lent = walk_lent::<S, Brand, T>(Lent { shelf }, store, file, row, taker, &mut outcome);
    outcome
}

// How a walk goes on behind a file, with the number of its records, or how it ends.
fn end_of<E: Drop>(outcome: FileOutcome<E>, file: u32) -> Result<u64, WalkEnd<E>>
    ensures { EndsAs file outcome result }
{
    match outcome {
        FileOutcome::Stopped(stop) => Err(WalkEnd::Stopped(stop)),
        FileOutcome::Ended(end) => match end {
            FileEnd::Whole(records) => Ok(records),
            FileEnd::Reading(fault) => Err(WalkEnd::Reading(fault)),
            FileEnd::Failed => Err(WalkEnd::Read { file }),
            FileEnd::TooLarge => Err(WalkEnd::TooLarge { file }),
            FileEnd::Memory => Err(WalkEnd::Memory),
        },
    }
}

// Walks over the next file; how many records it has.
fn walk_whole<S: Shelf, T: TakesBlocks>(
    shelf: &mut S,
    store: &Datastore,
    file: u32,
    row: u64,
    taker: &mut T,
) -> Result<u64, WalkEnd<T::Stop>>
    requires file { file < length store.now.files }
    requires files { T.files taker.old ≡ length store.now.files }
    requires first { 1 ≤ row }
    requires last { row ≤ 2 ^ 40 }
    requires size { 0 < rows_of store.now.size }
    requires taken { (before : List Event) × T.has_taken taker.old before }
    ensures goes { IfOk result (λ n. (before : List Event) → T.has_taken taker.old before → WholeFile (T.has_taken taker.new) store.now (S.held shelf.old) file row n before) }
    ensures few { IfOk result (λ n. row + n ≤ 2 ^ 40) }
    ensures ends { IfErr result (λ end. WalkedTo (T.has_taken taker.old) store.now (S.held shelf.old) file row → EndsNext (T.has_taken taker.new) (T.has_stopped taker.new) store.now (S.held shelf.old) file end) }
    ensures files { T.files taker.new ≡ T.files taker.old }
    ensures held { S.held shelf.new ≡ S.held shelf.old }
    ensures later { IsLater (shelf_counts S.Shelf shelf.old) (shelf_counts S.Shelf shelf.new) }
    ensures explained { IfErr result (λ end. IsExplained end (shelf_counts S.Shelf shelf.old) (shelf_counts S.Shelf shelf.new)) }
    ensures longer { IfErr result (λ end. IsLonger store.now (S.held shelf.old) end) }
    ensures opens { OpensNext (name_of_file store.now file) (S.opened shelf.old) (S.opened shelf.new) result }
{
    let outcome = walk_file(shelf, store, file, row, taker);
    end_of(outcome, file)
}

// Walks over the next file, and hands its end to the taker; the row that comes next.
fn walk_next<S: Shelf, T: TakesBlocks>(
    shelf: &mut S,
    store: &Datastore,
    file: u32,
    row: u64,
    taker: &mut T,
) -> Result<u64, WalkEnd<T::Stop>>
    requires file { file < length store.now.files }
    requires files { T.files taker.old ≡ length store.now.files }
    requires first { 1 ≤ row }
    requires last { row ≤ 2 ^ 40 }
    requires size { 0 < rows_of store.now.size }
    requires taken { (before : List Event) × T.has_taken taker.old before }
    ensures goes { IfOk result (λ next. WalkedTo (T.has_taken taker.old) store.now (S.held shelf.old) file row → WalkedTo (T.has_taken taker.new) store.now (S.held shelf.old) (file + 1) next) }
    ensures next { IfOk result (λ next. (row ≤ next) × (next ≤ 2 ^ 40)) }
    ensures ends { IfErr result (λ end. WalkedTo (T.has_taken taker.old) store.now (S.held shelf.old) file row → EndsNext (T.has_taken taker.new) (T.has_stopped taker.new) store.now (S.held shelf.old) file end) }
    ensures files { T.files taker.new ≡ T.files taker.old }
    ensures held { S.held shelf.new ≡ S.held shelf.old }
    ensures later { IsLater (shelf_counts S.Shelf shelf.old) (shelf_counts S.Shelf shelf.new) }
    ensures explained { IfErr result (λ end. IsExplained end (shelf_counts S.Shelf shelf.old) (shelf_counts S.Shelf shelf.new)) }
    ensures longer { IfErr result (λ end. IsLonger store.now (S.held shelf.old) end) }
    ensures opens { OpensNext (name_of_file store.now file) (S.opened shelf.old) (S.opened shelf.new) result }
{
    match walk_whole(shelf, store, file, row, taker) {
        Ok(records) => match taker.end_file(file, records) {
            Ok(_) => Ok(row + records),
            Err(stop) => Err(WalkEnd::Stopped(stop)),
        },
        Err(end) => Err(end),
    }
}

/// Walks over all files of a datastore in the order of its list, each opened once, and hands each block and then the end of
/// each file to the taker. Blocks have the datastore's ReadSize, and rows are numbered on from file to file.
///
/// It ends at the first file that isn't there, that has another header than the first or that has the row numbered 2^40;
/// where the taker stops; or where the shelf fails or memory is wanting. Where no block that was taken has a reading fault, the
/// fault of a file is the first of the datastore; else that of the first such block is.
pub fn walk_files<S: Shelf, T: TakesBlocks>(
    shelf: &mut S,
    store: &Datastore,
    taker: &mut T,
) -> WalkEnd<T::Stop>
    requires files { T.files taker.old ≡ length store.now.files }
    requires fresh { T.has_taken taker.old [] }
    ensures walked { Walked (T.has_taken taker.new) (T.has_stopped taker.new) store.now (S.held shelf.old) (S.opened shelf.old) (S.opened shelf.new) result }
    ensures files { T.files taker.new ≡ T.files taker.old }
    ensures held { S.held shelf.new ≡ S.held shelf.old }
    ensures later { IsLater (shelf_counts S.Shelf shelf.old) (shelf_counts S.Shelf shelf.new) }
    ensures explained { IsExplained result (shelf_counts S.Shelf shelf.old) (shelf_counts S.Shelf shelf.new) }
    ensures longer { IsLonger store.now (S.held shelf.old) result }
    ensures store { IsStore store.now }
{
    let mut row = 1u64;
    for file in 0..store.file_count() {
        match walk_next(shelf, store, file, row, taker) {
            Ok(next) => row = next,
            Err(end) => return end,
        }
    }
    WalkEnd::Whole
}
