//! What takes the blocks of a datastore's files.
ghost use Rattle.std.specs.Prelude.{◌≡◌, ◌<◌, ◌≤◌, ◌^◌, ◌++◌, ◌∷◌, [], ℕ, IfErr, IfOk, List};
ghost use Rattle.tall_cut.specs.Finding.{raw_count};
ghost use Rattle.tall_walk.specs.Events.{Event, a_block, an_end, block_of};

use tall_cut::RawBlock;
use tall_store::FileBlock;

/// Takes the blocks of a datastore's files, one after the other, and the end of each file.
///
/// What it is told are events, in order. It is said once what it means that a taker has taken a list of events, and that it
/// stopped at one. A call may rely on what was taken before.
pub trait TakesBlocks {
    /// Why it stopped.
    type Stop: Drop;

    /// How many files the datastore has.
    ghost files: { Self → ℕ };

    /// It has taken these events.
    ghost has_taken: { Self → List Event → Type 0 };

    /// It stopped for this reason, with these events taken, at the one behind them.
    ghost has_stopped: { Self → Self.Stop → List Event → Event → Type 0 };

    /// Takes the next block, of one record at least, and may give back a block whose memory is used again.
    ///
    /// # Errors
    /// Its own; then no event follows.
    fn take(&mut self, block: FileBlock) -> Result<Option<RawBlock>, Self::Stop>
        requires file { block.file < files self.old }
        requires first { 1 ≤ block.row }
        requires last { block.row < 2 ^ 40 }
        requires some { 0 < raw_count block.raw }
        requires taken { (before : List Event) × has_taken self.old before }
        ensures took { IfOk result (λ _. (before : List Event) → has_taken self.old before → has_taken self.new (before ++ a_block (block_of block) ∷ [])) }
        ensures stopped { IfErr result (λ e. (before : List Event) → has_taken self.old before → has_stopped self.new e before (a_block (block_of block))) }
        ensures files { files self.new ≡ files self.old };

    /// A file was read whole: this one, by its place in the list, from 0, with so many records.
    ///
    /// # Errors
    /// Its own; then no event follows.
    fn end_file(&mut self, file: u32, records: u64) -> Result<(), Self::Stop>
        requires file { file < files self.old }
        requires taken { (before : List Event) × has_taken self.old before }
        ensures took { IfOk result (λ _. (before : List Event) → has_taken self.old before → has_taken self.new (before ++ an_end file records ∷ [])) }
        ensures stopped { IfErr result (λ e. (before : List Event) → has_taken self.old before → has_stopped self.new e before (an_end file records)) }
        ensures files { files self.new ≡ files self.old };
}
