//! Reading the records of a file in blocks.

ghost use Rattle.std.specs.Prelude.{◌≡◌, ◌<◌, ◌≤◌, ◌^◌, true};
ghost use Rattle.tall_cut.specs.declared.cutter.Progress.TheVariants.{Ended};
ghost use Rattle.tall_cut.specs.Left.{is_at_end};

use crate::feed::{Feed, Lent, OpenedFile};
use crate::records::Records;
use std::alloc::Global;
use tall_outside::Shelf;
use tall_scan::{Found, RawBlock, Source, find_block};

/// How many records a block has, after the property `ReadSize` of MathWorks' `tabularTextDatastore`.
#[derive(Clone, Copy, PartialEq, Eq, Debug)]
pub enum ReadSize {
    /// So many, at least one.
    Rows(u32),
    /// All of the file, but at most 2^40.
    File,
}

impl ReadSize {
    ghost use Rattle.tall_cut.specs.Cuts.{rows_of};

    // How many records a block may have.
    fn rows(self) -> u64
        ensures { result ≡ rows_of self }
    {
        match self {
            ReadSize::Rows(rows) => rows as u64,
            ReadSize::File => 1 << 40,
        }
    }
}

/// What a cutter gives next.
#[derive(Drop)]
pub enum Next {
    /// The next records, at least one.
    Block(Records),
    /// The file has no further record.
    End,
    /// The cutter stopped: `Cutter::cause` tells why.
    Stopped,
}

/// Why a cutter stopped.
#[derive(Clone, Copy, PartialEq, Eq, Debug)]
pub enum Cause {
    /// A read of the shelf failed.
    Failed,
    /// More bytes came than the feed's limit.
    TooLarge,
    /// Memory was wanting.
    Memory,
}

// How far the reading of a file came.
#[derive(Clone, Copy, PartialEq, Eq, Debug)]
pub(crate) enum Progress {
    // The next records may be found.
    Reading,
    // The file has no further record.
    Ended,
    // A read failed, or memory was wanting.
    Stopped,
}

/// The records of a file, in blocks of consecutive ones.
///
/// The records are those of `csv`: after RFC 4180, but also ended by a CR or an LF alone, of any numbers
/// of fields, with no field trimmed and no record for an empty line. A byte order mark at the front of the
/// file is no part of them.
#[derive(Drop)]
pub struct Cutter<'s, S: Shelf, K: OpenedFile> {
    source: Source<Feed<'s, S, K>>,
    delimiter: u8,
    // Blocks that were given back; their memory is used again for later ones.
    spare: Vec<Records>,
    spare_bytes: Vec<Vec<u8>>,
    rows: u64,
    progress: Progress,
    alloc: Global,
    ghost some: { 0 < rows },
    ghost small: { rows ≤ 2 ^ 40 },
    ghost whole: { progress ≡ Ended → is_at_end source ≡ true },
}

impl<'s, S: Shelf, K: OpenedFile> Cutter<'s, S, K> {
    ghost use Rattle.std.specs.Prelude.{◌↔◌, ◌*◌, IfSome, option_map};
    ghost use Rattle.tall_outside.specs.Count.{Rose};
    ghost use Rattle.tall_cut.specs.Asked.{Returns};
    ghost use Rattle.tall_scan.specs.Rows.{file_records};
    ghost use Rattle.tall_cut.specs.Left.{feed_left};
    ghost use Rattle.tall_cut.specs.Feed.{counted};
    ghost use Rattle.tall_cut.specs.Cuts.{Cuts, CutsRaw, IsEnded, IsStopped, block_rows, cutter_left, cutter_shelf, rows_of};

    /// A cutter of what the feed gives. It reads nothing yet.
    ///
    /// Any byte may stand between fields.
    pub fn new(
        alloc: Global,
        feed: Feed<'s, S, K>,
        delimiter: u8,
        size: ReadSize,
    ) -> Cutter<'s, S, K>
        requires { 0 < rows_of size }
        ensures left { cutter_left result ≡ option_map (file_records delimiter) (feed_left feed.entry) }
        ensures rows { block_rows result ≡ rows_of size }
        ensures shelf { cutter_shelf result ≡ feed.entry.shelf.now }
    {
        Cutter {
            source: Source::new(alloc, feed),
            delimiter,
            spare: Vec::new(alloc),
            spare_bytes: Vec::new(alloc),
            rows: size.rows(),
            progress: Progress::Reading,
            alloc,
        }
    }

    /// The next record alone. On a new cutter this is the first record of the file.
    pub fn first_record(&mut self) -> Next
        ensures cuts { Cuts 1 result self.old self.new }
        ensures ended { IsEnded self.old → result ≡ Next.End }
        ensures stopped { IsStopped self.old → result ≡ Next.Stopped }
        ensures rows { block_rows self.new ≡ block_rows self.old }
        ensures whole { result ≡ Next.End → IfSome K.size (λ size. counted size ≤ K.limit) }
    {
        self.cut(1)
    }

    /// The next records, as many as the cutter's `ReadSize` says, fewer only at the end of the file.
    ///
    /// `End` comes exactly where no record is left. After `Stopped` each later answer is `Stopped`.
    pub fn next_block(&mut self) -> Next
        ensures cuts { Cuts (block_rows self.old) result self.old self.new }
        ensures ended { IsEnded self.old → result ≡ Next.End }
        ensures stopped { IsStopped self.old → result ≡ Next.Stopped }
        ensures rows { block_rows self.new ≡ block_rows self.old }
        ensures whole { result ≡ Next.End → IfSome K.size (λ size. counted size ≤ K.limit) }
    {
        self.cut(self.rows)
    }

    /// The records of the next so many blocks, found and not read. The block tells how many they are.
    ///
    /// They are those that as many calls of `next_block` would give, one after the other: each block of them has the
    /// cutter's `ReadSize`, and the last may have fewer at the end of the file. `End` and `Stopped` come as there.
    pub fn next_raw(&mut self, blocks: u16) -> Found
        requires { 0 < blocks }
        ensures cuts { CutsRaw (block_rows self.old * blocks) result self.old self.new }
        ensures ended { IsEnded self.old → result ≡ Found.End }
        ensures stopped { IsStopped self.old → result ≡ Found.Stopped }
        ensures rows { block_rows self.new ≡ block_rows self.old }
        ensures whole { result ≡ Found.End → IfSome K.size (λ size. counted size ≤ K.limit) }
    {
        self.find(self.rows * blocks as u64)
    }

    /// Takes a block back, so that its memory is used again for a later one.
    ///
    /// No later answer depends on it. Where there is no memory to keep the block, it is freed.
    pub fn give_back(&mut self, block: Records)
        ensures left { cutter_left self.new ≡ cutter_left self.old }
        ensures shelf { cutter_shelf self.new ≡ cutter_shelf self.old }
        ensures rows { block_rows self.new ≡ block_rows self.old }
        ensures ended { IsEnded self.old ↔ IsEnded self.new }
        ensures stopped { IsStopped self.old ↔ IsStopped self.new }
    {
        let _ = self.spare.push(block);
    }

    /// The same of a block that was found and not read, or that was read meanwhile.
    pub fn give_back_raw(&mut self, block: RawBlock)
        ensures left { cutter_left self.new ≡ cutter_left self.old }
        ensures shelf { cutter_shelf self.new ≡ cutter_shelf self.old }
        ensures rows { block_rows self.new ≡ block_rows self.old }
        ensures ended { IsEnded self.old ↔ IsEnded self.new }
        ensures stopped { IsStopped self.old ↔ IsStopped self.new }
    {
        let _ = self.spare_bytes.push(block.into_bytes());
    }

    // Finds the next so many records.
    fn find(&mut self, rows: u64) -> Found
        requires { 0 < rows }
        ensures cuts { CutsRaw rows result self.old self.new }
        ensures ended { IsEnded self.old → result ≡ Found.End }
        ensures stopped { IsStopped self.old → result ≡ Found.Stopped }
        ensures rows { block_rows self.new ≡ block_rows self.old }
        ensures whole { result ≡ Found.End → IfSome K.size (λ size. counted size ≤ K.limit) }
    {
        match self.progress {
            Progress::Reading => {}
            Progress::Ended => return Found::End,
            Progress::Stopped => return Found::Stopped,
        }
        let spare = match self.spare_bytes.pop() {
            Some(bytes) => bytes,
            None => Vec::new(self.alloc),
        };
        let found = find_block(&mut self.source, spare, self.delimiter, rows);
        // That no record is left is the scan's word; that the file is at its end is the feed's.
        let at_end = self.source.reader().is_at_end();
        match found {
            Found::Block(block) if block.count() == rows => return Found::Block(block),
            Found::Block(block) if at_end => {
                self.progress = Progress::Ended;
                return Found::Block(block);
            }
            Found::End if at_end => {
                self.progress = Progress::Ended;
                return Found::End;
            }
            _ => {
                self.progress = Progress::Stopped;
                return Found::Stopped;
            }
        }
    }

    // The next so many records.
    fn cut(&mut self, rows: u64) -> Next
        requires { 0 < rows }
        ensures cuts { Cuts rows result self.old self.new }
        ensures ended { IsEnded self.old → result ≡ Next.End }
        ensures stopped { IsStopped self.old → result ≡ Next.Stopped }
        ensures rows { block_rows self.new ≡ block_rows self.old }
        ensures whole { result ≡ Next.End → IfSome K.size (λ size. counted size ≤ K.limit) }
    {
        let raw = match self.find(rows) {
            Found::Block(raw) => raw,
            Found::End => return Next::End,
            Found::Stopped => return Next::Stopped,
        };
        let mut records = match self.spare.pop() {
            Some(records) => records,
            None => Records::new(self.alloc),
        };
        if records.parse(self.alloc, &raw).is_err() {
            self.progress = Progress::Stopped;
            return Next::Stopped;
        }
        self.give_back_raw(raw);
        Next::Block(records)
    }

    /// Why the cutter stopped. A cutter that has not stopped answers `Memory`.
    pub fn cause(&self) -> Cause
        ensures failed { result ≡ Cause.Failed → Rose K.faults (S.faults (cutter_shelf self.now)) }
        ensures large { result ≡ Cause.TooLarge → K.limit < S.came (cutter_shelf self.now) }
        ensures longer { result ≡ Cause.TooLarge → IfSome K.size (λ size. K.limit < size) }
        ensures memory { result ≡ Cause.Memory → (S.faults (cutter_shelf self.now) ≡ K.faults) × (S.came (cutter_shelf self.now) ≤ K.limit) }
    {
        let feed = self.source.reader();
        if feed.failed() {
            Cause::Failed
        } else if feed.too_large() {
            Cause::TooLarge
        } else {
            Cause::Memory
        }
    }

    /// The shelf, with what is known of it by the opening.
    pub fn into_lent(self) -> Lent<'s, S>
        ensures returns { Returns S.Shelf K.OpenedFile result.shelf.ghost_name result.shelf.now }
        ensures same { result.shelf.now ≡ cutter_shelf self.entry }
    {
        let Cutter { source, .. } = self;
        source.into_reader().into_lent()
    }
}
