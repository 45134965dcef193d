//! The records of a block that are read.
ghost use Rattle.std.specs.Prelude.{◌≡◌, ◌<◌, ◌≤◌, ◌+◌, ◌-◌, ◌^◌, ◌==◌, length, get_or, [], min};

use crate::faults::{ReadingFault, ReadingKind};
use tall_cut::Records;

/// The records of a block that have rows below 2^40.
#[derive(Drop)]
pub(crate) struct Part<'a> {
    pub(crate) block: &'a Records,
    pub(crate) file: u32,
    pub(crate) first_row: u64,
    pub(crate) rows: usize,
    ghost within: { rows ≤ length block.now },
    ghost numbered: { first_row + rows ≤ 2 ^ 40 },
}

impl<'a> Part<'a> {
    // The records of a block up to the row before 2^40.
    pub(crate) fn of(block: &'a Records, file: u32, first_row: u64) -> Part<'a>
        requires { first_row ≤ 2 ^ 40 }
        ensures block { result.block.now ≡ block.now }
        ensures file { result.file ≡ file }
        ensures row { result.first_row ≡ first_row }
        ensures rows { result.rows ≡ min (length block.now) (2 ^ 40 - first_row) }
    {
        let room = (1u64 << 40) - first_row;
        let rows = block.len().min(room as usize);
        Part {
            block,
            file,
            first_row,
            rows,
        }
    }

    // Whether these are all records of the block.
    pub(crate) fn is_whole(&self) -> bool
        ensures { result ≡ (self.now.rows == length self.now.block.now) }
    {
        self.rows == self.block.len()
    }

    // The field of a variable, by its place among all; empty where the record lacks it.
    pub(crate) fn field(&self, i: usize, place: usize) -> &'a [u8]
        requires { i < self.now.rows }
        ensures { result.now ≡ get_or (get_or self.now.block.now i []) place [] }
    {
        if place < self.block.width(i) {
            self.block.field(i, place)
        } else {
            &[]
        }
    }

    // A fault of a record.
    pub(crate) fn fault(&self, kind: ReadingKind, i: usize, column: u32) -> ReadingFault
        requires { i < self.now.rows }
        ensures { result ≡ record { kind = kind; file = self.now.file; row = self.now.first_row + i; column = column } }
    {
        ReadingFault {
            kind,
            file: self.file,
            row: self.first_row + i as u64,
            column,
        }
    }
}
