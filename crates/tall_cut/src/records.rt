// The records of a block, as a caller sees them.

ghost use Rattle.std.specs.Prelude.{◌≡◌, ◌<◌, ◌≤◌, ◌-◌, [], drop, length, get_or, take};

use crate::block::{Block, start_of};
use crate::copying::copy_records;
use crate::reading::read_records;
use std::alloc::{AllocError, Global};
use std::marker::Model;
use tall_scan::RawBlock;

/// Consecutive records of a file. A record is a list of fields, a field a list of bytes without
/// the quotes around it; records may differ in their number of fields.
#[derive(Drop)]
pub struct Records {
    block: Block,
}

impl Model for Records {
    ghost use Rattle.tall_cut.specs.Blocks.{IsInside, block_records};
    ghost use Rattle.std.specs.Prelude.{List, ℕ};

    ghost Value = { List (List (List ℕ)) };

    ghost view = { λ a. block_records a.block };

    ghost invariant = { λ a. IsInside a.block };
}

impl Records {
    ghost use Rattle.std.specs.Prelude.{OnErr, OnOk};
    ghost use Rattle.tall_scan.specs.Finding.{raw_records};

    /// How many records there are.
    pub fn len(&self) -> usize
        ensures { result ≡ length self.now }
    {
        self.block.ends.len()
    }

    /// How many fields the record at place `i` has, from 0.
    pub fn width(&self, i: usize) -> usize
        requires { i < length self.now }
        ensures { result ≡ length (get_or self.now i []) }
    {
        self.block.ends[i] - start_of(&self.block.ends, i)
    }

    /// The field at place `k` of the record at place `i`, both from 0.
    pub fn field(&self, i: usize, k: usize) -> &[u8]
        requires record { i < length self.now }
        requires field { k < length (get_or self.now i []) }
        ensures { result.now ≡ get_or (get_or self.now i []) k [] }
    {
        // A place below the number of fields is one that `usize` counts.
        let _count = self.block.fields.len();
        self.block.field(start_of(&self.block.ends, i) + k)
    }

    /// No record.
    pub fn new(alloc: Global) -> Records
        ensures { result ≡ [] }
    {
        Records {
            block: Block::new(alloc),
        }
    }

    /// Reads the records of a raw block in place of those here, whose memory is used again.
    ///
    /// Where memory is wanting, no record is here.
    #[tactic(auto, using(crate::proofs::Blocks::groups_none))]
    pub fn parse(&mut self, alloc: Global, raw: &RawBlock) -> Result<(), AllocError>
        ensures records { OnOk result (self.new ≡ raw_records raw.now) }
        ensures none { OnErr result (self.new ≡ []) }
    {
        self.block.clear();
        match read_records(alloc, raw, &mut self.block) {
            Ok(()) => return Ok(()),
            Err(_) => {
                self.block.clear();
                return Err(AllocError);
            }
        }
    }

    /// Copies the records from place `start` up to place `end` of others, in place of those here, whose memory is used
    /// again. So blocks of few records are cut from records that were read at once.
    ///
    /// Where memory is wanting, no record is here.
    #[tactic(auto, using(crate::proofs::Blocks::groups_none))]
    pub fn copy_part(&mut self, from: &Records, start: usize, end: usize) -> Result<(), AllocError>
        requires start { start ≤ end }
        requires end { end ≤ length from.now }
        ensures records { OnOk result (self.new ≡ take (end - start) (drop start from.now)) }
        ensures none { OnErr result (self.new ≡ []) }
    {
        self.block.clear();
        match copy_records(&mut self.block, from, start, end) {
            Ok(()) => return Ok(()),
            Err(_) => {
                self.block.clear();
                return Err(AllocError);
            }
        }
    }
}
