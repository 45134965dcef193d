//! What the next block of a scan goes on from.
ghost use Rattle.std.specs.Prelude.{◌≡◌, ◌+◌, ◌++◌, ◌<◌, ◌^◌, [], ◌∷◌, IsOk, List, length, option_map};
ghost use Rattle.tall_value.specs.declared.class.Class.{Class};
ghost use Rattle.tall_value.specs.declared.functions.Scan.{Scan};
ghost use Rattle.tall_value.specs.Cells.{Seen, seen};
ghost use Rattle.tall_value.specs.Classes.{kind_of};
ghost use Rattle.tall_value.specs.FunctionClasses.{scan_class};
ghost use Rattle.tall_blocks.specs.Carries.{carry_for, flat};
ghost use Rattle.tall_part.specs.NextCarries.{IsBlockCarry, IsNextCarry};

use crate::block::block_carry;
use std::alloc::Global;
use tall_column::Column;
use tall_fold::Carry;
use tall_value::{Cell, Class, Scan};

/// What the next block of a scan goes on from: the fold of the blocks so far, while the sums before all of these were in
/// range. It takes no memory. `IsNextCarry` says of which blocks it is.
#[derive(Clone, Copy)]
pub struct NextCarry {
    so_far: Carry,
    lost: bool,
}

impl NextCarry {
    /// Before the first block, of a column of a class that the scan takes.
    pub fn new(alloc: Global, operation: Scan, class: Class) -> NextCarry
        requires { IsOk (scan_class operation class) }
        ensures { IsNextCarry operation class [] result }
    {
        NextCarry {
            so_far: block_carry(operation, &Column::new(alloc, class)),
            lost: false,
        }
    }

    /// The carry of the next block; None exactly where a sum of doubles before it, or before an earlier block, is above 2^53
    /// in magnitude and no NaN was met.
    pub fn cell(&self) -> Option<Cell<'_>>
        ensures { (s : Scan) (class : Class) (blocks : List (List Seen)) → IsNextCarry s class blocks self.now → (next : List Seen) (rest : List (List Seen)) → option_map seen result ≡ carry_for s (kind_of class) (blocks ++ next ∷ rest) (length blocks) }
    {
        if self.lost { None } else { self.so_far.cell() }
    }

    /// Goes on behind the next block, of the same scan and class. It asks for fewer than 2^40 rows together.
    pub fn join(&mut self, block: Carry)
        requires { (s : Scan) × (class : Class) × (blocks : List (List Seen)) × (cs : List Seen) × IsNextCarry s class blocks self.old × IsBlockCarry s class cs block × (length (flat blocks) + length cs < 2 ^ 40) }
        ensures { (s : Scan) (class : Class) (blocks : List (List Seen)) (cs : List Seen) → IsNextCarry s class blocks self.old → IsBlockCarry s class cs block → length (flat blocks) + length cs < 2 ^ 40 → IsNextCarry s class (blocks ++ cs ∷ []) self.new }
    {
        let missing = self.cell().is_none();
        self.lost = missing;
        self.so_far = self.so_far.join(block);
    }
}
