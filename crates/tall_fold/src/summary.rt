//! Summaries of blocks of a column.
ghost use Rattle.std.specs.Prelude.{◌≡◌, ◌+◌, ◌++◌, ◌<◌, ◌^◌, IsOk, List, length};
ghost use Rattle.tall_value.specs.declared.class.Class.{Class};
ghost use Rattle.tall_value.specs.declared.functions.Reduction.{Reduction};
ghost use Rattle.tall_value.specs.Cells.{Seen};
ghost use Rattle.tall_value.specs.Classes.{kind_of};
ghost use Rattle.tall_value.specs.FunctionClasses.{reduction_class};
ghost use Rattle.tall_value.specs.Reductions.{reduced};
ghost use Rattle.tall_fold.specs.Summaries.{Finishes, IsSummary};

use crate::kept::{Kept, joined};
use crate::results::found;
use crate::values::kept_of;
use std::alloc::Global;
use std::marker::Model;
use tall_clamp::FinishFault;
use tall_column::Column;
use tall_value::{Class, Reduction};

/// What the rows of a block come to under a reduction. The summaries of consecutive blocks, joined in their order, are the
/// summary of all their rows, wherever the cuts are.
///
/// It is seen as the reduction, the class of the column, the number of rows, and what their cells come to; `IsSummary`
/// says which cells it is the summary of. It keeps its allocator, and takes memory in `finish` alone.
#[derive(Drop)]
pub struct Summary {
    operation: Reduction,
    class: Class,
    rows: u64,
    kept: Kept,
    alloc: Global,
}

impl Model for Summary {
    ghost use Rattle.tall_fold.specs.Summaries.{SeenSummary, IsKept};

    ghost Value = { SeenSummary };

    ghost view = { λ s. record { operation = s.operation; class = s.class; rows = s.rows; kept = s.kept } };

    ghost invariant = { λ s. IsKept s.operation s.class s.rows s.kept };
}

/// The summary of a column's rows, by a loop over its values; docs/LANGUAGE.md, functions. It asks for a class that the
/// reduction takes and for fewer than 2^40 rows.
pub fn summarise(alloc: Global, operation: Reduction, column: &Column) -> Summary
    requires takes { IsOk (reduction_class operation column.now.class) }
    requires few { length column.now.cells < 2 ^ 40 }
    ensures { IsSummary operation column.now.class column.now.cells result }
{
    Summary {
        operation,
        class: column.class(),
        rows: column.len() as u64,
        kept: kept_of(operation, column.values()),
        alloc,
    }
}

impl Summary {
    /// Goes on with the summary of later rows, of the same reduction and class. It asks for fewer than 2^40 rows together.
    pub fn join(&mut self, later: Summary)
        requires operation { later.operation ≡ self.old.operation }
        requires class { later.class ≡ self.old.class }
        requires few { self.old.rows + later.rows < 2 ^ 40 }
        ensures { (op : Reduction) (class : Class) (cs ds : List Seen) → IsSummary op class cs self.old → IsSummary op class ds later → IsSummary op class (cs ++ ds) self.new }
    {
        self.kept = joined(self.kept, later.kept);
        self.rows += later.rows;
    }

    /// The result of the reduction, a column of one row of the result's class.
    ///
    /// # Errors
    /// Inexact exactly where a sum of doubles is above 2^53 in magnitude and no NaN was met, NoRows exactly where a
    /// minimum or maximum met no number, and Memory for want of memory alone.
    pub fn finish(self) -> Result<Column, FinishFault>
        ensures { (op : Reduction) (class : Class) (cs : List Seen) → IsSummary op class cs self → Finishes (reduced op (kind_of class) cs) op class result }
    {
        match found(self.class.kind(), self.kept) {
            Ok(cell) => {
                let mut column = Column::new(self.alloc, cell.class());
                match column.push(&cell) {
                    Ok(()) => Ok(column),
                    Err(_) => Err(FinishFault::Memory),
                }
            }
            Err(fault) => Err(fault),
        }
    }
}
