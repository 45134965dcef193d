//! The parts of a block, each by what is kept.
ghost use Rattle.std.specs.Prelude.{◌≡◌, ◌<◌, ◌≤◌, ◌^◌, IfOk, IsOk, drop, length};
ghost use Rattle.tall_value.specs.Classes.{kind_of};
ghost use Rattle.tall_value.specs.FunctionClasses.{method_kind, reduction_class, scan_class};
ghost use Rattle.tall_fold.specs.FirstAndLast.{paired};
ghost use Rattle.tall_part.specs.NextCarries.{IsBlockCarry};
ghost use Rattle.tall_part.specs.declared.part.EndPart.TheVariants as part;
ghost use Rattle.tall_part.specs.Parts.{AreEndsOf, IsDistinctOf, IsGroupsOf, IsReductionOf};

use crate::part::EndPart;
use std::alloc::{AllocError, Global};
use tall_column::Column;
use tall_fold::{Carry, Ends, carry, summarise};
use tall_group::{GroupFold, UniqueFold};
use tall_value::{Method, Reduction, Scan};

/// What a block's rows come to under a scan; docs/LANGUAGE.md, functions. It takes no memory.
pub fn block_carry(operation: Scan, column: &Column) -> Carry
    requires takes { IsOk (scan_class operation column.now.class) }
    requires few { length column.now.cells < 2 ^ 40 }
    ensures { IsBlockCarry operation column.now.class column.now.cells result }
{
    let _values = column.values();
    carry(operation, column)
}

/// The part of a reduction.
pub(crate) fn reduction_part(alloc: Global, reduction: Reduction, column: &Column) -> EndPart
    requires takes { IsOk (reduction_class reduction column.now.class) }
    requires few { length column.now.cells < 2 ^ 40 }
    ensures { IsReductionOf reduction column.now.class column.now.cells result }
{
    EndPart::Summary(summarise(alloc, reduction, column))
}

/// The part of the distinct cells.
pub(crate) fn distinct_part(alloc: Global, column: &Column) -> Result<EndPart, AllocError>
    ensures { IfOk result (λ p. IsDistinctOf column.now.class column.now.cells p) }
{
    let mut fold = UniqueFold::new(alloc, column.class());
    fold.add_column(column)?;
    Ok(EndPart::Distinct(fold))
}

/// The part of the groups.
pub(crate) fn group_part(
    alloc: Global,
    method: Method,
    keys: &Column,
    values: &Column,
) -> Result<EndPart, AllocError>
    requires takes { IsOk (method_kind method (kind_of values.now.class)) }
    requires even { length keys.now.cells ≡ length values.now.cells }
    requires few { length keys.now.cells < 2 ^ 40 }
    ensures { IfOk result (λ p. IsGroupsOf method keys.now.class values.now.class keys.now.cells values.now.cells p) }
{
    let mut fold = GroupFold::new(alloc, method, keys.class(), values.class());
    fold.add_columns(keys, values)?;
    Ok(EndPart::Groups(fold))
}

/// The first or the last rows of some cells from a row on, each with its number.
fn ends_of_rows(
    alloc: Global,
    last: bool,
    most: u64,
    column: &Column,
    from: usize,
    numbers: &[u64],
) -> Result<Ends, AllocError>
    requires { from ≤ length column.now.cells }
    ensures { IfOk result (λ e. AreEndsOf last most column.now.class (paired numbers.now (drop from column.now.cells)) (part.Rows e)) }
{
    let mut ends = Ends::new(alloc, last, most, column.class());
    let count = numbers.len().min(column.len() - from);
    for at in 0..count {
        ends.add(numbers[at], &column.get(from + at))?;
    }
    Ok(ends)
}

/// The part of the first or the last rows, from a row on.
pub(crate) fn ends_part(
    alloc: Global,
    last: bool,
    most: u64,
    column: &Column,
    from: usize,
    numbers: &[u64],
) -> Result<EndPart, AllocError>
    requires { from ≤ length column.now.cells }
    ensures { IfOk result (λ p. AreEndsOf last most column.now.class (paired numbers.now (drop from column.now.cells)) p) }
{
    Ok(EndPart::Rows(ends_of_rows(alloc, last, most, column, from, numbers)?))
}
