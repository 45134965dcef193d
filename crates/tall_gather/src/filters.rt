//! Filters over what is known.
ghost use Rattle.std.specs.Prelude.{◌≡◌, ◌∷◌, ◌++◌, ◌≤◌, [], if◌then◌else◌, IfOk, length};
ghost use Rattle.tall_value.specs.declared.class.Class.TheVariants as class;
ghost use Rattle.tall_value.specs.Cells.{seen};
ghost use Rattle.tall_value.specs.Filters.{is_true, kept};
ghost use Rattle.tall_semantics.specs.Operations.{filter as filter_op};
ghost use Rattle.tall_semantics.specs.ShapesInOrder.{shape_at};
ghost use Rattle.tall_block.specs.OfBlocks.{IsOperation};
ghost use Rattle.tall_pass.specs.Fitting.{IsFit};
ghost use Rattle.tall_gather.specs.Rests.{IsRestAt};
ghost use Rattle.tall_gather.specs.Smalls.{FitsAnswer, TellsOfTwo, found_in};

use crate::heights::cut_to_lesser;
use crate::operands::Operand;
use std::alloc::{AllocError, Global};
use tall_column::Column;
use tall_graph::{Graph, NodeId};
use tall_part::{EndColumn, EndFault};
use tall_value::Cell;

fn is_true(cell: &Cell<'_>) -> bool
    ensures { result ≡ is_true (seen cell.now) }
{
    matches!(*cell, Cell::Logical(true))
}

fn push_if(rows: &mut Vec<u64>, kept: bool, number: u64) -> Result<(), AllocError>
    ensures { IfOk result (λ _. rows.new.items ≡ (if kept then rows.old.items ++ number ∷ [] else rows.old.items)) }
{
    if kept {
        rows.push(number)?;
    }
    Ok(())
}

/// The numbers of the rows where a mask is true.
fn kept_numbers(alloc: Global, numbers: &[u64], mask: &Column) -> Result<Vec<u64>, AllocError>
    requires { length mask.now.cells ≤ length numbers.now }
    ensures { IfOk result (λ v. v.items ≡ kept numbers.now mask.now.cells) }
{
    let mut rows = Vec::new(alloc);
    for row in 0..mask.len() {
        push_if(&mut rows, is_true(&mask.get(row)), numbers[row])?;
    }
    Ok(rows)
}

/// The rows of an operand where a mask is true, with their numbers, both cut to the lesser height. Refused for want of memory
/// alone.
fn kept_rows(alloc: Global, x: &Operand<'_>, mask: &Column) -> Result<EndColumn, AllocError>
    requires mask { mask.now.class ≡ class.Logical }
    requires numbers { length x.now.numbers.now ≡ length x.now.column.now.cells }
    ensures class { IfOk result (λ v. v.column.class ≡ x.now.column.now.class) }
    ensures height { IfOk result (λ v. length v.column.cells ≤ length x.now.column.now.cells) }
    ensures numbers { IfOk result (λ v. length v.rows.items ≡ length v.column.cells) }
    ensures rows { length mask.now.cells ≡ length x.now.column.now.cells → IfOk result (λ v. (v.column.cells ≡ kept x.now.column.now.cells mask.now.cells) × (v.rows.items ≡ kept x.now.numbers.now mask.now.cells)) }
{
    let (value, mask) = cut_to_lesser(x.column, mask)?;
    let column = value.filter(&mask)?;
    let rows = kept_numbers(alloc, x.numbers, &mask)?;
    Ok(EndColumn { column, rows })
}

/// The value of a filter.
pub(crate) fn filter_value(
    alloc: Global,
    graph: &Graph,
    n: NodeId,
    a: NodeId,
    m: NodeId,
    x: &Operand<'_>,
    mask: &Operand<'_>,
) -> Result<EndColumn, EndFault>
    requires rest { IsRestAt graph.now n }
    requires node { IsOperation graph.now n filter_op (a ∷ m ∷ []) }
    requires fit { IsFit (shape_at graph.now a) (found_in x.now) }
    requires mask_fit { IsFit (shape_at graph.now m) (found_in mask.now) }
    ensures fits { FitsAnswer graph.now n result }
    ensures told { TellsOfTwo graph.now n a m (found_in x.now) (found_in mask.now) result }
{
    graph.keeps_its_rules();
    match kept_rows(alloc, x, mask.column) {
        Ok(value) => Ok(value),
        Err(_) => Err(EndFault::Memory),
    }
}
