//! Constants, and operators over what is known.
ghost use Rattle.std.specs.Prelude.{◌≡◌, ◌∷◌, ◌≤◌, [], IfOk, IsOk, Ok, false, length, true, ℕ};
ghost use Rattle.tall_value.specs.ClassTables.{binary_class};
ghost use Rattle.tall_value.specs.Columns.{numbered};
ghost use Rattle.tall_value.specs.Elementwise.{binary_rows};
ghost use Rattle.tall_value.specs.OwnedCells.{owned_seen};
ghost use Rattle.tall_dense.specs.Rows.{Answers};
ghost use Rattle.tall_semantics.specs.Operations.{binary as binary_op, constant, unary as unary_op};
ghost use Rattle.tall_semantics.specs.ShapesInOrder.{shape_at};
ghost use Rattle.tall_semantics.specs.Spaces.{is_single};
ghost use Rattle.tall_semantics.specs.Talls.{Columns, Tall};
ghost use Rattle.tall_block.specs.OfBlocks.{IsOperation};
ghost use Rattle.tall_pass.specs.Fitting.{IsFit};
ghost use Rattle.tall_gather.specs.Rests.{IsComputed, IsRestAt};
ghost use Rattle.tall_gather.specs.Smalls.{FitsAnswer, TellsOfOne, TellsOfTwo, TellsValue, found_in};

use crate::answers::{column_value, single_fault, single_value};
use crate::heights::cut_to_lesser;
use crate::operands::Operand;
use std::alloc::Global;
use tall_column::{Column, OpFault, map_binary, map_scalar, map_unary};
use tall_graph::{Graph, NodeId};
use tall_part::{EndColumn, EndFault};
use tall_value::{Binary, Owned, Unary, binary, unary};

/// The value of a constant.
pub(crate) fn constant_value(
    alloc: Global,
    graph: &Graph,
    n: NodeId,
    cell: &Owned,
) -> Result<EndColumn, EndFault>
    requires rest { IsRestAt graph.now n }
    requires node { IsOperation graph.now n (constant (owned_seen cell.now)) [] }
    ensures fits { FitsAnswer graph.now n result }
    ensures told { (columns : Columns) (f : ℕ → Tall) → IsComputed columns graph.now f → TellsValue (f n) result }
{
    graph.keeps_its_rules();
    single_value(alloc, graph, n, &cell.cell())
}

/// The value of an operator of one scalar.
fn unary_single_value(
    alloc: Global,
    graph: &Graph,
    n: NodeId,
    op: Unary,
    a: NodeId,
    x: &Operand<'_>,
) -> Result<EndColumn, EndFault>
    requires rest { IsRestAt graph.now n }
    requires node { IsOperation graph.now n (unary_op op) (a ∷ []) }
    requires single { is_single (shape_at graph.now a).space ≡ true }
    requires fit { IsFit (shape_at graph.now a) (found_in x.now) }
    ensures fits { FitsAnswer graph.now n result }
    ensures told { TellsOfOne graph.now n a (found_in x.now) result }
{
    graph.keeps_its_rules();
    match unary(op, &x.column.get(0)) {
        Ok(cell) => single_value(alloc, graph, n, &cell),
        Err(fault) => single_fault(graph, n, fault),
    }
}

/// The value of an operator of one column.
fn unary_column_value(
    alloc: Global,
    graph: &Graph,
    n: NodeId,
    op: Unary,
    a: NodeId,
    x: &Operand<'_>,
) -> Result<EndColumn, EndFault>
    requires rest { IsRestAt graph.now n }
    requires node { IsOperation graph.now n (unary_op op) (a ∷ []) }
    requires column { is_single (shape_at graph.now a).space ≡ false }
    requires fit { IsFit (shape_at graph.now a) (found_in x.now) }
    ensures fits { FitsAnswer graph.now n result }
    ensures told { TellsOfOne graph.now n a (found_in x.now) result }
{
    graph.keeps_its_rules();
    let answer = map_unary(alloc, op, x.column);
    column_value(alloc, graph, n, answer, x.numbers)
}

/// The value of an operator of one operand.
pub(crate) fn unary_value(
    alloc: Global,
    graph: &Graph,
    n: NodeId,
    op: Unary,
    a: NodeId,
    x: &Operand<'_>,
) -> Result<EndColumn, EndFault>
    requires rest { IsRestAt graph.now n }
    requires node { IsOperation graph.now n (unary_op op) (a ∷ []) }
    requires fit { IsFit (shape_at graph.now a) (found_in x.now) }
    ensures fits { FitsAnswer graph.now n result }
    ensures told { TellsOfOne graph.now n a (found_in x.now) result }
{
    graph.keeps_its_rules();
    if graph.is_scalar(a) {
        unary_single_value(alloc, graph, n, op, a, x)
    } else {
        unary_column_value(alloc, graph, n, op, a, x)
    }
}

/// The value of an operator of two scalars.
fn scalars_value(
    alloc: Global,
    graph: &Graph,
    n: NodeId,
    op: Binary,
    a: NodeId,
    b: NodeId,
    x: &Operand<'_>,
    y: &Operand<'_>,
) -> Result<EndColumn, EndFault>
    requires rest { IsRestAt graph.now n }
    requires node { IsOperation graph.now n (binary_op op) (a ∷ b ∷ []) }
    requires left { is_single (shape_at graph.now a).space ≡ true }
    requires right { is_single (shape_at graph.now b).space ≡ true }
    requires left_fit { IsFit (shape_at graph.now a) (found_in x.now) }
    requires right_fit { IsFit (shape_at graph.now b) (found_in y.now) }
    ensures fits { FitsAnswer graph.now n result }
    ensures told { TellsOfTwo graph.now n a b (found_in x.now) (found_in y.now) result }
{
    graph.keeps_its_rules();
    match binary(op, &x.column.get(0), &y.column.get(0)) {
        Ok(cell) => single_value(alloc, graph, n, &cell),
        Err(fault) => single_fault(graph, n, fault),
    }
}

/// The value of an operator of a scalar and a column.
fn scalar_left_value(
    alloc: Global,
    graph: &Graph,
    n: NodeId,
    op: Binary,
    a: NodeId,
    b: NodeId,
    x: &Operand<'_>,
    y: &Operand<'_>,
) -> Result<EndColumn, EndFault>
    requires rest { IsRestAt graph.now n }
    requires node { IsOperation graph.now n (binary_op op) (a ∷ b ∷ []) }
    requires left { is_single (shape_at graph.now a).space ≡ true }
    requires right { is_single (shape_at graph.now b).space ≡ false }
    requires left_fit { IsFit (shape_at graph.now a) (found_in x.now) }
    requires right_fit { IsFit (shape_at graph.now b) (found_in y.now) }
    ensures fits { FitsAnswer graph.now n result }
    ensures told { TellsOfTwo graph.now n a b (found_in x.now) (found_in y.now) result }
{
    graph.keeps_its_rules();
    let answer = map_scalar(alloc, op, y.column, &x.column.get(0), true);
    column_value(alloc, graph, n, answer, y.numbers)
}

/// The value of an operator of a column and a scalar.
fn scalar_right_value(
    alloc: Global,
    graph: &Graph,
    n: NodeId,
    op: Binary,
    a: NodeId,
    b: NodeId,
    x: &Operand<'_>,
    y: &Operand<'_>,
) -> Result<EndColumn, EndFault>
    requires rest { IsRestAt graph.now n }
    requires node { IsOperation graph.now n (binary_op op) (a ∷ b ∷ []) }
    requires left { is_single (shape_at graph.now a).space ≡ false }
    requires right { is_single (shape_at graph.now b).space ≡ true }
    requires left_fit { IsFit (shape_at graph.now a) (found_in x.now) }
    requires right_fit { IsFit (shape_at graph.now b) (found_in y.now) }
    ensures fits { FitsAnswer graph.now n result }
    ensures told { TellsOfTwo graph.now n a b (found_in x.now) (found_in y.now) result }
{
    graph.keeps_its_rules();
    let answer = map_scalar(alloc, op, x.column, &y.column.get(0), false);
    column_value(alloc, graph, n, answer, x.numbers)
}

/// The operator at each row of two columns whose classes it takes, cut to the lesser height.
fn map_columns(alloc: Global, op: Binary, x: &Column, y: &Column) -> Result<Column, OpFault>
    requires { IsOk (binary_class op x.now.class false y.now.class false) }
    ensures class { IfOk result (λ c. binary_class op x.now.class false y.now.class false ≡ Ok c.class) }
    ensures height { IfOk result (λ c. length c.cells ≤ length x.now.cells) }
    ensures rows { length y.now.cells ≡ length x.now.cells → Answers (binary_rows op (numbered 0 x.now.cells) (numbered 0 y.now.cells)) (λ c. c.cells) result }
{
    let (first, last) = cut_to_lesser(x, y)?;
    map_binary(alloc, op, &first, &last)
}

/// The value of an operator of two columns.
fn columns_value(
    alloc: Global,
    graph: &Graph,
    n: NodeId,
    op: Binary,
    a: NodeId,
    b: NodeId,
    x: &Operand<'_>,
    y: &Operand<'_>,
) -> Result<EndColumn, EndFault>
    requires rest { IsRestAt graph.now n }
    requires node { IsOperation graph.now n (binary_op op) (a ∷ b ∷ []) }
    requires left { is_single (shape_at graph.now a).space ≡ false }
    requires right { is_single (shape_at graph.now b).space ≡ false }
    requires left_fit { IsFit (shape_at graph.now a) (found_in x.now) }
    requires right_fit { IsFit (shape_at graph.now b) (found_in y.now) }
    ensures fits { FitsAnswer graph.now n result }
    ensures told { TellsOfTwo graph.now n a b (found_in x.now) (found_in y.now) result }
{
    graph.keeps_its_rules();
    let answer = map_columns(alloc, op, x.column, y.column);
    column_value(alloc, graph, n, answer, x.numbers)
}

/// The value of an operator of two operands.
pub(crate) fn binary_value(
    alloc: Global,
    graph: &Graph,
    n: NodeId,
    op: Binary,
    a: NodeId,
    b: NodeId,
    x: &Operand<'_>,
    y: &Operand<'_>,
) -> Result<EndColumn, EndFault>
    requires rest { IsRestAt graph.now n }
    requires node { IsOperation graph.now n (binary_op op) (a ∷ b ∷ []) }
    requires left_fit { IsFit (shape_at graph.now a) (found_in x.now) }
    requires right_fit { IsFit (shape_at graph.now b) (found_in y.now) }
    ensures fits { FitsAnswer graph.now n result }
    ensures told { TellsOfTwo graph.now n a b (found_in x.now) (found_in y.now) result }
{
    graph.keeps_its_rules();
    if graph.is_scalar(a) {
        if graph.is_scalar(b) {
            scalars_value(alloc, graph, n, op, a, b, x, y)
        } else {
            scalar_left_value(alloc, graph, n, op, a, b, x, y)
        }
    } else if graph.is_scalar(b) {
        scalar_right_value(alloc, graph, n, op, a, b, x, y)
    } else {
        columns_value(alloc, graph, n, op, a, b, x, y)
    }
}
