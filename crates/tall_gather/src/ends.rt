//! Operations that need all rows, over what is known.
ghost use Rattle.std.specs.Prelude.{◌≡◌, ◌∷◌, ◌<◌, ◌≤◌, ◌^◌, [], IfOk, Some, length, slice_get, ℕ};
ghost use Rattle.std.specs.List.{slice_range};
ghost use Rattle.tall_value.specs.declared.class.Class.{Class};
ghost use Rattle.tall_value.specs.Columns.{cells};
ghost use Rattle.tall_semantics.specs.Deferred.{Vertex};
ghost use Rattle.tall_semantics.specs.ShapesInOrder.{shape_at};
ghost use Rattle.tall_blocks.specs.Carries.{Rows};
ghost use Rattle.tall_block.specs.OfBlocks.{IsOperation};
ghost use Rattle.tall_part.specs.declared.results.EndColumn.{EndColumn};
ghost use Rattle.tall_part.specs.Operations.{IsColumn, IsTaken, column_count, op_of, outcome_of_rows};
ghost use Rattle.tall_part.specs.Parts.{HasNumbers, IsPart, IsPartOf, kept_from, kept_to};
ghost use Rattle.tall_part.specs.Results.{IsAccepted};
ghost use Rattle.tall_pass.specs.Fitting.{IsFit, has_numbers};
ghost use Rattle.tall_gather.specs.Rests.{IsRestAt};
ghost use Rattle.tall_gather.specs.Smalls.{FitsAnswer, IsEndSpace, TellsAnswer, TellsOfOne, TellsOfTwo, found_in};

use crate::heights::cut_to_lesser;
use crate::operands::Operand;
use std::alloc::{AllocError, Global};
use tall_graph::{Graph, NodeId};
use tall_part::{EndColumn, EndFault, EndOperation, EndPart};

/// The part of all rows of one operand.
fn one_part(alloc: Global, e: EndOperation, x: &Operand<'_>) -> Result<EndPart, AllocError>
    requires takes { IsTaken e x.now.column.now.class x.now.column.now.class }
    requires few { length x.now.column.now.cells < 2 ^ 40 }
    requires numbers { kept_to e (length x.now.column.now.cells) ≤ length x.now.numbers.now }
    ensures some { IfOk result (λ p. IsPart e x.now.column.now.class x.now.column.now.class (length x.now.column.now.cells) p) }
    ensures rows { (rs : Rows) → cells rs ≡ x.now.column.now.cells → HasNumbers e rs (slice_range x.now.numbers.now (kept_from e (length x.now.column.now.cells)) (kept_to e (length x.now.column.now.cells)))
        → IfOk result (λ p. IsPartOf e x.now.column.now.class x.now.column.now.class rs rs p) }
{
    let (from, to) = e.kept_rows(x.column.len());
    EndPart::of_columns(alloc, e, x.column, x.column, &x.numbers[from..to])
}

/// The part of all rows of two operands, cut to the lesser height. No number is kept.
fn two_part(
    alloc: Global,
    e: EndOperation,
    x: &Operand<'_>,
    y: &Operand<'_>,
) -> Result<EndPart, AllocError>
    requires takes { IsTaken e x.now.column.now.class y.now.column.now.class }
    requires few { length x.now.column.now.cells < 2 ^ 40 }
    ensures some { IfOk result (λ p. (most : ℕ) × IsPart e x.now.column.now.class y.now.column.now.class most p × (most < 2 ^ 40)) }
    ensures rows { length y.now.column.now.cells ≡ length x.now.column.now.cells → (rs ss : Rows) → cells rs ≡ x.now.column.now.cells → cells ss ≡ y.now.column.now.cells → HasNumbers e rs []
        → IfOk result (λ p. IsPartOf e x.now.column.now.class y.now.column.now.class rs ss p) }
{
    let (first, last) = cut_to_lesser(x.column, y.column)?;
    EndPart::of_columns(alloc, e, &first, &last, &[])
}

/// The column at a place; the others are dropped.
fn column_at(columns: Vec<EndColumn>, place: usize) -> EndColumn
    requires { (c : EndColumn) × (slice_get columns.items place ≡ Some c) }
    ensures { slice_get columns.items place ≡ Some result }
{
    let mut columns = columns;
    columns.swap_remove(place)
}

/// What a part comes to for a node.
fn end_value(
    alloc: Global,
    graph: &Graph,
    n: NodeId,
    e: EndOperation,
    place: usize,
    part: EndPart,
) -> Result<EndColumn, EndFault>
    requires there { n < length graph.now }
    requires part { (a b : Class) × (most : ℕ) × IsPart e a b most part × (most < 2 ^ 40) × IsAccepted e place a b (shape_at graph.now n).class }
    requires place { place < column_count e }
    requires space { IsEndSpace e (shape_at graph.now n).space }
    ensures fits { FitsAnswer graph.now n result }
    ensures told { (v : Vertex) (a b : Class) (rs ss : Rows) → slice_get graph.now n ≡ Some v → IsPartOf e a b rs ss part → TellsAnswer (has_numbers (shape_at graph.now n).space) (outcome_of_rows v.at e place a b rs ss) result }
{
    match part.finish(alloc, graph.number_of(n), graph.line_of(n)) {
        Ok(columns) => Ok(column_at(columns, place)),
        Err(fault) => Err(fault),
    }
}

/// The value of a node that needs all rows of one operand.
pub(crate) fn one_end_value(
    alloc: Global,
    graph: &Graph,
    n: NodeId,
    e: EndOperation,
    place: usize,
    a: NodeId,
    x: &Operand<'_>,
) -> Result<EndColumn, EndFault>
    requires rest { IsRestAt graph.now n }
    requires node { IsOperation graph.now n (op_of e place) (a ∷ []) }
    requires column { IsColumn e place }
    requires fit { IsFit (shape_at graph.now a) (found_in x.now) }
    ensures fits { FitsAnswer graph.now n result }
    ensures told { TellsOfOne graph.now n a (found_in x.now) result }
{
    graph.keeps_its_rules();
    match one_part(alloc, e, x) {
        Ok(part) => end_value(alloc, graph, n, e, place, part),
        Err(_) => Err(EndFault::Memory),
    }
}

/// The value of a node that needs all rows of two operands.
pub(crate) fn two_end_value(
    alloc: Global,
    graph: &Graph,
    n: NodeId,
    e: EndOperation,
    place: usize,
    a: NodeId,
    b: NodeId,
    x: &Operand<'_>,
    y: &Operand<'_>,
) -> Result<EndColumn, EndFault>
    requires rest { IsRestAt graph.now n }
    requires node { IsOperation graph.now n (op_of e place) (a ∷ b ∷ []) }
    requires column { IsColumn e place }
    requires left_fit { IsFit (shape_at graph.now a) (found_in x.now) }
    requires right_fit { IsFit (shape_at graph.now b) (found_in y.now) }
    ensures fits { FitsAnswer graph.now n result }
    ensures told { TellsOfTwo graph.now n a b (found_in x.now) (found_in y.now) result }
{
    graph.keeps_its_rules();
    match two_part(alloc, e, x, y) {
        Ok(part) => end_value(alloc, graph, n, e, place, part),
        Err(_) => Err(EndFault::Memory),
    }
}
