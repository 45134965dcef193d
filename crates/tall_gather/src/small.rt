//! The value of one node from the values of its operands, which are known.
ghost use Rattle.std.specs.Prelude.{◌≡◌, ◌∷◌, [], IfSome, slice_get, ℕ};
ghost use Rattle.tall_semantics.specs.ShapesInOrder.{shape_at};
ghost use Rattle.tall_graph.specs.Vertices.{made_of};
ghost use Rattle.tall_semantics.specs.Talls.{Columns, Tall};
ghost use Rattle.tall_pass.specs.Fitting.{AreFit, IsFit};
ghost use Rattle.tall_gather.specs.Rests.{AreShown, IsComputed, IsRestAt};
ghost use Rattle.tall_gather.specs.Smalls.{BecomesSmall, FitsAnswer, FitsSmall, TellsOfOne, TellsOfTwo, TellsSmall, TellsValue, found_in};

use crate::ends::{one_end_value, two_end_value};
use crate::filters::filter_value;
use crate::operands::{Operand, known_operand};
use crate::operators::{binary_value, constant_value, unary_value};
use crate::scans::scan_value;
use std::alloc::Global;
use tall_fuse::Known;
use tall_graph::{Graph, NodeId, NodeOp};
use tall_part::{EndColumn, EndFault, EndOperation, column_number};
use tall_value::Fault;

/// What becomes of a node.
#[derive(Drop)]
pub(crate) enum Small {
    /// Its value: a scalar, or a column with the numbers of its rows.
    Made(EndColumn),
    /// Its own fault.
    Failed(Fault),
    /// An operand isn't known.
    Unknown,
    /// Memory was wanting.
    Memory,
}

fn small_of(answer: Result<EndColumn, EndFault>) -> Small
    ensures { BecomesSmall answer result }
{
    match answer {
        Ok(value) => Small::Made(value),
        Err(EndFault::Data(fault)) => Small::Failed(fault),
        Err(EndFault::Memory) => Small::Memory,
    }
}

/// The value of a node that needs all rows of one operand, as its operation says.
fn end_of_one(
    alloc: Global,
    graph: &Graph,
    n: NodeId,
    op: &NodeOp,
    a: NodeId,
    x: &Operand<'_>,
) -> Result<EndColumn, EndFault>
    requires rest { IsRestAt graph.now n }
    requires made { IfSome (slice_get graph.now n) (λ v. made_of op.now ≡ v.made) }
    requires args { IfSome (slice_get graph.now n) (λ v. v.args ≡ a ∷ []) }
    requires fit { IsFit (shape_at graph.now a) (found_in x.now) }
    ensures fits { FitsAnswer graph.now n result }
    ensures told { TellsOfOne graph.now n a (found_in x.now) result }
{
    match EndOperation::of(op) {
        Some(e) => one_end_value(alloc, graph, n, e, column_number(op), a, x),
        // (no graph accepts another operation over one operand)
        None => Err(EndFault::Memory),
    }
}

/// The value of a node of one operand.
fn one_value(
    alloc: Global,
    graph: &Graph,
    n: NodeId,
    a: NodeId,
    x: &Operand<'_>,
) -> Result<EndColumn, EndFault>
    requires rest { IsRestAt graph.now n }
    requires args { IfSome (slice_get graph.now n) (λ v. v.args ≡ a ∷ []) }
    requires fit { IsFit (shape_at graph.now a) (found_in x.now) }
    ensures fits { FitsAnswer graph.now n result }
    ensures told { TellsOfOne graph.now n a (found_in x.now) result }
{
    match graph.op_of(n) {
        NodeOp::Unary(op) => unary_value(alloc, graph, n, *op, a, x),
        NodeOp::Scan(s) => scan_value(alloc, graph, n, *s, a, x),
        op => end_of_one(alloc, graph, n, op, a, x),
    }
}

/// The value of a node that needs all rows of two operands, as its operation says.
fn end_of_two(
    alloc: Global,
    graph: &Graph,
    n: NodeId,
    op: &NodeOp,
    a: NodeId,
    b: NodeId,
    x: &Operand<'_>,
    y: &Operand<'_>,
) -> Result<EndColumn, EndFault>
    requires rest { IsRestAt graph.now n }
    requires made { IfSome (slice_get graph.now n) (λ v. made_of op.now ≡ v.made) }
    requires args { IfSome (slice_get graph.now n) (λ v. v.args ≡ a ∷ b ∷ []) }
    requires left_fit { IsFit (shape_at graph.now a) (found_in x.now) }
    requires right_fit { IsFit (shape_at graph.now b) (found_in y.now) }
    ensures fits { FitsAnswer graph.now n result }
    ensures told { TellsOfTwo graph.now n a b (found_in x.now) (found_in y.now) result }
{
    match EndOperation::of(op) {
        Some(e) => two_end_value(alloc, graph, n, e, column_number(op), a, b, x, y),
        // (no graph accepts another operation over two operands)
        None => Err(EndFault::Memory),
    }
}

/// The value of a node of two operands.
fn two_value(
    alloc: Global,
    graph: &Graph,
    n: NodeId,
    a: NodeId,
    b: NodeId,
    x: &Operand<'_>,
    y: &Operand<'_>,
) -> Result<EndColumn, EndFault>
    requires rest { IsRestAt graph.now n }
    requires args { IfSome (slice_get graph.now n) (λ v. v.args ≡ a ∷ b ∷ []) }
    requires left_fit { IsFit (shape_at graph.now a) (found_in x.now) }
    requires right_fit { IsFit (shape_at graph.now b) (found_in y.now) }
    ensures fits { FitsAnswer graph.now n result }
    ensures told { TellsOfTwo graph.now n a b (found_in x.now) (found_in y.now) result }
{
    match graph.op_of(n) {
        NodeOp::Binary(op) => binary_value(alloc, graph, n, *op, a, b, x, y),
        NodeOp::Filter => filter_value(alloc, graph, n, a, b, x, y),
        op => end_of_two(alloc, graph, n, op, a, b, x, y),
    }
}

/// The value of a constant; no other operation is without an operand.
fn alone_value(alloc: Global, graph: &Graph, n: NodeId) -> Result<EndColumn, EndFault>
    requires rest { IsRestAt graph.now n }
    requires args { IfSome (slice_get graph.now n) (λ v. v.args ≡ []) }
    ensures fits { FitsAnswer graph.now n result }
    ensures told { (columns : Columns) (f : ℕ → Tall) → IsComputed columns graph.now f → TellsValue (f n) result }
{
    match graph.op_of(n) {
        NodeOp::Constant(cell) => constant_value(alloc, graph, n, cell),
        // (no graph accepts another operation without an operand)
        _ => Err(EndFault::Memory),
    }
}

/// The value of a node without an operand.
fn small_alone(alloc: Global, graph: &Graph, known: &Known, n: NodeId) -> Small
    requires there { IsRestAt graph.now n }
    requires args { IfSome (slice_get graph.now n) (λ v. v.args ≡ []) }
    ensures fits { FitsSmall graph.now n known.now result }
    ensures told { (columns : Columns) (f : ℕ → Tall) → IsComputed columns graph.now f → AreShown f known.now → TellsSmall graph.now f n result }
{
    small_of(alone_value(alloc, graph, n))
}

/// The value of a node of one operand, where this is known.
fn small_of_one(alloc: Global, graph: &Graph, known: &Known, n: NodeId, a: NodeId) -> Small
    requires there { IsRestAt graph.now n }
    requires args { IfSome (slice_get graph.now n) (λ v. v.args ≡ a ∷ []) }
    requires fit { AreFit graph.now known.now }
    ensures fits { FitsSmall graph.now n known.now result }
    ensures told { (columns : Columns) (f : ℕ → Tall) → IsComputed columns graph.now f → AreShown f known.now → TellsSmall graph.now f n result }
{
    match known_operand(known, a) {
        Some(x) => small_of(one_value(alloc, graph, n, a, &x)),
        None => Small::Unknown,
    }
}

/// The value of a node of two operands, where both are known.
fn small_of_two(
    alloc: Global,
    graph: &Graph,
    known: &Known,
    n: NodeId,
    a: NodeId,
    b: NodeId,
) -> Small
    requires there { IsRestAt graph.now n }
    requires args { IfSome (slice_get graph.now n) (λ v. v.args ≡ a ∷ b ∷ []) }
    requires fit { AreFit graph.now known.now }
    ensures fits { FitsSmall graph.now n known.now result }
    ensures told { (columns : Columns) (f : ℕ → Tall) → IsComputed columns graph.now f → AreShown f known.now → TellsSmall graph.now f n result }
{
    let Some(x) = known_operand(known, a) else {
        return Small::Unknown;
    };
    match known_operand(known, b) {
        Some(y) => small_of(two_value(alloc, graph, n, a, b, &x, &y)),
        None => Small::Unknown,
    }
}

/// The value of a node without a datastore's rows, whose operands have none.
pub(crate) fn small_value(alloc: Global, graph: &Graph, known: &Known, n: NodeId) -> Small
    requires there { IsRestAt graph.now n }
    requires fit { AreFit graph.now known.now }
    ensures fits { FitsSmall graph.now n known.now result }
    ensures told { (columns : Columns) (f : ℕ → Tall) → IsComputed columns graph.now f → AreShown f known.now → TellsSmall graph.now f n result }
{
    match graph.args_of(n) {
        [] => small_alone(alloc, graph, known, n),
        [a, behind @ ..] => match behind {
            [] => small_of_one(alloc, graph, known, n, *a),
            [b, rest @ ..] => match rest {
                [] => small_of_two(alloc, graph, known, n, *a, *b),
                // (no graph accepts an operation over more)
                [_, ..] => Small::Memory,
            },
        },
    }
}
