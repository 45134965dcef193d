//! Scans over what is known.
ghost use Rattle.std.specs.Prelude.{◌≡◌, ◌∷◌, ◌<◌, ◌≤◌, ◌^◌, [], IfOk, IsOk, Ok, length};
ghost use Rattle.tall_value.specs.Classes.{kind_of};
ghost use Rattle.tall_value.specs.Columns.{numbered};
ghost use Rattle.tall_value.specs.FunctionClasses.{scan_class};
ghost use Rattle.tall_dense.specs.Rows.{Answers};
ghost use Rattle.tall_fold.specs.Carries.{IsCarry, result_kind, scan_rows};
ghost use Rattle.tall_semantics.specs.Operations.{scan as scan_op};
ghost use Rattle.tall_semantics.specs.ShapesInOrder.{shape_at};
ghost use Rattle.tall_block.specs.OfBlocks.{IsOperation};
ghost use Rattle.tall_pass.specs.Fitting.{IsFit};
ghost use Rattle.tall_gather.specs.Rests.{IsRestAt};
ghost use Rattle.tall_gather.specs.Smalls.{FitsAnswer, TellsOfOne, found_in};

use crate::answers::column_value;
use crate::operands::Operand;
use std::alloc::Global;
use tall_column::{Column, OpFault};
use tall_fold::{Carry, carry, scan};
use tall_graph::{Graph, NodeId};
use tall_part::{EndColumn, EndFault};
use tall_value::Scan;

/// What a scan goes on from before the first row.
fn start_of(alloc: Global, s: Scan, x: &Column) -> Carry
    requires { IsOk (scan_class s x.now.class) }
    ensures class { scan_class s x.now.class ≡ Ok result.class }
    ensures rows { result.rows ≡ 0 }
    ensures carry { IsCarry s result.class [] result }
{
    carry(s, &Column::new(alloc, x.class()))
}

/// The scan of a whole column.
fn scanned(alloc: Global, s: Scan, x: &Column) -> Result<Column, OpFault>
    requires takes { IsOk (scan_class s x.now.class) }
    requires few { length x.now.cells < 2 ^ 40 }
    ensures class { IfOk result (λ c. scan_class s x.now.class ≡ Ok c.class) }
    ensures height { IfOk result (λ c. length c.cells ≤ length x.now.cells) }
    ensures rows { Answers (scan_rows s (result_kind (kind_of x.now.class)) [] (numbered 0 x.now.cells)) (λ c. c.cells) result }
{
    scan(alloc, s, x, start_of(alloc, s, x))
}

/// The value of a scan.
pub(crate) fn scan_value(
    alloc: Global,
    graph: &Graph,
    n: NodeId,
    s: Scan,
    a: NodeId,
    x: &Operand<'_>,
) -> Result<EndColumn, EndFault>
    requires rest { IsRestAt graph.now n }
    requires node { IsOperation graph.now n (scan_op s) (a ∷ []) }
    requires fit { IsFit (shape_at graph.now a) (found_in x.now) }
    ensures fits { FitsAnswer graph.now n result }
    ensures told { TellsOfOne graph.now n a (found_in x.now) result }
{
    graph.keeps_its_rules();
    column_value(alloc, graph, n, scanned(alloc, s, x.column), x.numbers)
}
