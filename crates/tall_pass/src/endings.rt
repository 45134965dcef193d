//! What the sums of a pass come to behind its last block, node by node.
ghost use Rattle.std.specs.Prelude.{◌≡◌, ◌<◌, ℕ, IfNone, IfOk, IfSome, List, Option, Some, [], ◌∷◌, length, map, option_map, slice_get};
ghost use Rattle.std.specs.Vec.Iter.{into_iter_items};
ghost use Rattle.tall_value.specs.Cells.{Seen};
ghost use Rattle.tall_semantics.specs.Faults.{fault_seen, least_fault};
ghost use Rattle.tall_blocks.specs.PassWork.{is_below};
ghost use Rattle.tall_part.specs.declared.results.EndColumn.{EndColumn};
ghost use Rattle.tall_piece.specs.Joins.{AreWays};
ghost use Rattle.tall_piece.specs.Wants.{IsOfWay};
ghost use Rattle.tall_pass.specs.Endings.{AreEndings, AreSomeSums, FitsBelow, FitsEnding, IsEndingOf, IsSomeSum, TellsEnding, fault_at_end, faults_at_end};

use std::alloc::{AllocError, Global};
use std::vec::IntoIter;
use tall_column::Column;
use tall_graph::{Graph, NodeId};
use tall_part::{EndColumn, EndFault, EndPart, column_number};
use tall_piece::{Sum, Wanted, earlier};
use tall_value::Fault;

/// What the sum of a node comes to behind the last block.
#[derive(Drop)]
pub(crate) enum Ending {
    /// The node's column, with the numbers of its rows where these are kept.
    Found(EndColumn),
    /// The carries of a scan by blocks.
    Carries(Column),
    /// The fault of the node's expression.
    Failed(Fault),
    /// Nothing, since the node is not numbered below a fault of the blocks.
    Nothing,
}

/// A node with what its sum comes to.
#[derive(Drop)]
pub(crate) struct Ended {
    pub node: NodeId,
    pub ending: Ending,
}

/// Whether a number is below that of a fault, if there is one.
pub(crate) fn is_below(bound: Option<Fault>, number: u32) -> bool
    ensures { result ≡ is_below (option_map fault_seen bound) number }
{
    match bound {
        None => true,
        Some(fault) => number < fault.number,
    }
}

/// The column at a place; the others are dropped.
fn column_at(columns: Vec<EndColumn>, place: usize) -> EndColumn
    requires { (c : EndColumn) × (slice_get columns.items place ≡ Some c) }
    ensures { slice_get columns.items place ≡ Some result }
{
    let mut columns = columns;
    columns.swap_remove(place)
}

/// A fault as an ending; refused for want of memory alone.
fn fault_ending(fault: EndFault) -> Result<Ending, AllocError>
    ensures { IfOk result (λ e. IsEndingOf fault e) }
{
    match fault {
        EndFault::Data(fault) => Ok(Ending::Failed(fault)),
        EndFault::Memory => Err(AllocError),
    }
}

/// What all rows come to for a node that needs them all.
fn end_result(
    alloc: Global,
    graph: &Graph,
    wanted: &Wanted,
    part: EndPart,
) -> Result<Ending, AllocError>
    requires node { wanted.now.node < length graph.now }
    requires way { IsOfWay graph.now wanted.now.node wanted.now.way }
    requires fits { IsSomeSum graph.now wanted.now (Sum.End part) }
    ensures fits { IfOk result (λ e. FitsEnding graph.now wanted.now e) }
    ensures tells { IfOk result (λ e. TellsEnding graph.now wanted.now (Sum.End part) e) }
{
    graph.keeps_its_rules();
    let node = wanted.node;
    let place = column_number(graph.op_of(node));
    match part.finish(alloc, graph.number_of(node), graph.line_of(node)) {
        Ok(columns) => Ok(Ending::Found(column_at(columns, place))),
        Err(fault) => fault_ending(fault),
    }
}

/// What the sum of a node comes to.
fn sum_ending(alloc: Global, graph: &Graph, wanted: &Wanted, sum: Sum) -> Result<Ending, AllocError>
    requires node { wanted.now.node < length graph.now }
    requires way { IsOfWay graph.now wanted.now.node wanted.now.way }
    requires fits { IsSomeSum graph.now wanted.now sum }
    ensures fits { IfOk result (λ e. FitsEnding graph.now wanted.now e) }
    ensures tells { IfOk result (λ e. TellsEnding graph.now wanted.now sum e) }
{
    match sum {
        Sum::End(part) => end_result(alloc, graph, wanted, part),
        Sum::Carries { next: _next, cells } => Ok(Ending::Carries(cells)),
        Sum::Rows(column) => Ok(Ending::Found(EndColumn {
            column,
            rows: Vec::new(alloc),
        })),
    }
}

/// What the sum of a node comes to that is numbered below the bound.
fn ending_below(
    alloc: Global,
    graph: &Graph,
    bound: Option<Fault>,
    wanted: &Wanted,
    sum: Sum,
) -> Result<Ending, AllocError>
    requires node { wanted.now.node < length graph.now }
    requires way { IsOfWay graph.now wanted.now.node wanted.now.way }
    requires fits { IsSomeSum graph.now wanted.now sum }
    ensures fits { IfOk result (λ e. FitsBelow graph.now (option_map fault_seen bound) wanted.now e) }
    ensures tells { IfOk result (λ e. TellsEnding graph.now wanted.now sum e) }
{
    if is_below(bound, graph.number_of(wanted.node)) {
        sum_ending(alloc, graph, wanted, sum)
    } else {
        Ok(Ending::Nothing)
    }
}

/// The next sum, where there is one.
fn next_sum(sums: &mut IntoIter<Sum>) -> Option<Sum>
    ensures some { IfSome result (λ s. into_iter_items sums.old ≡ s ∷ into_iter_items sums.new) }
    ensures none { IfNone result (into_iter_items sums.old ≡ []) }
{
    sums.next()
}

/// What the sums come to, of the nodes that are numbered below the bound. Refused for want of memory alone.
pub(crate) fn all_endings(
    alloc: Global,
    graph: &Graph,
    bound: Option<Fault>,
    wanted: &[Wanted],
    sums: Vec<Sum>,
) -> Result<Vec<Ended>, AllocError>
    requires ways { AreWays graph.now wanted.now }
    requires fit { AreSomeSums graph.now wanted.now sums.items }
    ensures { IfOk result (λ v. AreEndings graph.now (option_map fault_seen bound) wanted.now sums.items v.items) }
{
    let mut endings = Vec::with_capacity(alloc, wanted.len())?;
    let mut sums = sums.into_iter();
    for w in wanted {
        let Some(sum) = next_sum(&mut sums) else {
            unreachable!()
        };
        let ending = ending_below(alloc, graph, bound, w, sum)?;
        endings.push(Ended {
            node: w.node,
            ending,
        })?;
    }
    Ok(endings)
}

/// The fault, where the sum comes to one.
fn fault_at_end(ending: &Ending) -> Option<Fault>
    ensures { option_map fault_seen result ≡ fault_at_end ending.now }
{
    match ending {
        Ending::Failed(fault) => Some(*fault),
        Ending::Found(_) => None,
        Ending::Carries(_) => None,
        Ending::Nothing => None,
    }
}

/// The least fault that the sums come to.
pub(crate) fn least_fault(endings: &[Ended]) -> Option<Fault>
    ensures { option_map fault_seen result ≡ least_fault (faults_at_end endings.now) }
{
    let mut least = None;
    for ended in endings {
        least = earlier(least, fault_at_end(&ended.ending));
    }
    least
}
