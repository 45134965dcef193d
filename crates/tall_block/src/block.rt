//! The work on a block: the values of a pass over its rows, and the least fault that is seen.
ghost use Rattle.std.specs.Prelude.{◌≡◌, ◌∷◌, ◌+◌, ◌++◌, ◌==◌, ◌<◌, ◌&&◌, nat_lt, [], if◌then◌else◌, nat_eq, ℕ, Bool, IfOk, List, OnOk, Option, Some, length, map, option_map, false, slice_get};
ghost use Rattle.std.specs.HashMap.{get};
ghost use Rattle.tall_semantics.specs.Deferred.{IsAmong, Vertex};
ghost use Rattle.tall_semantics.specs.Faults.{fault_seen};
ghost use Rattle.tall_semantics.specs.Least.{IsBelow};
ghost use Rattle.tall_semantics.specs.Outcomes.{Outcome};
ghost use Rattle.tall_semantics.specs.Plans.{is_scan_at};
ghost use Rattle.tall_semantics.specs.ShapesInOrder.{shape_at};
ghost use Rattle.tall_semantics.specs.Spaces.{is_single};
ghost use Rattle.tall_semantics.specs.Talls.{Columns, Tall};
ghost use Rattle.tall_value.specs.Cells.{Seen};
ghost use Rattle.tall_blocks.specs.PassWork.{is_below};
ghost use Rattle.tall_blocks.specs.Pieces.{is_below_missing, lacks_carry, looked_at};
ghost use Rattle.tall_fuse.specs.Kept.{carry};
ghost use Rattle.tall_block.specs.OfBlocks.{AreColumns, AreShort, known_scalar};
ghost use Rattle.tall_block.specs.BlockWork.{AreBlockValues, IsBlock};
ghost use Rattle.tall_block.specs.Steps.{IsNext, is_under, looked_first};

use crate::numbers::row_number;
use crate::values::{Value, value_of};
use std::alloc::{AllocError, Global};
use std::collections::HashMap;
use tall_column::{Column, Table};
use tall_fuse::Known;
use tall_graph::{Graph, NodeId, NodeOp};
use tall_value::Fault;

/// What the work on a block gives.
#[derive(Drop)]
pub struct BlockValues {
    /// The columns that were computed, by the places of their nodes; those of stored nodes stand in the block's table.
    pub columns: HashMap<usize, Column>,
    /// The least fault that was seen.
    pub fault: Option<Fault>,
}

/// Puts the column of a node.
fn put(made: &mut HashMap<usize, Column>, n: NodeId, column: Column) -> Result<(), AllocError>
    ensures { OnOk result ((j : ℕ) → get nat_eq made.new j ≡ (if j == n then Some column else get nat_eq made.old j)) }
{
    made.insert(n.place(), column)?;
    Ok(())
}

/// Is the number below the fault's, if there is one?
fn is_below_fault(least: Option<Fault>, number: u32) -> bool
    ensures { result ≡ is_below (option_map fault_seen least) number }
{
    match least {
        Some(fault) => number < fault.number,
        None => true,
    }
}

/// Is the number below this one, if there is one?
fn is_below_number(limit: Option<u32>, number: u32) -> bool
    ensures { result ≡ is_under limit number }
{
    match limit {
        Some(least) => number < least,
        None => true,
    }
}

/// Is the node a scan whose carry for the block isn't known?
fn lacks_its_carry(graph: &Graph, known: &Known, block: u64, n: NodeId) -> bool
    requires { n < length graph.now }
    ensures { result ≡ lacks_carry graph.now (λ i. carry known.now i block) n }
{
    match graph.op_of(n) {
        NodeOp::Scan(_) => known.carry(n, block).is_none(),
        _ => false,
    }
}

/// The lesser of a number and another, if there is one.
fn lesser(limit: Option<u32>, number: u32) -> Option<u32>
    ensures { (m : ℕ) → is_under result m ≡ (is_under limit m && nat_lt m number) }
{
    match limit {
        Some(least) if least <= number => limit,
        _ => Some(number),
    }
}

/// The least number of a scan among the work whose carry for the block isn't known.
fn first_missing(graph: &Graph, known: &Known, block: u64, work: &[NodeId]) -> Option<u32>
    requires { (i : ℕ) → IsAmong work.now i → i < length graph.now }
    ensures { (m : ℕ) → is_under result m ≡ is_below_missing graph.now (λ i. carry known.now i block) work.now m }
{
    let mut limit = None;
    for place in 0..work.len() {
        let n = work[place];
        if lacks_its_carry(graph, known, block, n) {
            limit = lesser(limit, graph.number_of(n));
        }
    }
    limit
}

/// Computes the next node of the work, which is numbered below the least fault, and gives the least fault with it.
fn compute(
    alloc: Global,
    graph: &Graph,
    known: &Known,
    block: u64,
    table: &Table,
    first_row: u64,
    made: &mut HashMap<usize, Column>,
    least: Option<Fault>,
    n: NodeId,
) -> Result<Option<Fault>, AllocError>
    requires place { n < length graph.now }
    requires rows { is_single (shape_at graph.now n).space ≡ false }
    requires columns { AreColumns graph.now table.now made.old }
    requires heights { AreShort graph.now table.now made.old }
    ensures columns { IfOk result (λ _. AreColumns graph.now table.now made.new) }
    ensures heights { IfOk result (λ _. AreShort graph.now table.now made.new) }
    ensures values { IfOk result (λ p. (work done : List ℕ) (columns : Columns) (so_far : ℕ → List Seen) (f : ℕ → Tall) (cut : ℕ → Bool) (h : ℕ → Outcome)
        → IsBlock graph.now table.now (known_scalar known.now) (λ i. carry known.now i block) first_row work columns so_far f cut h
        → IsNext graph.now cut (λ i. carry known.now i block) work done n → ((v : Vertex) → slice_get graph.now n ≡ Some v → IsBelow (option_map fault_seen least) v.at.number)
        → AreBlockValues graph.now table.now made.old f cut h done (option_map fault_seen least) → AreBlockValues graph.now table.now made.new f cut h (done ++ n ∷ []) (option_map fault_seen p)) }
{
    graph.keeps_its_rules();
    match value_of(alloc, graph, known, block, table, made, n)? {
        Value::Stored => Ok(least),
        Value::Made(column) => {
            put(made, n, column)?;
            Ok(least)
        }
        Value::Failed { lead, row, fault } => Ok(Some(Fault {
            number: graph.number_of(n),
            line: graph.line_of(n),
            row: row_number(graph, table, first_row, made, lead, row),
            kind: fault.kind(),
        })),
        Value::Missing => Ok(least),
    }
}

/// Looks at the node at a place of the work: computes it where it is numbered below each scan that lacks its carry, and below the
/// least fault, and gives the least fault with it.
fn step(
    alloc: Global,
    graph: &Graph,
    known: &Known,
    block: u64,
    table: &Table,
    first_row: u64,
    work: &[NodeId],
    limit: Option<u32>,
    made: &mut HashMap<usize, Column>,
    least: Option<Fault>,
    place: usize,
) -> Result<Option<Fault>, AllocError>
    requires places { (i : ℕ) → IsAmong work.now i → i < length graph.now }
    requires place { place < length work.now }
    requires limit { (m : ℕ) → is_under limit m ≡ is_below_missing graph.now (λ i. carry known.now i block) work.now m }
    requires columns { AreColumns graph.now table.now made.old }
    requires heights { AreShort graph.now table.now made.old }
    ensures columns { IfOk result (λ _. AreColumns graph.now table.now made.new) }
    ensures heights { IfOk result (λ _. AreShort graph.now table.now made.new) }
    ensures values { IfOk result (λ p. (columns : Columns) (so_far : ℕ → List Seen) (f : ℕ → Tall) (cut : ℕ → Bool) (h : ℕ → Outcome)
        → IsBlock graph.now table.now (known_scalar known.now) (λ i. carry known.now i block) first_row work.now columns so_far f cut h
        → AreBlockValues graph.now table.now made.old f cut h (looked_first graph.now (λ i. carry known.now i block) work.now place) (option_map fault_seen least)
        → AreBlockValues graph.now table.now made.new f cut h (looked_first graph.now (λ i. carry known.now i block) work.now (place + 1)) (option_map fault_seen p)) }
{
    graph.keeps_its_rules();
    let n = work[place];
    let number = graph.number_of(n);
    if graph.is_scalar(n) {
        return Ok(least);
    }
    if !is_below_number(limit, number) {
        return Ok(least);
    }
    if !is_below_fault(least, number) {
        return Ok(least);
    }
    compute(alloc, graph, known, block, table, first_row, made, least, n)
}

/// The values of nodes over the block with a number from 0, whose table has the variables of a datastore with rows numbered
/// from `first_row` on. The nodes are listed in ascending order, each behind its operands that are computed too; all other
/// operands are known scalars. The work goes on below the least number that fails. A scan whose carry for the block isn't
/// known is left out, and so is what isn't numbered below it. A node that cannot be computed from what is there, which no
/// block of a pass has, is left out too. Refused for want of memory alone.
pub fn block_values(
    alloc: Global,
    graph: &Graph,
    known: &Known,
    block: u64,
    table: &Table,
    first_row: u64,
    work: &[NodeId],
) -> Result<BlockValues, AllocError>
    requires places { (i : ℕ) → IsAmong work.now i → i < length graph.now }
    ensures columns { IfOk result (λ r. AreColumns graph.now table.now r.columns) }
    ensures heights { IfOk result (λ r. AreShort graph.now table.now r.columns) }
    ensures values { IfOk result (λ r. (columns : Columns) (so_far : ℕ → List Seen) (f : ℕ → Tall) (cut : ℕ → Bool) (h : ℕ → Outcome)
        → IsBlock graph.now table.now (known_scalar known.now) (λ i. carry known.now i block) first_row work.now columns so_far f cut h
        → AreBlockValues graph.now table.now r.columns f cut h (looked_at graph.now (λ i. carry known.now i block) work.now) (option_map fault_seen r.fault)) }
{
    graph.keeps_its_rules();
    let _height = table.height();
    let limit = first_missing(graph, known, block, work);
    let mut columns = HashMap::new(alloc);
    let mut fault = None;
    for place in 0..work.len() {
        fault = step(
            alloc,
            graph,
            known,
            block,
            table,
            first_row,
            work,
            limit,
            &mut columns,
            fault,
            place,
        )?;
    }
    Ok(BlockValues { columns, fault })
}
