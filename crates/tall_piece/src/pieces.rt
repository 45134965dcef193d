//! A block's work in a pass, as one function.
ghost use Rattle.std.specs.Prelude.{◌≡◌, ◌+◌, ◌<◌, ◌≤◌, ◌^◌, ℕ, IfOk, length, option_map};
ghost use Rattle.tall_cut.specs.Finding.{raw_records};
ghost use Rattle.tall_semantics.specs.Deferred.{IsAmong};
ghost use Rattle.tall_semantics.specs.Faults.{fault_seen};
ghost use Rattle.tall_semantics.specs.Outcomes.{Outcome};
ghost use Rattle.tall_store.specs.Blocks.{Block, block_variables};
ghost use Rattle.tall_store.specs.Stores.{SeenStore};
ghost use Rattle.tall_block.specs.OfBlocks.{AreColumns};
ghost use Rattle.tall_piece.specs.Given.{IsGiven};
ghost use Rattle.tall_piece.specs.Joins.{AreWays};
ghost use Rattle.tall_piece.specs.Passes.{PassOver};
ghost use Rattle.tall_piece.specs.Pieces.{IsPiece, PartsFit};
ghost use Rattle.tall_piece.specs.Right.{IsRightPiece, record_block};
ghost use Rattle.tall_piece.specs.Worked.{AreMadeParts};

use crate::making::{BlockColumns, block_part};
use crate::parts::Part;
use crate::sums::BlockParts;
use crate::wanted::Wanted;
use std::alloc::{AllocError, Global};
use tall_block::block_values;
use tall_column::Table;
use tall_cut::Records;
use tall_fuse::Known;
use tall_graph::{Graph, NodeId};
use tall_store::{ColumnsFault, Datastore, FileBlock, ReadingFault};

/// What the work on a block of a pass gives.
#[derive(Drop)]
pub enum Piece {
    /// The parts of what is wanted.
    Parts(BlockParts),
    /// The block's first reading fault.
    Reading(ReadingFault),
    /// Memory was wanting.
    Memory,
}

/// The parts that a block gives for all nodes that are wanted.
fn block_parts(
    alloc: Global,
    graph: &Graph,
    block: &BlockColumns<'_>,
    wanted: &[Wanted],
) -> Result<Vec<Option<Part>>, AllocError>
    requires ways { AreWays graph.now wanted.now }
    requires columns { AreColumns graph.now block.now.table.now block.now.made.now }
    requires few { block.now.rows < 2 ^ 40 }
    ensures { IfOk result (λ v. AreMadeParts graph.now block.now.table.now block.now.made.now block.now.first_row block.now.rows wanted.now v.items) }
{
    let mut parts = Vec::with_capacity(alloc, wanted.len())?;
    for w in wanted {
        parts.push(block_part(alloc, graph, block, w)?)?;
    }
    Ok(parts)
}

/// The work on a block whose variables are there.
fn table_piece(
    alloc: Global,
    graph: &Graph,
    all: &[NodeId],
    wanted: &[Wanted],
    known: &Known,
    table: &Table,
    first_row: u64,
    rows: u64,
    place: u64,
) -> Result<BlockParts, AllocError>
    requires places { (i : ℕ) → IsAmong all.now i → i < length graph.now }
    requires ways { AreWays graph.now wanted.now }
    requires few { rows < 2 ^ 40 }
    ensures rows { IfOk result (λ q. q.rows ≡ rows) }
    ensures fits { IfOk result (λ q. PartsFit graph.now rows wanted.now q.parts.items) }
    ensures right { IfOk result (λ q. (store : ℕ) (p : PassOver graph.now store all.now wanted.now) (d : SeenStore) (block : Block) (h : ℕ → Outcome) → IsGiven p d known.now block place h
        → table.now ≡ block_variables d block → block.row ≡ first_row → length block.records ≡ rows → block.row + length block.records ≤ 2 ^ 40 → IsPiece p place h rows (option_map fault_seen q.fault) q.parts.items) }
{
    let values = block_values(alloc, graph, known, place, table, first_row, all)?;
    let columns = BlockColumns {
        table,
        made: &values.columns,
        first_row,
        rows,
    };
    let parts = block_parts(alloc, graph, &columns, wanted)?;
    Ok(BlockParts {
        fault: values.fault,
        rows,
        parts,
    })
}

/// The work on a block of a pass, the one at a place among the datastore's blocks, from 0: its records are read, its selected
/// variables converted, the values that the pass needs computed, and the parts made of what is wanted.
pub fn block_piece(
    alloc: Global,
    store: &Datastore,
    graph: &Graph,
    all: &[NodeId],
    wanted: &[Wanted],
    known: &Known,
    block: &FileBlock,
    place: u64,
) -> Piece
    requires file { block.now.file < length store.now.files }
    requires first { 1 ≤ block.now.row }
    requires last { block.now.row ≤ 2 ^ 40 }
    requires places { (i : ℕ) → IsAmong all.now i → i < length graph.now }
    requires ways { AreWays graph.now wanted.now }
    ensures { IsRightPiece store.now (record_block block.now.file block.now.row (raw_records block.now.raw)) graph.now known.now all.now wanted.now place result }
{
    let mut records = Records::new(alloc);
    if records.parse(alloc, &block.raw).is_err() {
        return Piece::Memory;
    }
    match store.to_columns(&records, block.file, block.row) {
        Ok(table) => {
            match table_piece(
                alloc,
                graph,
                all,
                wanted,
                known,
                &table,
                block.row,
                records.len() as u64,
                place,
            ) {
                Ok(parts) => Piece::Parts(parts),
                Err(_) => Piece::Memory,
            }
        }
        Err(ColumnsFault::Reading(fault)) => Piece::Reading(fault),
        Err(ColumnsFault::Memory) => Piece::Memory,
    }
}
