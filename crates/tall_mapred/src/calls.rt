//! A call of a function on an empty store.
ghost use Rattle.std.specs.Prelude.{◌<◌, ◌≤◌, ◌^◌, length};
ghost use Rattle.tall_grammar.specs.Views.{routine_of};
ghost use Rattle.tall_value.specs.Cells.{seen};
ghost use Rattle.tall_mapred.specs.Pieces.{IsMapPiece, IsReducePiece};
ghost use Rattle.tall_walk.specs.Events.{block_of};

use std::alloc::Global;
use tall_column::Column;
use tall_cut::Records;
use tall_fun::{FunFault, call_map, call_reduce};
use tall_grammar::Function;
use tall_kv::Pairs;
use tall_store::{ColumnsFault, Datastore, FileBlock, ReadingFault};
use tall_value::Cell;

/// What a call on an empty store gives.
#[derive(Drop)]
pub enum CallPiece {
    /// The pairs that it added, and its fault.
    Called {
        pairs: Pairs,
        end: Result<(), FunFault>,
    },
    /// There was no call, since the block has this reading fault.
    Reading(ReadingFault),
    /// Memory was wanting.
    Memory,
}

/// The call of a map function for a block: its records are read, and its selected variables converted.
pub(crate) fn map_piece(
    alloc: Global,
    store: &Datastore,
    function: &Function,
    block: &FileBlock,
) -> CallPiece
    requires file { block.now.file < length store.now.files }
    requires first { 1 ≤ block.now.row }
    requires last { block.now.row ≤ 2 ^ 40 }
    ensures { IsMapPiece store.now (routine_of function.now) (block_of block.now) result }
{
    let mut records = Records::new(alloc);
    if records.parse(alloc, &block.raw).is_err() {
        return CallPiece::Memory;
    }
    match store.to_columns(&records, block.file, block.row) {
        Ok(table) => {
            let mut pairs = Pairs::new(alloc);
            let end = call_map(alloc, function, &table, &mut pairs);
            CallPiece::Called { pairs, end }
        }
        Err(ColumnsFault::Reading(fault)) => CallPiece::Reading(fault),
        Err(ColumnsFault::Memory) => CallPiece::Memory,
    }
}

/// The call of a reduce function for a key with its values.
pub(crate) fn reduce_piece(
    alloc: Global,
    function: &Function,
    key: &Cell<'_>,
    values: &Column,
) -> CallPiece
    ensures { IsReducePiece (routine_of function.now) (record { key = seen key.now; values = values.now }) result }
{
    let mut pairs = Pairs::new(alloc);
    let end = call_reduce(alloc, function, key, values, &mut pairs);
    CallPiece::Called { pairs, end }
}
