//! mapreduce.
ghost use Rattle.std.specs.Prelude.{◌≡◌, ◌<◌, ◌≤◌, [], IfErr, IfOk, Some};
ghost use Rattle.tall_outside.specs.Shelf.{Files};
ghost use Rattle.tall_outside.specs.ShelfCounts.{IsLater, shelf_counts};
ghost use Rattle.tall_grammar.specs.Views.{routine_of};
ghost use Rattle.tall_local.specs.Memory.{table};
ghost use Rattle.tall_local.specs.Pairs.{distinct_keys};
ghost use Rattle.tall_script.specs.MapReduce.{map_reduced, pairs_table, reduce_phase, reduced_table};
ghost use Rattle.tall_script.specs.States.{Store};
ghost use Rattle.tall_mapred.specs.Pieces.{IsOfFunctions};
ghost use Rattle.tall_mapred.specs.Answers.{IsExplained, IsLonger, IsPairTable, IsPlaced, OpensFiles, Tells};

use crate::faults::MapFault;
use crate::mapping::map_blocks;
use crate::reducing::reduce_groups;
use std::alloc::Global;
use std::thread::Threads;
use tall_column::Table;
use tall_grammar::Function;
use tall_kv::Pairs;
use tall_outside::{Gate, Shelf};
use tall_script::laws::mapreduce_is_made_of_calls_on_empty_stores;
use tall_store::Datastore;

/// The output's pairs as a table.
fn pairs_table(alloc: Global, out: Pairs) -> Result<Table, MapFault>
    ensures table { IfOk result (λ t. table t ≡ pairs_table out) }
    ensures pairs { IfOk result IsPairTable }
    ensures memory { IfErr result (λ fault. fault ≡ MapFault.Memory) }
{
    let Ok((keys, values)) = out.into_columns() else {
        return Err(MapFault::Memory);
    };
    let mut table = Table::new(alloc);
    let Ok(_) = table.add("Key", keys) else {
        return Err(MapFault::Memory);
    };
    let Ok(_) = table.add("Value", values) else {
        return Err(MapFault::Memory);
    };
    Ok(table)
}

/// The reduce phase over the pairs of the map phase.
fn reduce_pairs<R: Threads + Sync, G: Gate + Sync>(
    rt: &R,
    alloc: Global,
    gate: &G,
    reduce: &Function,
    pairs: Pairs,
    workers: u32,
) -> Result<Table, MapFault>
    requires some { 0 < workers }
    requires few { workers ≤ 64 }
    ensures told { (d : Store) → Tells d (reduced_table (reduce_phase (routine_of reduce.now) pairs (distinct_keys pairs) [])) result }
    ensures pairs { IfOk result IsPairTable }
    ensures only { IfErr result IsOfFunctions }
{
    mapreduce_is_made_of_calls_on_empty_stores();
    let Ok(groups) = pairs.group() else {
        return Err(MapFault::Memory);
    };
    match reduce_groups(rt, alloc, gate, reduce, &groups, workers) {
        Ok(out) => pairs_table(alloc, out),
        Err(fault) => Err(fault),
    }
}

/// Calls the map function for each block of the datastore's ReadSize, over its files in order, and the reduce function for
/// each key of the pairs that were added, in the order of their first adding, with the key's values; the pairs of the
/// reduce function are the table of the columns Key and Value (docs/LANGUAGE.md, mapreduce; MathWorks, mapreduce). Each file is
/// opened at most once. 1 to 64 workers make the calls.
///
/// # Errors
/// - `At` with the first fault of a function: in the order of blocks, then of keys.
/// - `Reading` with the datastore's first reading fault, where no call for an earlier block has a fault.
/// - `Read` where the shelf failed, `TooLarge` where more than 2^50 bytes came, `Memory` for want of memory.
pub fn mapreduce<R: Threads + Sync, S: Shelf + Send, G: Gate + Sync>(
    rt: &R,
    alloc: Global,
    gate: &G,
    shelf: &mut S,
    store: &Datastore,
    map: &Function,
    reduce: &Function,
    workers: u32,
) -> Result<Table, MapFault>
    requires some { 0 < workers }
    requires few { workers ≤ 64 }
    ensures told { (files : Files) → S.held shelf.old ≡ Some files → (d : Store) → d.store ≡ store.now → Tells d (map_reduced files d (routine_of map.now) (routine_of reduce.now)) result }
    ensures table { IfOk result IsPairTable }
    ensures held { S.held shelf.new ≡ S.held shelf.old }
    ensures later { IsLater (shelf_counts S.Shelf shelf.old) (shelf_counts S.Shelf shelf.new) }
    ensures opens { OpensFiles store.now.files result (S.opened shelf.old) (S.opened shelf.new) }
    ensures explained { IsExplained result (shelf_counts S.Shelf shelf.old) (shelf_counts S.Shelf shelf.new) }
    ensures longer { (files : Files) → S.held shelf.old ≡ Some files → IsLonger store.now files result }
    ensures placed { IsPlaced store.now result }
{
    match map_blocks(rt, alloc, gate, shelf, store, map, workers) {
        Ok(pairs) => reduce_pairs(rt, alloc, gate, reduce, pairs, workers),
        Err(fault) => Err(fault),
    }
}
