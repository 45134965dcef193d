//! The reduce phase.
ghost use Rattle.std.specs.Prelude.{◌<◌, ◌≤◌, ◌+◌, ◌^◌, IfErr, IfOk, drop, length, take};
ghost use Rattle.std.specs.List.{AllZip};
ghost use Rattle.tall_grammar.specs.Views.{routine_of};
ghost use Rattle.tall_script.specs.States.{Store};
ghost use Rattle.tall_mapred.specs.Phases.{AppendsAll, Reduces, reduce_wants};
ghost use Rattle.tall_mapred.specs.Pieces.{IsOfFunctions, IsOfPlace, IsReducePiece};

use crate::calls::{CallPiece, reduce_piece};
use crate::faults::MapFault;
use crate::joining::append_pieces;
use std::alloc::{AllocError, Global};
use std::thread::Threads;
use tall_board::{Right, Task};
use tall_crew::work;
use tall_grammar::Function;
use tall_kv::{Groups, Pairs};
use tall_outside::Gate;

/// How many keys of a window there are for each worker, at most.
const KEYS_OF_A_WORKER: usize = 2;

/// The reduce call for each key from the first one of a window on.
#[derive(Drop)]
struct KeyCalls<'a> {
    alloc: Global,
    function: &'a Function,
    groups: &'a Groups,
    /// The number of the window's first key, from 0.
    first: usize,
}

impl<'a> Right for KeyCalls<'a> {
    ghost use Rattle.std.specs.Prelude.{◌+◌};
    ghost use Rattle.tall_grammar.specs.Views.{routine_of};
    ghost use Rattle.tall_mapred.specs.Pieces.{IsOfPlace, IsReducePiece};

    type Piece = CallPiece;

    ghost right = { λ calls place piece. IsOfPlace (IsReducePiece (routine_of calls.function.now)) calls.groups.now (calls.first + place) piece };
}

impl<'a> Task for KeyCalls<'a> {
    fn piece(&self, place: u64) -> CallPiece {
        match self.first.checked_add(place as usize) {
            Some(i) => key_piece(self.alloc, self.function, self.groups, i),
            None => CallPiece::Memory,
        }
    }
}

/// The reduce call for a key by its number, from 0; behind the last key there is none.
fn key_piece(alloc: Global, function: &Function, groups: &Groups, i: usize) -> CallPiece
    ensures { IsOfPlace (IsReducePiece (routine_of function.now)) groups.now i result }
{
    if i >= groups.len() {
        return CallPiece::Memory;
    }
    let key = groups.key(i);
    reduce_piece(alloc, function, &key, groups.values(i))
}

/// The reduce calls for so many keys from a first one on, made by the workers. Refused for want of memory alone.
fn key_pieces<R: Threads + Sync, G: Gate + Sync>(
    rt: &R,
    alloc: Global,
    gate: &G,
    function: &Function,
    groups: &Groups,
    first: usize,
    count: usize,
    workers: u32,
) -> Result<Vec<CallPiece>, AllocError>
    requires some { 0 < workers }
    requires few { count < 2 ^ 32 }
    requires within { first + count ≤ length groups.now }
    ensures { IfOk result (λ v. AllZip (IsReducePiece (routine_of function.now)) (take count (drop first groups.now)) v.items) }
{
    let calls = KeyCalls {
        alloc,
        function,
        groups,
        first,
    };
    work(rt, alloc, gate, calls, count as u64, workers)
}

/// Calls the reduce function for so many keys from a first one on, and appends the pairs in the order of the keys.
fn reduce_window<R: Threads + Sync, G: Gate + Sync>(
    rt: &R,
    alloc: Global,
    gate: &G,
    function: &Function,
    groups: &Groups,
    first: usize,
    count: usize,
    workers: u32,
    out: &mut Pairs,
) -> Result<(), MapFault>
    requires some { 0 < workers }
    requires few { count < 2 ^ 32 }
    requires within { first + count ≤ length groups.now }
    ensures appends { (d : Store) → AppendsAll d (reduce_wants (routine_of function.now) (take count (drop first groups.now))) out.old out.new result }
    ensures only { IfErr result IsOfFunctions }
{
    let Ok(pieces) = key_pieces(rt, alloc, gate, function, groups, first, count, workers) else {
        return Err(MapFault::Memory);
    };
    append_pieces(out, pieces)
}

/// Calls the reduce function for each key, in windows of two keys for each worker, and appends the pairs in the order of the
/// keys.
pub(crate) fn reduce_groups<R: Threads + Sync, G: Gate + Sync>(
    rt: &R,
    alloc: Global,
    gate: &G,
    function: &Function,
    groups: &Groups,
    workers: u32,
) -> Result<Pairs, MapFault>
    requires some { 0 < workers }
    requires few { workers ≤ 64 }
    ensures reduces { (d : Store) → Reduces d (routine_of function.now) groups.now result }
    ensures only { IfErr result IsOfFunctions }
{
    let most = KEYS_OF_A_WORKER * workers as usize;
    let keys = groups.len();
    let mut out = Pairs::new(alloc);
    let mut first = 0;
    while first < keys {
        let count = most.min(keys - first);
        match reduce_window(
            rt, alloc, gate, function, groups, first, count, workers, &mut out,
        ) {
            Ok(_) => {}
            Err(fault) => return Err(fault),
        }
        first += count;
    }
    Ok(out)
}
