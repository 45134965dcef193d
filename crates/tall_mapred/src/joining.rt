//! The pairs of calls, appended in order.
ghost use Rattle.std.specs.Prelude.{◌≡◌, ◌∷◌, [], IfErr, IfNone, IfOk, IfSome, None, Ok, Option, Result};
ghost use Rattle.std.specs.List.{AllZip};
ghost use Rattle.std.specs.Vec.Iter.{into_iter_items};
ghost use Rattle.tall_local.specs.Calls.{CallResult};
ghost use Rattle.tall_local.specs.Pairs.{appended};
ghost use Rattle.tall_local.specs.Refusals.{Stop};
ghost use Rattle.tall_script.specs.States.{Store};
ghost use Rattle.tall_mapred.specs.Phases.{Appends, AppendsAll, Ends, Wants};
ghost use Rattle.tall_mapred.specs.Pieces.{ComesFrom, IsFaultOfOne, IsFaultOfPiece, IsOfFunctions, IsPairFault};

use crate::calls::CallPiece;
use crate::faults::MapFault;
use std::vec::IntoIter;
use tall_fun::{FunFault, FunKind};
use tall_kv::{PairFault, Pairs};

/// A pair that does not fit, as the fault of its `add`.
fn fault_of_pair(fault: PairFault) -> MapFault
    ensures fault { IsPairFault fault result }
    ensures only { IsOfFunctions result }
{
    let (line, kind) = match fault {
        PairFault::KeyClass { line } => (line, FunKind::KeyClass),
        PairFault::ValueClass { line } => (line, FunKind::ValueClass),
        PairFault::TooManyRows { line } => (line, FunKind::TooManyRows),
        PairFault::Memory => return MapFault::Memory,
    };
    MapFault::At {
        line,
        row: None,
        kind,
    }
}

/// Appends the pairs of a call; refused with the first that does not fit.
fn append_pairs(pairs: &mut Pairs, own: Pairs) -> Result<(), MapFault>
    ensures fit { IfOk result (λ _. appended pairs.old own ≡ record { pairs = pairs.new; stop = None }) }
    ensures refused { IfErr result (λ fault. (d : Store) (want : Result CallResult Stop) (stop : Option Stop) → want ≡ Ok (record { pairs = own; stop = stop }) → Ends d want pairs.old fault) }
    ensures only { IfErr result IsOfFunctions }
{
    match pairs.append(own) {
        Ok(_) => Ok(()),
        Err(fault) => Err(fault_of_pair(fault)),
    }
}

/// Appends what a call gives: refused with its first pair that does not fit, else with its own fault.
fn append_piece(pairs: &mut Pairs, piece: CallPiece) -> Result<(), MapFault>
    ensures appends { (d : Store) (want : Result CallResult Stop) → ComesFrom d want piece → Appends d want pairs.old pairs.new result }
    ensures fault { IfErr result (IsFaultOfPiece piece) }
{
    match piece {
        CallPiece::Called { pairs: own, end } => match end {
            Ok(_) => append_pairs(pairs, own),
            Err(FunFault::At { line, row, kind }) => {
                if let Err(misfit) = append_pairs(pairs, own) {
                    return Err(misfit);
                }
                Err(MapFault::At { line, row, kind })
            }
            Err(FunFault::Memory) => Err(MapFault::Memory),
        },
        CallPiece::Reading(fault) => Err(MapFault::Reading(fault)),
        CallPiece::Memory => Err(MapFault::Memory),
    }
}

/// The next piece, where there is one.
fn next_piece(pieces: &mut IntoIter<CallPiece>) -> Option<CallPiece>
    ensures some { IfSome result (λ p. into_iter_items pieces.old ≡ p ∷ into_iter_items pieces.new) }
    ensures none { IfNone result (into_iter_items pieces.old ≡ []) }
{
    pieces.next()
}

/// Appends what calls give, in order; refused at the first of them that is refused.
pub(crate) fn append_pieces(pairs: &mut Pairs, pieces: Vec<CallPiece>) -> Result<(), MapFault>
    ensures appends { (d : Store) (wants : Wants) → AllZip (ComesFrom d) wants pieces.items → AppendsAll d wants pairs.old pairs.new result }
    ensures fault { IfErr result (IsFaultOfOne pieces.items) }
{
    let mut pieces = pieces.into_iter();
    while let Some(piece) = next_piece(&mut pieces) {
        match append_piece(pairs, piece) {
            Ok(_) => {}
            Err(fault) => return Err(fault),
        }
    }
    Ok(())
}
