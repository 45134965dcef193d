//! What the rule says of a board at every moment, and that its steps are events of the machine.
ghost use Rattle.std.specs.Prelude.{◌≡◌, ℕ, ◌+◌, ◌%◌, ◌^◌, ◌<◌, ◌≤◌, false, [], ◌∷◌, Some, None, Option, length};
ghost use mathlib.Core.Option.{some};
ghost use lib.ListN.{get_elem?};
ghost use Rattle.atomic_table.specs.Table.{State, stepped, keeps, takes, gives};
ghost use Rattle.tall_core.specs.Machine.{after, EachOnce};
ghost use Rattle.tall_core.specs.declared.event.Event.TheVariants.{Claim, ClaimPast, Lay, Publish};
ghost use Rattle.tall_board.specs.declared.view.View.{View};
ghost use Rattle.tall_board.specs.Rule as rule;

use crate::rule::Right;

/// At every moment the table shows a state of the machine, in which each place is claimed once: no two seats of a
/// board hold one place.
pub fn no_place_twice<T: Right>()
    ensures once { (task : T) (n : ℕ) (s : State (Option T.Piece) View) → rule.Kept (T.right task) n s → EachOnce (rule.shown n rule.nothing_laid s) }
    ensures apart { (task : T) (n : ℕ) (s : State (Option T.Piece) View) → rule.Kept (T.right task) n s → (i j place : ℕ) → rule.Holds s.views i place → rule.Holds s.views j place → i ≡ j }
{}

/// A claim, a claim past the end, the laying of a piece and its publication are the machine's events: the state that
/// the table shows after the step is the one that the machine has after the event. A laid piece is seen by its own
/// seat alone until it is published.
pub fn steps_are_events<T: Right>()
    ensures claim { (task : T) (n seat : ℕ) (v : View) (s : State (Option T.Piece) View) → rule.Kept (T.right task) n s → length s.homes ≡ n → n < 2 ^ 32 → get_elem? s.views seat ≡ some v
        → v.ticket ≡ None → v.told ≡ false → 0 < v.room → rule.drawn s < n
        → after (rule.shown n rule.nothing_laid s) (Claim seat) ≡ Some (rule.shown n rule.nothing_laid (stepped s 0 ((rule.drawn s + 1) % 2 ^ 64) seat [] (rule.with_ticket v (rule.drawn s)) (takes (rule.drawn s) None))) }
    ensures past { (task : T) (n seat : ℕ) (v : View) (s : State (Option T.Piece) View) → rule.Kept (T.right task) n s → length s.homes ≡ n → n < 2 ^ 32 → get_elem? s.views seat ≡ some v
        → v.ticket ≡ None → v.told ≡ false → 0 < v.room → n ≤ rule.drawn s
        → after (rule.shown n rule.nothing_laid s) (ClaimPast seat) ≡ Some (rule.shown n rule.nothing_laid (stepped s 0 ((rule.drawn s + 1) % 2 ^ 64) seat [] (rule.told_none v) keeps)) }
    ensures lay { (n seat place : ℕ) (piece : T.Piece) (v : View) (s : State (Option T.Piece) View) → get_elem? s.views seat ≡ some v
        → v.ticket ≡ Some place → after (rule.shown n rule.nothing_laid s) (Lay seat piece) ≡ Some (rule.shown n (rule.laid_by seat piece) s) }
    ensures publish { (task : T) (n seat place : ℕ) (piece : T.Piece) (v : View) (s : State (Option T.Piece) View) → rule.Kept (T.right task) n s → get_elem? s.views seat ≡ some v → n < 2 ^ 32 → length s.homes ≡ n
        → v.ticket ≡ Some place → T.right task place piece
        → after (rule.shown n (rule.laid_by seat piece) s) (Publish seat) ≡ Some (rule.shown n rule.nothing_laid (stepped s 1 ((rule.published s + 1) % 2 ^ 64) seat ((place, Some piece) ∷ []) (rule.idle v) gives)) }
{}
