//! What holds after every list of events.
ghost use Rattle.std.specs.Prelude.{◌≡◌, ℕ, ◌<◌, true, List, [], ◌∷◌, slice_get};
ghost use Rattle.tall_core.specs.Machine.{State, start, run, is_done, laid_for, EachOnce, Reached};

use crate::event::Event;

/// From the start, and after any events, each place below `next` is held by one worker or published, and no other
/// is. Once all is done, each place has its piece, and no other piece was ever laid for it.
pub fn each_place_once<P>()
    ensures reached { (places workers : ℕ) (s : State P) → Reached places workers s → EachOnce s }
    ensures once { (places workers : ℕ) (events : List (Event P)) → EachOnce (run (start places workers) events) }
    ensures whole { (places workers : ℕ) (events : List (Event P)) → is_done (run (start places workers) events) ≡ true → (place : ℕ) → place < places
        → (piece : P) × (slice_get (run (start places workers) events).published place ≡ Some (Some piece)) × (laid_for place (start places workers) events ≡ piece ∷ []) }
{}
