//! What is kept of the cells of a column for a reduction, and its join with what is kept of later cells.
ghost use Rattle.std.specs.Prelude.{◌≡◌, ◌+◌, ◌++◌, ◌<◌, ◌^◌, List};
ghost use Rattle.tall_value.specs.declared.class.Kind.{Kind};
ghost use Rattle.tall_value.specs.declared.functions.Reduction.{Reduction};
ghost use Rattle.tall_value.specs.Cells.{Seen};
ghost use Rattle.tall_fold.specs.Summaries.{ComesTo, HasNumber, kept_form, kept_rows};

use tall_clamp::{AllTrue, AnyTrue, ExactSum, Fold, Greatest, Least, UntypedSum};

/// What the cells so far come to.
#[derive(Clone, Copy)]
pub(crate) enum Kept {
    /// The exact total of those that count, or that a NaN is among them.
    Total(ExactSum),
    /// The clamp function from the sum before them to the sum behind them.
    Clamp(UntypedSum),
    /// The least number, where there is one.
    Least(Least),
    /// The greatest number, where there is one.
    Greatest(Greatest),
    /// Whether one is true.
    Any(AnyTrue),
    /// Whether each is true.
    All(AllTrue),
    /// How many count.
    Number(u64),
}

/// What the first cells and then the later ones come to, for one reduction of columns of one class.
#[tactic(auto, using(crate::proofs::JoinLemmas::totals_joined, crate::proofs::JoinLemmas::clamps_joined, crate::proofs::JoinLemmas::least_joined, crate::proofs::JoinLemmas::greatest_joined, crate::proofs::JoinLemmas::some_joined, crate::proofs::JoinLemmas::each_joined, crate::proofs::JoinLemmas::numbers_joined, crate::proofs::JoinLemmas::least_kept, crate::proofs::JoinLemmas::greatest_kept))]
pub(crate) fn joined(first: Kept, later: Kept) -> Kept
    requires form { kept_form first ≡ kept_form later }
    requires rows { kept_rows first + kept_rows later < 2 ^ 40 }
    ensures form { kept_form result ≡ kept_form first }
    ensures rows { kept_rows result ≡ kept_rows first + kept_rows later }
    ensures number { (a : Kind) → HasNumber a first → HasNumber a later → HasNumber a result }
    ensures comes { (op : Reduction) (a : Kind) (cs ds : List Seen) → ComesTo op a cs first → ComesTo op a ds later → ComesTo op a (cs ++ ds) result }
{
    match first {
        Kept::Total(a) => {
            let Kept::Total(b) = later else {
                unreachable!()
            };
            Kept::Total(a.join(b))
        }
        Kept::Clamp(a) => {
            let Kept::Clamp(b) = later else {
                unreachable!()
            };
            Kept::Clamp(a.join(b))
        }
        Kept::Least(a) => {
            let Kept::Least(b) = later else {
                unreachable!()
            };
            Kept::Least(a.join(b))
        }
        Kept::Greatest(a) => {
            let Kept::Greatest(b) = later else {
                unreachable!()
            };
            Kept::Greatest(a.join(b))
        }
        Kept::Any(a) => {
            let Kept::Any(b) = later else { unreachable!() };
            Kept::Any(a.join(b))
        }
        Kept::All(a) => {
            let Kept::All(b) = later else { unreachable!() };
            Kept::All(a.join(b))
        }
        Kept::Number(a) => {
            let Kept::Number(b) = later else {
                unreachable!()
            };
            Kept::Number(a + b)
        }
    }
}
