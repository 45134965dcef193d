//! The least or the greatest of the values of a class, in the class itself.
ghost use Rattle.std.specs.Prelude.{◌≡◌, ℤ};
ghost use Rattle.tall_int.specs.Numbers.{nearest};
ghost use Rattle.tall_clamp.specs.Folds.{of_both};
ghost use Rattle.tall_fold.specs.PickLaws.{max_kept, min_kept};

use tall_clamp::{Choice, Larger, Smaller};
use tall_int::{IntClass, Whole};

/// A choice among numbers that is made among the values of a class.
pub(crate) trait Pick: Choice {
    /// The one of two values that is kept.
    fn of_values<I: IntClass>(a: I, b: I) -> I
        ensures { I.number result ≡ Self.pick (I.number a) (I.number b) };

    /// The one of two doubles that is kept; NaN is passed over.
    fn of_doubles(a: Whole, b: Whole) -> Whole
        ensures { result ≡ of_both Self.pick a b };

    // The choice among numbers of a range is one of it.
    ghost stays: { (l h x y : ℤ) → nearest l h x ≡ x → nearest l h y ≡ y → nearest l h (Self.pick x y) ≡ Self.pick x y };
}

impl Pick for Smaller {
    fn of_values<I: IntClass>(a: I, b: I) -> I {
        if b.wide() < a.wide() { b } else { a }
    }

    fn of_doubles(a: Whole, b: Whole) -> Whole {
        match (a.get(), b.get()) {
            (Some(x), Some(y)) => { if y < x { b } else { a } }
            (Some(_), None) => a,
            (None, _) => b,
        }
    }

    ghost stays = { min_kept };
}

impl Pick for Larger {
    fn of_values<I: IntClass>(a: I, b: I) -> I {
        if a.wide() < b.wide() { b } else { a }
    }

    fn of_doubles(a: Whole, b: Whole) -> Whole {
        match (a.get(), b.get()) {
            (Some(x), Some(y)) => { if x < y { b } else { a } }
            (Some(_), None) => a,
            (None, _) => b,
        }
    }

    ghost stays = { max_kept };
}
