//! What is kept of the data of a group.
ghost use Rattle.std.specs.Prelude.{◌≡◌, ℤ, ℕ, ◌+◌, ◌++◌, ◌<◌, ◌^◌, ◌≤ℤ◌, pos, negsuc, [], ◌∷◌, IfSome, List, None, Option, length, option_map};
ghost use Rattle.tall_value.specs.declared.class.Kind.{Kind};
ghost use Rattle.tall_value.specs.Cells.{Seen, seen, seen_kind};
ghost use Rattle.tall_group.specs.States.{IsRange, IsWithin, high_of, low_of};

use tall_value::{Cell, Kind};

/// What is kept of the data of a group of which no row is known but its number or NaN: it can be cut into blocks.
pub(crate) trait GroupState: Copy {
    ghost rows: { Self → ℕ };

    ghost of: { ℤ → ℤ → List (Option ℤ) → Self → Type 0 };

    ghost nothing: { Self };

    ghost gives: { Kind → List (Option ℤ) → Option Seen };

    ghost kind_given: { Kind → Kind };

    /// No data.
    fn none() -> Self
        ensures { result ≡ nothing };

    /// One datum more, none for NaN, from `low` to `high`.
    fn step(self, low: i128, high: i128, datum: Option<i128>) -> Self
        requires range { IsRange low high }
        requires datum { IsWithin low high datum }
        requires few { rows self + 1 < 2 ^ 40 }
        ensures rows { rows result ≡ rows self + 1 }
        ensures data { (ds : List (Option ℤ)) → of low high ds self → of low high (ds ++ datum ∷ []) result };

    /// These data and then the later ones.
    fn join(self, later: Self) -> Self
        requires few { rows self + rows later < 2 ^ 40 }
        ensures rows { rows result ≡ rows self + rows later }
        ensures data { (low high : ℤ) (ds es : List (Option ℤ)) → IsRange low high → of low high ds self → of low high es later → of low high (ds ++ es) result };

    /// The number of rows.
    fn count(self) -> u64
        ensures { result ≡ rows self };

    /// What the data of a kind give; none where it is a double above 2^53 in magnitude.
    fn value<'a>(self, kind: Kind) -> Option<Cell<'a>>
        ensures kind { IfSome result (λ c. seen_kind (seen c) ≡ kind_given kind) }
        ensures value { (ds : List (Option ℤ)) → of (low_of kind) (high_of kind) ds self → option_map seen result ≡ gives kind ds };

    /// The kind of what data of a kind give.
    fn value_kind(kind: Kind) -> Kind
        ensures { result ≡ kind_given kind };

    ghost of_nothing: { (low high : ℤ) → IsRange low high → of low high [] nothing };

    ghost rows_of: { (low high : ℤ) (ds : List (Option ℤ)) (s : Self) → of low high ds s → rows s ≡ length ds };
}
