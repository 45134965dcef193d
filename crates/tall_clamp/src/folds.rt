//! Folds of columns, and their laws.
ghost use Rattle.std.specs.Prelude.{◌≡◌, ℕ, ◌+◌, ◌^◌, ◌<◌, List, length};
ghost use Rattle.std.specs.List.{All, flat_map};
ghost use Rattle.tall_clamp.specs.Folds.{of_rows};

/// A fold of rows in order, as a sum, that can be cut into blocks: the folds of the blocks, joined in order, are the
/// fold of all rows. It is seen with its number of rows, which is below 2^40.
///
/// `joined` is associative with the unit `nothing`, and a step is the join with the step from the unit. What `finish`
/// gives is `defined` by the list of rows alone.
pub trait Fold: Copy {
    /// A row.
    type Input: Copy;

    /// What all rows give.
    type Output;

    ghost rows: { Self → ℕ };

    ghost nothing: { Self };

    ghost one: { Self.Input → Self };

    ghost joined: { Self → Self → Self };

    ghost is_fold: { Self → Type 0 };

    ghost is_input: { Self.Input → Type 0 };

    ghost finishes: { Self → Self.Output → Type 0 };

    ghost defined: { List Self.Input → Self.Output → Type 0 };

    /// The fold of no rows.
    fn unit() -> Self
        ensures { result ≡ nothing };

    /// The fold of these rows and one more.
    fn step(self, v: Self::Input) -> Self
        requires { rows self + 1 < 2 ^ 40 }
        ensures value { result ≡ joined self (one v) }
        ensures fold { is_fold self }
        ensures input { is_input v };

    /// The fold of these rows and then the later ones.
    fn join(self, later: Self) -> Self
        requires { rows self + rows later < 2 ^ 40 }
        ensures value { result ≡ joined self later }
        ensures first { is_fold self }
        ensures second { is_fold later };

    /// What the rows give.
    fn finish(self) -> Self::Output
        ensures { finishes self result };

    ghost unit_rows: { rows nothing ≡ 0 };

    ghost one_rows: { (v : Self.Input) → rows (one v) ≡ 1 };

    ghost joined_rows: { (a b : Self) → rows (joined a b) ≡ rows a + rows b };

    ghost unit_is_fold: { is_fold nothing };

    ghost one_is_fold: { (v : Self.Input) → is_input v → is_fold (one v) };

    ghost joined_is_fold: { (a b : Self) → is_fold a → is_fold b → rows a + rows b < 2 ^ 40 → is_fold (joined a b) };

    ghost associative: { (a b c : Self) → is_fold a → is_fold b → is_fold c → joined (joined a b) c ≡ joined a (joined b c) };

    ghost left_unit: { (a : Self) → is_fold a → joined nothing a ≡ a };

    ghost right_unit: { (a : Self) → is_fold a → joined a nothing ≡ a };

    ghost whole: { (vs : List Self.Input) (r : Self.Output) → All is_input vs → length vs < 2 ^ 40 → finishes (of_rows joined one nothing vs) r → defined vs r };
}
