//! Folds of truth values.
ghost use Rattle.std.specs.Prelude.{◌≡◌, ℕ, ◌+◌, ◌≤◌, Bool, List, true, false, ◌||◌, ◌&&◌, refl};
ghost use Rattle.std.specs.List.{fold, list_any, list_all, count_by};
ghost use Rattle.std.proofs.Common.{◌∙◌, add_assoc, add-zero, zero-add};
ghost use Rattle.tall_clamp.specs.Folds.{joined_by, one_row};
ghost use Rattle.tall_clamp.specs.FoldLaws.{joined_by-assoc, joined_by-left, joined_by-right, held, or-assoc, false-or, or-false, any_is, and-assoc, true-and, and-true, all_is, counted, counts_none, counted_few, counts_few, count_is};

use crate::folds::Fold;
use std::marker::{Model, PhantomData};

/// How the truth values of rows are joined to one.
pub trait Connective: Copy {
    /// What no rows give.
    const START: bool;

    ghost START: { Bool };

    ghost op: { Bool → Bool → Bool };

    ghost over: { List Bool → Bool };

    /// What two truth values are together.
    fn of_two(a: bool, b: bool) -> bool
        ensures { result ≡ op a b };

    ghost op_associative: { (a b c : Bool) → op (op a b) c ≡ op a (op b c) };

    ghost op_left: { (a : Bool) → op START a ≡ a };

    ghost op_right: { (a : Bool) → op a START ≡ a };

    ghost over_all: { (vs : List Bool) → fold (λ a v. op a v) START vs ≡ over vs };
}

/// True where one of two is.
#[derive(Clone, Copy, Debug)]
pub struct Or;

impl Connective for Or {
    const START: bool = false;

    ghost START = { false };

    ghost op = { λ a b. a || b };

    ghost over = { list_any (λ v. v) };

    fn of_two(a: bool, b: bool) -> bool {
        a || b
    }

    ghost op_associative = { or-assoc };

    ghost op_left = { false-or };

    ghost op_right = { or-false };

    ghost over_all = { any_is };
}

/// True where both of two are.
#[derive(Clone, Copy, Debug)]
pub struct And;

impl Connective for And {
    const START: bool = true;

    ghost START = { true };

    ghost op = { λ a b. a && b };

    ghost over = { list_all (λ v. v) };

    fn of_two(a: bool, b: bool) -> bool {
        a && b
    }

    ghost op_associative = { and-assoc };

    ghost op_left = { true-and };

    ghost op_right = { and-true };

    ghost over_all = { all_is };
}

/// The truth values of rows, joined to one.
#[derive(Clone, Copy, Debug)]
pub struct Truth<C: Connective> {
    holds: bool,
    rows: u64,
    connective: PhantomData<C>,
}

/// Whether a row is true (MathWorks, any). False over no rows.
pub type AnyTrue = Truth<Or>;

/// Whether every row is true (MathWorks, all). True over no rows.
pub type AllTrue = Truth<And>;

impl<C: Connective> Model for Truth<C> {
    ghost use Rattle.std.specs.Prelude.{ℕ, Bool};

    ghost Value = { Bool × ℕ };

    ghost view = { λ s. (s.holds, s.rows) };

    ghost inverse = { λ d. record { holds = d.0; rows = d.1; connective = record {} } };
}

impl<C: Connective> Fold for Truth<C> {
    type Input = bool;

    type Output = bool;

    ghost rows = { λ s. s.1 };

    ghost nothing = { (C.START, 0) };

    ghost one = { one_row (λ v. v) };

    ghost joined = { joined_by C.op };

    ghost is_fold = { λ _. Unit {0} };

    ghost is_input = { λ _. Unit {0} };

    ghost finishes = { λ s r. r ≡ s.0 };

    ghost defined = { λ vs r. r ≡ C.over vs };

    fn unit() -> Truth<C> {
        Truth {
            holds: C::START,
            rows: 0,
            connective: PhantomData,
        }
    }

    fn step(self, v: bool) -> Truth<C> {
        Truth {
            holds: C::of_two(self.holds, v),
            rows: self.rows + 1,
            connective: PhantomData,
        }
    }

    fn join(self, later: Truth<C>) -> Truth<C> {
        Truth {
            holds: C::of_two(self.holds, later.holds),
            rows: self.rows + later.rows,
            connective: PhantomData,
        }
    }

    fn finish(self) -> bool {
        self.holds
    }

    ghost unit_rows = { refl };

    ghost one_rows = { λ v. refl };

    ghost joined_rows = { λ a b. refl };

    ghost unit_is_fold = { tt };

    ghost one_is_fold = { λ v h. tt };

    ghost joined_is_fold = { λ a b p q few. tt };

    ghost associative = { λ a b c p q r. joined_by-assoc C.op a b c (C.op_associative a.0 b.0 c.0) };

    ghost left_unit = { λ a p. joined_by-left C.op C.START a (C.op_left a.0) };

    ghost right_unit = { λ a p. joined_by-right C.op C.START a (C.op_right a.0) };

    ghost whole = { λ vs r p few e. e ∙ held C.op (λ v. v) (C.START, 0) vs ∙ C.over_all vs };
}

/// How many rows are true (MathWorks, nnz).
#[derive(Clone, Copy, Debug)]
pub struct Count {
    count: u64,
    rows: u64,
}

impl Model for Count {
    ghost use Rattle.std.specs.Prelude.{ℕ, ◌≤◌};

    ghost Value = { ℕ × ℕ };

    ghost view = { λ s. (s.count, s.rows) };

    ghost invariant = { λ s. s.count ≤ s.rows };

    ghost inverse = { λ d. record { count = d.0; rows = d.1 } };
}

impl Fold for Count {
    type Input = bool;

    type Output = u64;

    ghost rows = { λ s. s.1 };

    ghost nothing = { (0, 0) };

    ghost one = { one_row counted };

    ghost joined = { joined_by (λ a b. a + b) };

    ghost is_fold = { λ s. s.0 ≤ s.1 };

    ghost is_input = { λ _. Unit {0} };

    ghost finishes = { λ s r. r ≡ s.0 };

    ghost defined = { λ vs r. r ≡ count_by (λ v. v) vs };

    fn unit() -> Count {
        Count { count: 0, rows: 0 }
    }

    fn step(self, v: bool) -> Count {
        Count {
            count: if v { self.count + 1 } else { self.count },
            rows: self.rows + 1,
        }
    }

    fn join(self, later: Count) -> Count {
        Count {
            count: self.count + later.count,
            rows: self.rows + later.rows,
        }
    }

    fn finish(self) -> u64 {
        self.count
    }

    ghost unit_rows = { refl };

    ghost one_rows = { λ v. refl };

    ghost joined_rows = { λ a b. refl };

    ghost unit_is_fold = { counts_none };

    ghost one_is_fold = { λ v h. counted_few v };

    ghost joined_is_fold = { λ a b p q few. counts_few a.0 b.0 a.1 b.1 p q };

    ghost associative = { λ a b c p q r. joined_by-assoc (λ x y. x + y) a b c (add_assoc a.0 b.0 c.0) };

    ghost left_unit = { λ a p. joined_by-left (λ x y. x + y) 0 a (zero-add a.0) };

    ghost right_unit = { λ a p. joined_by-right (λ x y. x + y) 0 a (add-zero a.0) };

    ghost whole = { λ vs r p few e. e ∙ held (λ x y. x + y) counted (0, 0) vs ∙ count_is vs };
}
