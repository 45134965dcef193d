//! Values that operators take: those that a column keeps, and numbers beside an integer class.
ghost use Rattle.std.specs.Prelude.{◌≡◌, Ok, refl};
ghost use Rattle.tall_value.specs.Cells.{Seen, amount, double, is_nan, logical, whole};
ghost use Rattle.tall_value.specs.CellOperators.{compared, comparison, truth};

use crate::integer::{Integer, Wide};
use std::marker::PhantomData;
use tall_int::Whole;
use tall_value::{CellFault, IntKind};

/// A value that an operator takes, no text.
pub trait Operand: Copy {
    ghost shown: { Self → Seen };

    /// The number that the value stands for, a logical for 0 or 1; none for NaN.
    fn amount(self) -> Option<i128>
        ensures { result ≡ amount (shown self) };

    /// The value as a logical: a nonzero number is true, and a NaN is none.
    fn truth(self) -> Result<bool, CellFault>
        ensures { result ≡ truth (shown self) };

    /// The value is NaN.
    fn is_nan(self) -> bool
        ensures { result ≡ is_nan (shown self) };

    // It compares by its number.
    ghost numeric: { (x : Self) (c : Seen) → comparison (shown x) c ≡ compared (amount (shown x)) (amount c) };
}

impl<I: Integer> Operand for I {
    ghost shown = { λ x. whole I.KIND (I.number x) };

    fn amount(self) -> Option<i128> {
        Some(self.wide())
    }

    fn truth(self) -> Result<bool, CellFault> {
        Ok(self.wide() != 0)
    }

    fn is_nan(self) -> bool {
        false
    }

    ghost numeric = { λ x c. refl };
}

impl Operand for bool {
    ghost shown = { λ b. logical b };

    fn amount(self) -> Option<i128> {
        Some(if self { 1 } else { 0 })
    }

    fn truth(self) -> Result<bool, CellFault> {
        Ok(self)
    }

    fn is_nan(self) -> bool {
        false
    }

    ghost numeric = { λ x c. refl };
}

impl Operand for Whole {
    ghost shown = { λ d. double d };

    fn amount(self) -> Option<i128> {
        self.get().map(i128::from)
    }

    fn truth(self) -> Result<bool, CellFault> {
        match self.get() {
            Some(n) => Ok(n != 0),
            None => Err(CellFault::NanLogical),
        }
    }

    fn is_nan(self) -> bool {
        self.get().is_none()
    }

    ghost numeric = { λ x c. refl };
}

/// A number beside an integer class, which need not be of the class.
#[derive(Clone, Copy, Drop)]
pub struct Beside<I, W> {
    pub number: W,
    pub class: PhantomData<I>,
}

impl<I: Integer, W: Wide> Operand for Beside<I, W> {
    ghost shown = { λ s. whole I.KIND (W.value s.number) };

    fn amount(self) -> Option<i128> {
        Some(self.number.amount())
    }

    fn truth(self) -> Result<bool, CellFault> {
        Ok(self.number.amount() != 0)
    }

    fn is_nan(self) -> bool {
        false
    }

    ghost numeric = { λ x c. refl };
}

/// A number of an integer class beside values of another class.
#[derive(Clone, Copy, Drop)]
pub struct Number<W> {
    pub kind: IntKind,
    pub number: W,
}

impl<W: Wide> Operand for Number<W> {
    ghost shown = { λ s. whole s.kind (W.value s.number) };

    fn amount(self) -> Option<i128> {
        Some(self.number.amount())
    }

    fn truth(self) -> Result<bool, CellFault> {
        Ok(self.number.amount() != 0)
    }

    fn is_nan(self) -> bool {
        false
    }

    ghost numeric = { λ x c. refl };
}
