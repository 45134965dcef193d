//! Arithmetic and signs of doubles and of logicals, which count as 0 and 1, and what becomes a double.
ghost use Rattle.std.specs.Prelude.{◌≡◌, Ok};
ghost use Rattle.tall_value.specs.CellOperators.{as_double, binary_cell, unary_cell};
ghost use Rattle.tall_operators.specs.Doubles.{CountsAsDouble};
ghost use Rattle.tall_value.specs.declared.operators.Binary.TheVariants as binary;
ghost use Rattle.tall_value.specs.declared.operators.Unary.TheVariants as unary;

use tall_dense::{Operand, PairOperator, RowOperator, Stored};
use tall_int::Whole;
use tall_value::{CellFault, checked, double_of_logical, to_double};

/// A value that counts as a double in arithmetic.
pub trait Doubling: Stored {
    /// The double, for a logical 0 or 1.
    fn double(self) -> Whole
        ensures { result ≡ as_double (Self.shown self) };

    ghost counts: { (x : Self) → CountsAsDouble (Self.shown x) };
}

impl Doubling for bool {
    fn double(self) -> Whole {
        double_of_logical(self)
    }

    ghost counts = { λ b. tt };
}

impl Doubling for Whole {
    fn double(self) -> Whole {
        self
    }

    ghost counts = { λ d. tt };
}

/// `+`
#[derive(Clone, Copy)]
pub struct Sum;

impl<A: Doubling, B: Doubling> PairOperator<A, B> for Sum {
    type Out = Whole;

    ghost gives = { λ _. binary_cell binary.Add };

    fn of(&self, a: A, b: B) -> Result<Whole, CellFault> {
        checked(a.double().add(b.double()))
    }
}

/// `-`
#[derive(Clone, Copy)]
pub struct Difference;

impl<A: Doubling, B: Doubling> PairOperator<A, B> for Difference {
    type Out = Whole;

    ghost gives = { λ _. binary_cell binary.Sub };

    fn of(&self, a: A, b: B) -> Result<Whole, CellFault> {
        checked(a.double().sub(b.double()))
    }
}

/// `.*`
#[derive(Clone, Copy)]
pub struct Product;

impl<A: Doubling, B: Doubling> PairOperator<A, B> for Product {
    type Out = Whole;

    ghost gives = { λ _. binary_cell binary.Mul };

    fn of(&self, a: A, b: B) -> Result<Whole, CellFault> {
        checked(a.double().mul(b.double()))
    }
}

/// `./`
#[derive(Clone, Copy)]
pub struct Quotient;

impl<A: Doubling, B: Doubling> PairOperator<A, B> for Quotient {
    type Out = Whole;

    ghost gives = { λ _. binary_cell binary.Div };

    fn of(&self, a: A, b: B) -> Result<Whole, CellFault> {
        checked(a.double().div(b.double()))
    }
}

/// `mod`
#[derive(Clone, Copy)]
pub struct Remainder;

impl<A: Doubling, B: Doubling> PairOperator<A, B> for Remainder {
    type Out = Whole;

    ghost gives = { λ _. binary_cell binary.Modulo };

    fn of(&self, a: A, b: B) -> Result<Whole, CellFault> {
        Ok(a.double().modulo(b.double()))
    }
}

/// `-x`
pub struct Opposite;

impl<T: Doubling> RowOperator<T> for Opposite {
    type Out = Whole;

    ghost gives = { λ _. unary_cell unary.Neg };

    fn of(&self, a: T) -> Result<Whole, CellFault> {
        Ok(a.double().neg())
    }
}

/// `+x`
pub struct Itself;

impl<T: Doubling> RowOperator<T> for Itself {
    type Out = Whole;

    ghost gives = { λ _. unary_cell unary.Plus };

    fn of(&self, a: T) -> Result<Whole, CellFault> {
        Ok(a.double())
    }
}

/// `abs(x)`
pub struct Magnitude;

impl<T: Doubling> RowOperator<T> for Magnitude {
    type Out = Whole;

    ghost gives = { λ _. unary_cell unary.Abs };

    fn of(&self, a: T) -> Result<Whole, CellFault> {
        Ok(a.double().abs())
    }
}

/// `double(x)`
pub struct ToDouble;

impl<T: Operand> RowOperator<T> for ToDouble {
    type Out = Whole;

    ghost gives = { λ _. unary_cell unary.ToDouble };

    fn of(&self, a: T) -> Result<Whole, CellFault> {
        to_double(a.amount())
    }
}
