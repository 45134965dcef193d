//! Operators whose result is logical, but comparisons.
ghost use Rattle.std.specs.Prelude.{◌≡◌, Ok};
ghost use Rattle.tall_value.specs.CellOperators.{binary_cell, unary_cell};
ghost use Rattle.tall_value.specs.declared.operators.Binary.TheVariants as binary;
ghost use Rattle.tall_value.specs.declared.operators.Unary.TheVariants as unary;

use tall_dense::{Operand, PairOperator, RowOperator};
use tall_value::CellFault;

/// `a & b`; both are looked at, whatever the first one is.
#[derive(Clone, Copy)]
pub struct And;

impl<A: Operand, B: Operand> PairOperator<A, B> for And {
    type Out = bool;

    ghost gives = { λ _. binary_cell binary.And };

    fn of(&self, a: A, b: B) -> Result<bool, CellFault> {
        let first = a.truth()?;
        let second = b.truth()?;
        Ok(first && second)
    }
}

/// `a | b`; both are looked at, whatever the first one is.
#[derive(Clone, Copy)]
pub struct Or;

impl<A: Operand, B: Operand> PairOperator<A, B> for Or {
    type Out = bool;

    ghost gives = { λ _. binary_cell binary.Or };

    fn of(&self, a: A, b: B) -> Result<bool, CellFault> {
        let first = a.truth()?;
        let second = b.truth()?;
        Ok(first || second)
    }
}

/// `~x`
pub struct Not;

impl<T: Operand> RowOperator<T> for Not {
    type Out = bool;

    ghost gives = { λ _. unary_cell unary.Not };

    fn of(&self, a: T) -> Result<bool, CellFault> {
        let b = a.truth()?;
        Ok(!b)
    }
}

/// `logical(x)`
pub struct ToLogical;

impl<T: Operand> RowOperator<T> for ToLogical {
    type Out = bool;

    ghost gives = { λ _. unary_cell unary.ToLogical };

    fn of(&self, a: T) -> Result<bool, CellFault> {
        let b = a.truth()?;
        Ok(b)
    }
}

/// `isnan(x)`
pub struct IsNan;

impl<T: Operand> RowOperator<T> for IsNan {
    type Out = bool;

    ghost gives = { λ _. unary_cell unary.IsNan };

    fn of(&self, a: T) -> Result<bool, CellFault> {
        Ok(a.is_nan())
    }
}
