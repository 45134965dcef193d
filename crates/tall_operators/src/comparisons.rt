//! Comparisons of two values, of one class or of two.
ghost use Rattle.std.specs.Prelude.{◌≡◌, Ok};
ghost use Rattle.tall_value.specs.CellOperators.{binary_cell, comparison};
ghost use Rattle.tall_value.specs.declared.operators.Binary.TheVariants as binary;

use std::cmp::Ordering;
use tall_dense::{Operand, PairOperator};
use tall_value::{CellFault, compared, is_above, is_below, is_equal};

/// How two values compare; none with a NaN.
fn order<A: Operand, B: Operand>(a: A, b: B) -> Option<Ordering>
    ensures { result ≡ comparison (A.shown a) (B.shown b) }
{
    compared(a.amount(), b.amount())
}

/// `==`
#[derive(Clone, Copy)]
pub struct Equal;

impl<A: Operand, B: Operand> PairOperator<A, B> for Equal {
    type Out = bool;

    ghost gives = { λ _. binary_cell binary.Eq };

    fn of(&self, a: A, b: B) -> Result<bool, CellFault> {
        let order = order(a, b);
        Ok(is_equal(order))
    }
}

/// `~=`
#[derive(Clone, Copy)]
pub struct Different;

impl<A: Operand, B: Operand> PairOperator<A, B> for Different {
    type Out = bool;

    ghost gives = { λ _. binary_cell binary.Ne };

    fn of(&self, a: A, b: B) -> Result<bool, CellFault> {
        let order = order(a, b);
        Ok(!is_equal(order))
    }
}

/// `<`
#[derive(Clone, Copy)]
pub struct Less;

impl<A: Operand, B: Operand> PairOperator<A, B> for Less {
    type Out = bool;

    ghost gives = { λ _. binary_cell binary.Lt };

    fn of(&self, a: A, b: B) -> Result<bool, CellFault> {
        let order = order(a, b);
        Ok(is_below(order))
    }
}

/// `<=`
#[derive(Clone, Copy)]
pub struct AtMost;

impl<A: Operand, B: Operand> PairOperator<A, B> for AtMost {
    type Out = bool;

    ghost gives = { λ _. binary_cell binary.Le };

    fn of(&self, a: A, b: B) -> Result<bool, CellFault> {
        let order = order(a, b);
        Ok(is_below(order) || is_equal(order))
    }
}

/// `>`
#[derive(Clone, Copy)]
pub struct Greater;

impl<A: Operand, B: Operand> PairOperator<A, B> for Greater {
    type Out = bool;

    ghost gives = { λ _. binary_cell binary.Gt };

    fn of(&self, a: A, b: B) -> Result<bool, CellFault> {
        let order = order(a, b);
        Ok(is_above(order))
    }
}

/// `>=`
#[derive(Clone, Copy)]
pub struct AtLeast;

impl<A: Operand, B: Operand> PairOperator<A, B> for AtLeast {
    type Out = bool;

    ghost gives = { λ _. binary_cell binary.Ge };

    fn of(&self, a: A, b: B) -> Result<bool, CellFault> {
        let order = order(a, b);
        Ok(is_above(order) || is_equal(order))
    }
}
