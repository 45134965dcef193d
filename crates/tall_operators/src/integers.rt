//! Arithmetic, bits and signs of the values of an integer class, and what becomes an integer.
ghost use Rattle.std.specs.Prelude.{◌≡◌, Ok, Result, Some};
ghost use Rattle.tall_int.specs.declared.operators.Arith.TheVariants as arith;
ghost use Rattle.tall_int.specs.Arithmetic.{operation};
ghost use Rattle.tall_int.specs.Numbers.{nearest as nearest_number};
ghost use Rattle.tall_value.specs.Cells.{Seen, whole};
ghost use Rattle.tall_value.specs.CellOperators.{arithmetic, binary_cell, converted, in_class, to_integer, unary_cell};
ghost use Rattle.tall_value.specs.declared.faults.CellFault.{CellFault};
ghost use Rattle.tall_value.specs.declared.operators.Binary.TheVariants as binary;
ghost use Rattle.tall_value.specs.declared.operators.Unary.TheVariants as unary;

use std::marker::PhantomData;
use tall_dense::{Beside, Integer, Operand, PairOperator, RowOperator, difference, product, sum};
use tall_int::{
    Arith, Rounding, Whole, abs, bit_and, bit_or, bit_xor, clamp, div_round, idivide, mixed, neg,
};
use tall_value::CellFault;

/// The value itself, which is the nearest number of the class to its own.
fn same<I: Integer>(a: I) -> I
    ensures { I.number result ≡ nearest_number I.MIN I.MAX (I.number a) }
{
    clamp(a.wide())
}

/// `mod` in the class.
fn modulo<I: Integer>(a: I, b: I) -> I
    ensures { I.number result ≡ operation arith.Modulo I.MIN I.MAX (I.number a) (I.number b) }
{
    mixed(Arith::Modulo, a.wide(), b.wide())
}

/// An operator of numbers in the wide type of an integer class.
pub trait WideOperator<I: Integer>: Copy {
    ghost gives: { Self → Seen → Seen → Result Seen CellFault };

    fn at(&self, a: I::Wide, b: I::Wide) -> I
        ensures { Ok (whole I.KIND (I.number result)) ≡ gives self.now (whole I.KIND (I.Wide.value a)) (whole I.KIND (I.Wide.value b)) };
}

/// The operator on values of the class, and on numbers beside them.
#[derive(Clone, Copy)]
pub struct Widened<O> {
    operator: O,
}

/// The operator on values and numbers.
pub fn widely<O>(operator: O) -> Widened<O>
    ensures { result ≡ record { operator = operator } }
{
    Widened { operator }
}

impl<I: Integer, O: WideOperator<I>> PairOperator<I, I> for Widened<O> {
    type Out = I;

    ghost gives = { λ w. O.gives w.operator };

    fn of(&self, a: I, b: I) -> Result<I, CellFault> {
        Ok(self.operator.at(a.widen(), b.widen()))
    }
}

impl<I: Integer, O: WideOperator<I>> PairOperator<I, Beside<I, I::Wide>> for Widened<O> {
    type Out = I;

    ghost gives = { λ w. O.gives w.operator };

    fn of(&self, a: I, b: Beside<I, I::Wide>) -> Result<I, CellFault> {
        Ok(self.operator.at(a.widen(), b.number))
    }
}

impl<I: Integer, O: WideOperator<I>> PairOperator<Beside<I, I::Wide>, I> for Widened<O> {
    type Out = I;

    ghost gives = { λ w. O.gives w.operator };

    fn of(&self, a: Beside<I, I::Wide>, b: I) -> Result<I, CellFault> {
        Ok(self.operator.at(a.number, b.widen()))
    }
}

/// `+`
#[derive(Clone, Copy)]
pub struct Sum;

impl<I: Integer> WideOperator<I> for Sum {
    ghost gives = { λ _. binary_cell binary.Add };

    fn at(&self, a: I::Wide, b: I::Wide) -> I {
        sum(a, b)
    }
}

/// `-`
#[derive(Clone, Copy)]
pub struct Difference;

impl<I: Integer> WideOperator<I> for Difference {
    ghost gives = { λ _. binary_cell binary.Sub };

    fn at(&self, a: I::Wide, b: I::Wide) -> I {
        difference(a, b)
    }
}

/// `.*`
#[derive(Clone, Copy)]
pub struct Product;

impl<I: Integer> WideOperator<I> for Product {
    ghost gives = { λ _. binary_cell binary.Mul };

    fn at(&self, a: I::Wide, b: I::Wide) -> I {
        product(a, b)
    }
}

/// `./`
#[derive(Clone, Copy)]
pub struct Quotient;

impl<I: Integer> PairOperator<I, I> for Quotient {
    type Out = I;

    ghost gives = { λ _. binary_cell binary.Div };

    fn of(&self, a: I, b: I) -> Result<I, CellFault> {
        Ok(div_round(a, b))
    }
}

/// `mod`
#[derive(Clone, Copy)]
pub struct Remainder;

impl<I: Integer> PairOperator<I, I> for Remainder {
    type Out = I;

    ghost gives = { λ _. binary_cell binary.Modulo };

    fn of(&self, a: I, b: I) -> Result<I, CellFault> {
        Ok(modulo(a, b))
    }
}

/// `idivide`
#[derive(Clone, Copy)]
pub struct RoundedQuotient {
    pub how: Rounding,
}

impl<I: Integer> PairOperator<I, I> for RoundedQuotient {
    type Out = I;

    ghost gives = { λ o. binary_cell (binary.Idivide o.how) };

    fn of(&self, a: I, b: I) -> Result<I, CellFault> {
        Ok(idivide(a, b, self.how))
    }
}

/// The value of a class that a number becomes; 0 for NaN.
pub fn nearest<I: Integer>(n: Option<i128>) -> I
    ensures { I.number result ≡ converted I.KIND n }
{
    match n {
        Some(n) => clamp(n),
        None => clamp(0),
    }
}

/// An arithmetic operator of a value and a double; 0 with NaN.
fn with_double<I: Integer>(op: Arith, a: I, b: Whole) -> I
    ensures { I.number result ≡ in_class I.KIND op (Some (I.number a)) b }
{
    match b.get() {
        Some(n) => mixed(op, a.wide(), n as i128),
        None => clamp(0),
    }
}

/// An arithmetic operator of a double and a value; 0 with NaN.
fn of_double<I: Integer>(op: Arith, a: Whole, b: I) -> I
    ensures { I.number result ≡ in_class I.KIND op a (Some (I.number b)) }
{
    match a.get() {
        Some(n) => mixed(op, n as i128, b.wide()),
        None => clamp(0),
    }
}

/// An arithmetic operator of a value and a double, which need not be a number of the class; with NaN it gives 0.
#[derive(Clone, Copy)]
pub struct WithDouble {
    pub op: Arith,
}

impl<I: Integer> PairOperator<I, Whole> for WithDouble {
    type Out = I;

    ghost gives = { λ o. arithmetic o.op };

    fn of(&self, a: I, b: Whole) -> Result<I, CellFault> {
        Ok(with_double(self.op, a, b))
    }
}

/// An arithmetic operator of a double and a value.
#[derive(Clone, Copy)]
pub struct OfDouble {
    pub op: Arith,
}

impl<I: Integer> PairOperator<Whole, I> for OfDouble {
    type Out = I;

    ghost gives = { λ o. arithmetic o.op };

    fn of(&self, a: Whole, b: I) -> Result<I, CellFault> {
        Ok(of_double(self.op, a, b))
    }
}

/// `bitand`
#[derive(Clone, Copy)]
pub struct BitAnd;

impl<I: Integer> PairOperator<I, I> for BitAnd {
    type Out = I;

    ghost gives = { λ _. binary_cell binary.BitAnd };

    fn of(&self, a: I, b: I) -> Result<I, CellFault> {
        Ok(bit_and(same(a), same(b)))
    }
}

/// `bitor`
#[derive(Clone, Copy)]
pub struct BitOr;

impl<I: Integer> PairOperator<I, I> for BitOr {
    type Out = I;

    ghost gives = { λ _. binary_cell binary.BitOr };

    fn of(&self, a: I, b: I) -> Result<I, CellFault> {
        Ok(bit_or(same(a), same(b)))
    }
}

/// `bitxor`
#[derive(Clone, Copy)]
pub struct BitXor;

impl<I: Integer> PairOperator<I, I> for BitXor {
    type Out = I;

    ghost gives = { λ _. binary_cell binary.BitXor };

    fn of(&self, a: I, b: I) -> Result<I, CellFault> {
        Ok(bit_xor(same(a), same(b)))
    }
}

/// `-x`
pub struct Opposite;

impl<I: Integer> RowOperator<I> for Opposite {
    type Out = I;

    ghost gives = { λ _. unary_cell unary.Neg };

    fn of(&self, a: I) -> Result<I, CellFault> {
        Ok(neg(a))
    }
}

/// `+x`
pub struct Itself;

impl<I: Integer> RowOperator<I> for Itself {
    type Out = I;

    ghost gives = { λ _. unary_cell unary.Plus };

    fn of(&self, a: I) -> Result<I, CellFault> {
        Ok(same(a))
    }
}

/// `abs(x)`
pub struct Magnitude;

impl<I: Integer> RowOperator<I> for Magnitude {
    type Out = I;

    ghost gives = { λ _. unary_cell unary.Abs };

    fn of(&self, a: I) -> Result<I, CellFault> {
        Ok(abs(a))
    }
}

/// `int8(x)` and its kin.
pub struct To<I> {
    pub class: PhantomData<I>,
}

impl<I: Integer, T: Operand> RowOperator<T> for To<I> {
    type Out = I;

    ghost gives = { λ _. to_integer I.KIND };

    fn of(&self, a: T) -> Result<I, CellFault> {
        Ok(nearest(a.amount()))
    }
}
