//! Operators on a column of one class and a scalar, each in a loop over the values: the operator and the class are looked
//! at before it.
ghost use Rattle.std.specs.Prelude.{◌≡◌, false, map, true};
ghost use Rattle.tall_value.specs.Cells.{double, seen, whole};
ghost use Rattle.tall_value.specs.CellOperators.{arithmetic};
ghost use Rattle.tall_value.specs.Columns.{numbered};
ghost use Rattle.tall_value.specs.Elementwise.{each_row, scalar_rows};
ghost use Rattle.tall_column.specs.Mapped.{AnswersIfMade, with_scalar};

use crate::binaries::made;
use std::alloc::Global;
use tall_dense::{
    Beside, Integer, Number, OpFault, Operand, PairOperator, Stored, Values, Wide, before, behind,
};
use tall_int::{Arith, Whole};
use tall_operators::comparisons::{AtLeast, AtMost, Different, Equal, Greater, Less};
use tall_operators::doubles::Doubling;
use tall_operators::integers::{OfDouble, WideOperator, WithDouble, widely};
use tall_operators::logicals::{And, Or};
use tall_operators::{doubles, integers};
use tall_value::{Binary, Cell, Content, IntKind};

/// The column of the operator at a scalar and each row.
fn values_before<S: Operand, T: Stored, O: PairOperator<S, T>>(
    alloc: Global,
    operator: O,
    scalar: S,
    items: &[T],
) -> Result<Option<Values>, OpFault>
    ensures { AnswersIfMade (each_row (λ c. O.gives operator (S.shown scalar) c) (numbered 0 (map T.shown items.now))) result }
{
    made(before(alloc, operator, scalar, items))
}

/// The column of the operator at each row and a scalar.
fn values_behind<T: Stored, S: Operand, O: PairOperator<T, S>>(
    alloc: Global,
    operator: O,
    items: &[T],
    scalar: S,
) -> Result<Option<Values>, OpFault>
    ensures { AnswersIfMade (each_row (λ c. O.gives operator c (S.shown scalar)) (numbered 0 (map T.shown items.now))) result }
{
    made(behind(alloc, operator, items, scalar))
}

/// The column of the operator at each row and a scalar of the class.
fn values_beside<T: Stored, O: PairOperator<T, T>>(
    alloc: Global,
    operator: O,
    items: &[T],
    scalar: T,
    scalar_left: bool,
) -> Result<Option<Values>, OpFault>
    ensures { AnswersIfMade (each_row (with_scalar (O.gives operator) scalar_left (T.shown scalar)) (numbered 0 (map T.shown items.now))) result }
{
    if scalar_left {
        values_before(alloc, operator, scalar, items)
    } else {
        values_behind(alloc, operator, items, scalar)
    }
}

/// A comparison, `&` or `|` of a scalar and a column; none for another operator.
fn compare_before<S: Operand, T: Stored>(
    alloc: Global,
    op: Binary,
    scalar: S,
    items: &[T],
) -> Result<Option<Values>, OpFault>
    ensures { AnswersIfMade (scalar_rows op true (S.shown scalar) (numbered 0 (map T.shown items.now))) result }
{
    match op {
        Binary::Eq => values_before(alloc, Equal, scalar, items),
        Binary::Ne => values_before(alloc, Different, scalar, items),
        Binary::Lt => values_before(alloc, Less, scalar, items),
        Binary::Le => values_before(alloc, AtMost, scalar, items),
        Binary::Gt => values_before(alloc, Greater, scalar, items),
        Binary::Ge => values_before(alloc, AtLeast, scalar, items),
        Binary::And => values_before(alloc, And, scalar, items),
        Binary::Or => values_before(alloc, Or, scalar, items),
        _ => Ok(None),
    }
}

/// A comparison, `&` or `|` of a column and a scalar; none for another operator.
fn compare_behind<T: Stored, S: Operand>(
    alloc: Global,
    op: Binary,
    items: &[T],
    scalar: S,
) -> Result<Option<Values>, OpFault>
    ensures { AnswersIfMade (scalar_rows op false (S.shown scalar) (numbered 0 (map T.shown items.now))) result }
{
    match op {
        Binary::Eq => values_behind(alloc, Equal, items, scalar),
        Binary::Ne => values_behind(alloc, Different, items, scalar),
        Binary::Lt => values_behind(alloc, Less, items, scalar),
        Binary::Le => values_behind(alloc, AtMost, items, scalar),
        Binary::Gt => values_behind(alloc, Greater, items, scalar),
        Binary::Ge => values_behind(alloc, AtLeast, items, scalar),
        Binary::And => values_behind(alloc, And, items, scalar),
        Binary::Or => values_behind(alloc, Or, items, scalar),
        _ => Ok(None),
    }
}

/// A comparison, `&` or `|` of a column with a scalar, of its class or of another; none for another operator.
pub(crate) fn compare_beside<T: Stored, S: Operand>(
    alloc: Global,
    op: Binary,
    items: &[T],
    scalar: S,
    scalar_left: bool,
) -> Result<Option<Values>, OpFault>
    ensures { AnswersIfMade (scalar_rows op scalar_left (S.shown scalar) (numbered 0 (map T.shown items.now))) result }
{
    if scalar_left {
        compare_before(alloc, op, scalar, items)
    } else {
        compare_behind(alloc, op, items, scalar)
    }
}

/// The operator on a column of an integer class and a scalar of the class; none where no loop does it.
pub(crate) fn integer_beside<I: Integer>(
    alloc: Global,
    op: Binary,
    items: &[I],
    scalar: I,
    scalar_left: bool,
) -> Result<Option<Values>, OpFault>
    ensures { AnswersIfMade (scalar_rows op scalar_left (whole I.KIND (I.number scalar)) (numbered 0 (map (λ x. whole I.KIND (I.number x)) items.now))) result }
{
    match op {
        Binary::Add => values_beside(alloc, widely(integers::Sum), items, scalar, scalar_left),
        Binary::Sub => values_beside(
            alloc,
            widely(integers::Difference),
            items,
            scalar,
            scalar_left,
        ),
        Binary::Mul => values_beside(alloc, widely(integers::Product), items, scalar, scalar_left),
        Binary::Div => values_beside(alloc, integers::Quotient, items, scalar, scalar_left),
        Binary::Modulo => values_beside(alloc, integers::Remainder, items, scalar, scalar_left),
        Binary::Idivide(how) => values_beside(
            alloc,
            integers::RoundedQuotient { how },
            items,
            scalar,
            scalar_left,
        ),
        Binary::BitAnd => values_beside(alloc, integers::BitAnd, items, scalar, scalar_left),
        Binary::BitOr => values_beside(alloc, integers::BitOr, items, scalar, scalar_left),
        Binary::BitXor => values_beside(alloc, integers::BitXor, items, scalar, scalar_left),
        _ => compare_beside(alloc, op, items, scalar, scalar_left),
    }
}

/// The column of an operator in the wide type of an integer class, at each row and a number.
fn wide_values<I: Integer, O: WideOperator<I>>(
    alloc: Global,
    operator: O,
    items: &[I],
    number: Beside<I, I::Wide>,
    scalar_left: bool,
) -> Result<Option<Values>, OpFault>
    ensures { AnswersIfMade (each_row (with_scalar (O.gives operator) scalar_left (whole I.KIND (I.Wide.value number.number))) (numbered 0 (map (λ x. whole I.KIND (I.number x)) items.now))) result }
{
    if scalar_left {
        values_before(alloc, widely(operator), number, items)
    } else {
        values_behind(alloc, widely(operator), items, number)
    }
}

/// The operator on a column of an integer class and a number that its wide type has; none where no loop does it.
pub(crate) fn wide_beside<I: Integer>(
    alloc: Global,
    op: Binary,
    items: &[I],
    number: Beside<I, I::Wide>,
    scalar_left: bool,
) -> Result<Option<Values>, OpFault>
    ensures { AnswersIfMade (scalar_rows op scalar_left (whole I.KIND (I.Wide.value number.number)) (numbered 0 (map (λ x. whole I.KIND (I.number x)) items.now))) result }
{
    match op {
        Binary::Add => wide_values(alloc, integers::Sum, items, number, scalar_left),
        Binary::Sub => wide_values(alloc, integers::Difference, items, number, scalar_left),
        Binary::Mul => wide_values(alloc, integers::Product, items, number, scalar_left),
        _ => compare_beside(alloc, op, items, number, scalar_left),
    }
}

/// The operator on a double or logical scalar and a column of doubles or logicals; none where no loop does it.
fn double_before<S: Doubling, T: Doubling>(
    alloc: Global,
    op: Binary,
    scalar: S,
    items: &[T],
) -> Result<Option<Values>, OpFault>
    ensures { AnswersIfMade (scalar_rows op true (S.shown scalar) (numbered 0 (map T.shown items.now))) result }
{
    match op {
        Binary::Add => values_before(alloc, doubles::Sum, scalar, items),
        Binary::Sub => values_before(alloc, doubles::Difference, scalar, items),
        Binary::Mul => values_before(alloc, doubles::Product, scalar, items),
        Binary::Div => values_before(alloc, doubles::Quotient, scalar, items),
        Binary::Modulo => values_before(alloc, doubles::Remainder, scalar, items),
        _ => compare_before(alloc, op, scalar, items),
    }
}

/// The operator on a column of doubles or logicals and a double or logical scalar; none where no loop does it.
fn double_behind<T: Doubling, S: Doubling>(
    alloc: Global,
    op: Binary,
    items: &[T],
    scalar: S,
) -> Result<Option<Values>, OpFault>
    ensures { AnswersIfMade (scalar_rows op false (S.shown scalar) (numbered 0 (map T.shown items.now))) result }
{
    match op {
        Binary::Add => values_behind(alloc, doubles::Sum, items, scalar),
        Binary::Sub => values_behind(alloc, doubles::Difference, items, scalar),
        Binary::Mul => values_behind(alloc, doubles::Product, items, scalar),
        Binary::Div => values_behind(alloc, doubles::Quotient, items, scalar),
        Binary::Modulo => values_behind(alloc, doubles::Remainder, items, scalar),
        _ => compare_behind(alloc, op, items, scalar),
    }
}

/// The operator on a column of doubles or logicals and a double or logical scalar; none where no loop does it.
pub(crate) fn double_beside<T: Doubling, S: Doubling>(
    alloc: Global,
    op: Binary,
    items: &[T],
    scalar: S,
    scalar_left: bool,
) -> Result<Option<Values>, OpFault>
    ensures { AnswersIfMade (scalar_rows op scalar_left (S.shown scalar) (numbered 0 (map T.shown items.now))) result }
{
    if scalar_left {
        double_before(alloc, op, scalar, items)
    } else {
        double_behind(alloc, op, items, scalar)
    }
}

/// The column of an arithmetic operator of an integer class at each row and a double.
fn mixed_values<I: Integer>(
    alloc: Global,
    op: Arith,
    items: &[I],
    scalar: Whole,
    scalar_left: bool,
) -> Result<Option<Values>, OpFault>
    ensures { AnswersIfMade (each_row (with_scalar (arithmetic op) scalar_left (double scalar)) (numbered 0 (map (λ x. whole I.KIND (I.number x)) items.now))) result }
{
    if scalar_left {
        values_before(alloc, OfDouble { op }, scalar, items)
    } else {
        values_behind(alloc, WithDouble { op }, items, scalar)
    }
}

/// The operator on a column of an integer class and a double, also NaN or a number outside the class; none where no loop
/// does it.
pub(crate) fn mixed_beside<I: Integer>(
    alloc: Global,
    op: Binary,
    items: &[I],
    scalar: Whole,
    scalar_left: bool,
) -> Result<Option<Values>, OpFault>
    ensures { AnswersIfMade (scalar_rows op scalar_left (double scalar) (numbered 0 (map (λ x. whole I.KIND (I.number x)) items.now))) result }
{
    match op {
        Binary::Add => mixed_values(alloc, Arith::Add, items, scalar, scalar_left),
        Binary::Sub => mixed_values(alloc, Arith::Sub, items, scalar, scalar_left),
        Binary::Mul => mixed_values(alloc, Arith::Mul, items, scalar, scalar_left),
        Binary::Div => mixed_values(alloc, Arith::Div, items, scalar, scalar_left),
        Binary::Modulo => mixed_values(alloc, Arith::Modulo, items, scalar, scalar_left),
        Binary::Idivide(how) => {
            mixed_values(alloc, Arith::Idivide(how), items, scalar, scalar_left)
        }
        _ => compare_beside(alloc, op, items, scalar, scalar_left),
    }
}

/// A comparison, `&` or `|` of a column and a number of an integer class that 64 bits don't hold with a sign; none for
/// another operator.
fn compare_with_large<T: Stored>(
    alloc: Global,
    op: Binary,
    items: &[T],
    kind: IntKind,
    n: i128,
    scalar_left: bool,
) -> Result<Option<Values>, OpFault>
    ensures { AnswersIfMade (scalar_rows op scalar_left (whole kind n) (numbered 0 (map T.shown items.now))) result }
{
    match u64::of(n) {
        Some(number) => compare_beside(alloc, op, items, Number { kind, number }, scalar_left),
        None => Ok(None),
    }
}

/// A comparison, `&` or `|` of a column and a number of an integer class; none for another operator.
fn compare_with_number<T: Stored>(
    alloc: Global,
    op: Binary,
    items: &[T],
    kind: IntKind,
    n: i128,
    scalar_left: bool,
) -> Result<Option<Values>, OpFault>
    ensures { AnswersIfMade (scalar_rows op scalar_left (whole kind n) (numbered 0 (map T.shown items.now))) result }
{
    match i64::of(n) {
        Some(number) => compare_beside(alloc, op, items, Number { kind, number }, scalar_left),
        None => compare_with_large(alloc, op, items, kind, n, scalar_left),
    }
}

/// A comparison, `&` or `|` of a column and a scalar of an integer class; none for another operator or scalar.
pub(crate) fn compare_with_integer<T: Stored>(
    alloc: Global,
    op: Binary,
    items: &[T],
    scalar: &Cell<'_>,
    scalar_left: bool,
) -> Result<Option<Values>, OpFault>
    ensures { AnswersIfMade (scalar_rows op scalar_left (seen scalar.now) (numbered 0 (map T.shown items.now))) result }
{
    match scalar.content() {
        Content::Whole(kind, n) => compare_with_number(alloc, op, items, kind, n, scalar_left),
        _ => Ok(None),
    }
}
