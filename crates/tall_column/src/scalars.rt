//! Operators on a column and a scalar, by the scalar's class.
ghost use Rattle.std.specs.Prelude.{◌≡◌, map, option_map};
ghost use Rattle.tall_value.specs.declared.class.IntKind.{IntKind};
ghost use Rattle.tall_value.specs.Cells.{double, logical, seen, whole};
ghost use Rattle.tall_value.specs.Columns.{numbered};
ghost use Rattle.tall_value.specs.Elementwise.{scalar_rows};
ghost use Rattle.tall_dense.specs.Dense.{shown};
ghost use Rattle.tall_dense.specs.Ranges.{in_range};
ghost use Rattle.tall_column.specs.Mapped.{AnswersIfMade};
ghost use Rattle.tall_column.specs.Scalars.{is_bits, number_beside};

use crate::beside::{
    compare_with_integer, double_beside, integer_beside, mixed_beside, wide_beside,
};
use crate::counted::counted_beside;
use std::alloc::Global;
use std::marker::PhantomData;
use tall_dense::{Beside, Integer, OpFault, Operand, Values, Wide};
use tall_int::Whole;
use tall_operators::doubles::Doubling;
use tall_operators::integers::nearest;
use tall_value::{Binary, Cell, Content, IntKind};

/// The value of a number; none exactly outside the class.
fn value_of<I: Integer>(n: i128) -> Option<I>
    ensures { option_map I.number result ≡ in_range I.MIN I.MAX n }
{
    if I::MIN <= n && n <= I::MAX {
        Some(I::from_wide(n))
    } else {
        None
    }
}

/// The number that a scalar counts as beside an integer class, also outside it; none for a number of another integer
/// class, for NaN and for a text.
fn number_beside(kind: IntKind, scalar: &Cell<'_>) -> Option<i128>
    ensures { result ≡ number_beside kind (seen scalar.now) }
{
    match scalar.content() {
        Content::Whole(other, n) if other.is_same(kind) => Some(n),
        Content::Logical(b) => Some(if b { 1 } else { 0 }),
        Content::Double(d) => d.amount(),
        _ => None,
    }
}

/// The operator on a column of an integer class and a number outside the class; none where no loop does it.
fn integer_with_outside<I: Integer>(
    alloc: Global,
    op: Binary,
    items: &[I],
    n: i128,
    scalar_left: bool,
) -> Result<Option<Values>, OpFault>
    ensures { AnswersIfMade (scalar_rows op scalar_left (whole I.KIND n) (numbered 0 (map (λ x. whole I.KIND (I.number x)) items.now))) result }
{
    match I::Wide::of(n) {
        Some(number) => wide_beside(
            alloc,
            op,
            items,
            Beside {
                number,
                class: PhantomData,
            },
            scalar_left,
        ),
        None => Ok(None),
    }
}

/// The operator on a column of an integer class and a number; none where no loop does it.
fn integer_with_number<I: Integer>(
    alloc: Global,
    op: Binary,
    items: &[I],
    n: i128,
    scalar_left: bool,
) -> Result<Option<Values>, OpFault>
    ensures { AnswersIfMade (scalar_rows op scalar_left (whole I.KIND n) (numbered 0 (map (λ x. whole I.KIND (I.number x)) items.now))) result }
{
    match value_of(n) {
        Some(value) => integer_beside(alloc, op, items, value, scalar_left),
        None => integer_with_outside(alloc, op, items, n, scalar_left),
    }
}

/// The operator on a column of an integer class and a scalar that counts as a number of its wide type; none where no loop
/// does it.
fn integer_near<I: Integer>(
    alloc: Global,
    op: Binary,
    items: &[I],
    scalar: &Cell<'_>,
    scalar_left: bool,
) -> Result<Option<Values>, OpFault>
    ensures { AnswersIfMade (scalar_rows op scalar_left (seen scalar.now) (numbered 0 (map (λ x. whole I.KIND (I.number x)) items.now))) result }
{
    match number_beside(I::KIND, scalar) {
        Some(n) => integer_with_number(alloc, op, items, n, scalar_left),
        None => Ok(None),
    }
}

/// `bitand`, `bitor` or `bitxor`.
fn is_bits(op: Binary) -> bool
    ensures { result ≡ is_bits op }
{
    matches!(op, Binary::BitAnd | Binary::BitOr | Binary::BitXor)
}

/// The operator on a column of an integer class and a double, also NaN or a number outside the class; none where no loop
/// does it.
fn integer_with_double<I: Integer>(
    alloc: Global,
    op: Binary,
    items: &[I],
    scalar: Whole,
    scalar_left: bool,
) -> Result<Option<Values>, OpFault>
    ensures { AnswersIfMade (scalar_rows op scalar_left (double scalar) (numbered 0 (map (λ x. whole I.KIND (I.number x)) items.now))) result }
{
    if is_bits(op) {
        let value = nearest(scalar.amount());
        integer_beside(alloc, op, items, value, scalar_left)
    } else {
        mixed_beside(alloc, op, items, scalar, scalar_left)
    }
}

/// The operator on a column of an integer class and a scalar that counts as no number of its wide type; none where no loop
/// does it.
fn integer_far<I: Integer>(
    alloc: Global,
    op: Binary,
    items: &[I],
    scalar: &Cell<'_>,
    scalar_left: bool,
) -> Result<Option<Values>, OpFault>
    ensures { AnswersIfMade (scalar_rows op scalar_left (seen scalar.now) (numbered 0 (map (λ x. whole I.KIND (I.number x)) items.now))) result }
{
    match *scalar {
        Cell::Double(d) => integer_with_double(alloc, op, items, d, scalar_left),
        _ => compare_with_integer(alloc, op, items, scalar, scalar_left),
    }
}

/// The operator on a column of an integer class and a scalar; none where no loop does it.
fn integer_with_scalar<I: Integer>(
    alloc: Global,
    op: Binary,
    items: &[I],
    scalar: &Cell<'_>,
    scalar_left: bool,
) -> Result<Option<Values>, OpFault>
    ensures { AnswersIfMade (scalar_rows op scalar_left (seen scalar.now) (numbered 0 (map (λ x. whole I.KIND (I.number x)) items.now))) result }
{
    match integer_near(alloc, op, items, scalar, scalar_left)? {
        Some(values) => Ok(Some(values)),
        None => integer_far(alloc, op, items, scalar, scalar_left),
    }
}

/// The operator on a column of doubles or logicals and a scalar; none where no loop does it.
fn double_with_scalar<T: Doubling>(
    alloc: Global,
    op: Binary,
    items: &[T],
    scalar: &Cell<'_>,
    scalar_left: bool,
) -> Result<Option<Values>, OpFault>
    ensures { AnswersIfMade (scalar_rows op scalar_left (seen scalar.now) (numbered 0 (map T.shown items.now))) result }
{
    match *scalar {
        Cell::Logical(b) => double_beside(alloc, op, items, b, scalar_left),
        Cell::Double(d) => double_beside(alloc, op, items, d, scalar_left),
        _ => compare_with_integer(alloc, op, items, scalar, scalar_left),
    }
}

/// The operator on a logical column and a scalar; none where no loop does it.
fn logical_with_scalar(
    alloc: Global,
    op: Binary,
    items: &[bool],
    scalar: &Cell<'_>,
    scalar_left: bool,
) -> Result<Option<Values>, OpFault>
    ensures { AnswersIfMade (scalar_rows op scalar_left (seen scalar.now) (numbered 0 (map (λ m. logical m) items.now))) result }
{
    match *scalar {
        Cell::I8(n) => counted_beside(alloc, op, items, n, scalar_left),
        Cell::I16(n) => counted_beside(alloc, op, items, n, scalar_left),
        Cell::I32(n) => counted_beside(alloc, op, items, n, scalar_left),
        Cell::I64(n) => counted_beside(alloc, op, items, n, scalar_left),
        Cell::U8(n) => counted_beside(alloc, op, items, n, scalar_left),
        Cell::U16(n) => counted_beside(alloc, op, items, n, scalar_left),
        Cell::U32(n) => counted_beside(alloc, op, items, n, scalar_left),
        Cell::U64(n) => counted_beside(alloc, op, items, n, scalar_left),
        _ => double_with_scalar(alloc, op, items, scalar, scalar_left),
    }
}

/// The operator on a column and a scalar; none where no loop does it.
pub(crate) fn column_beside(
    alloc: Global,
    op: Binary,
    a: &Values,
    scalar: &Cell<'_>,
    scalar_left: bool,
) -> Result<Option<Values>, OpFault>
    ensures { AnswersIfMade (scalar_rows op scalar_left (seen scalar.now) (numbered 0 (shown a.now).cells)) result }
{
    match a {
        Values::I8(a) => integer_with_scalar(alloc, op, a.as_slice(), scalar, scalar_left),
        Values::I16(a) => integer_with_scalar(alloc, op, a.as_slice(), scalar, scalar_left),
        Values::I32(a) => integer_with_scalar(alloc, op, a.as_slice(), scalar, scalar_left),
        Values::I64(a) => integer_with_scalar(alloc, op, a.as_slice(), scalar, scalar_left),
        Values::U8(a) => integer_with_scalar(alloc, op, a.as_slice(), scalar, scalar_left),
        Values::U16(a) => integer_with_scalar(alloc, op, a.as_slice(), scalar, scalar_left),
        Values::U32(a) => integer_with_scalar(alloc, op, a.as_slice(), scalar, scalar_left),
        Values::U64(a) => integer_with_scalar(alloc, op, a.as_slice(), scalar, scalar_left),
        Values::Logical(a) => logical_with_scalar(alloc, op, a.as_slice(), scalar, scalar_left),
        Values::Double(a) => double_with_scalar(alloc, op, a.as_slice(), scalar, scalar_left),
        Values::Text(_) => Ok(None),
    }
}
