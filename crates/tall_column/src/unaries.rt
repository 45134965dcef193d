//! Operators of one operand on columns of one class, each in a loop over the values.
ghost use Rattle.std.specs.Prelude.{IsOk, map};
ghost use Rattle.tall_value.specs.Cells.{whole};
ghost use Rattle.tall_value.specs.CellOperators.{to_integer};
ghost use Rattle.tall_value.specs.Columns.{numbered};
ghost use Rattle.tall_value.specs.Elementwise.{each_row, unary_rows};
ghost use Rattle.tall_dense.specs.Dense.{shown};
ghost use Rattle.tall_dense.specs.Rows.{Answers};
ghost use Rattle.tall_value.specs.ClassTables.{unary_class};
ghost use Rattle.tall_column.specs.Mapped.{IsConversion};

use crate::binaries::values_of;
use std::alloc::Global;
use std::marker::PhantomData;
use tall_dense::{Integer, OpFault, RowOperator, Stored, Values, each};
use tall_operators::doubles::Doubling;
use tall_operators::integers::To;
use tall_operators::logicals::{IsNan, Not, ToLogical};
use tall_operators::{doubles, integers};
use tall_value::Unary;

/// The column of the operator at each row.
fn each_value<T: Stored, F: RowOperator<T>>(
    alloc: Global,
    operator: &F,
    items: &[T],
) -> Result<Values, OpFault>
    ensures { Answers (each_row (F.gives operator.now) (numbered 0 (map T.shown items.now))) (λ v. (shown v).cells) result }
{
    values_of(each(alloc, operator, items))
}

/// The column of an integer class.
fn conversion<I: Integer, T: Stored>(alloc: Global, items: &[T]) -> Result<Values, OpFault>
    ensures { Answers (each_row (to_integer I.KIND) (numbered 0 (map T.shown items.now))) (λ v. (shown v).cells) result }
{
    each_value(alloc, &To::<I> { class: PhantomData }, items)
}

/// The conversion to another class, `~` and `isnan`.
fn converted<T: Stored>(alloc: Global, op: Unary, items: &[T]) -> Result<Values, OpFault>
    requires { IsConversion op }
    ensures { Answers (unary_rows op (numbered 0 (map T.shown items.now))) (λ v. (shown v).cells) result }
{
    match op {
        Unary::ToInt8 => conversion::<i8, T>(alloc, items),
        Unary::ToInt16 => conversion::<i16, T>(alloc, items),
        Unary::ToInt32 => conversion::<i32, T>(alloc, items),
        Unary::ToInt64 => conversion::<i64, T>(alloc, items),
        Unary::ToUint8 => conversion::<u8, T>(alloc, items),
        Unary::ToUint16 => conversion::<u16, T>(alloc, items),
        Unary::ToUint32 => conversion::<u32, T>(alloc, items),
        Unary::ToUint64 => conversion::<u64, T>(alloc, items),
        Unary::ToDouble => each_value(alloc, &doubles::ToDouble, items),
        Unary::ToLogical => each_value(alloc, &ToLogical, items),
        Unary::Not => each_value(alloc, &Not, items),
        Unary::IsNan => each_value(alloc, &IsNan, items),
        _ => unreachable!(),
    }
}

/// The operators of a column of an integer class.
fn each_integer<I: Integer>(alloc: Global, op: Unary, items: &[I]) -> Result<Values, OpFault>
    ensures { Answers (unary_rows op (numbered 0 (map (λ x. whole I.KIND (I.number x)) items.now))) (λ v. (shown v).cells) result }
{
    match op {
        Unary::Neg => each_value(alloc, &integers::Opposite, items),
        Unary::Plus => each_value(alloc, &integers::Itself, items),
        Unary::Abs => each_value(alloc, &integers::Magnitude, items),
        _ => converted(alloc, op, items),
    }
}

/// The operators of a column of doubles, or of logicals, whose signs are doubles.
fn each_double<T: Doubling>(alloc: Global, op: Unary, items: &[T]) -> Result<Values, OpFault>
    ensures { Answers (unary_rows op (numbered 0 (map T.shown items.now))) (λ v. (shown v).cells) result }
{
    match op {
        Unary::Neg => each_value(alloc, &doubles::Opposite, items),
        Unary::Plus => each_value(alloc, &doubles::Itself, items),
        Unary::Abs => each_value(alloc, &doubles::Magnitude, items),
        _ => converted(alloc, op, items),
    }
}

/// The operator on a column whose class it takes.
pub(crate) fn column_each(alloc: Global, op: Unary, a: &Values) -> Result<Values, OpFault>
    requires { IsOk (unary_class op (shown a.now).class) }
    ensures { Answers (unary_rows op (numbered 0 (shown a.now).cells)) (λ v. (shown v).cells) result }
{
    match a {
        Values::I8(a) => each_integer(alloc, op, a.as_slice()),
        Values::I16(a) => each_integer(alloc, op, a.as_slice()),
        Values::I32(a) => each_integer(alloc, op, a.as_slice()),
        Values::I64(a) => each_integer(alloc, op, a.as_slice()),
        Values::U8(a) => each_integer(alloc, op, a.as_slice()),
        Values::U16(a) => each_integer(alloc, op, a.as_slice()),
        Values::U32(a) => each_integer(alloc, op, a.as_slice()),
        Values::U64(a) => each_integer(alloc, op, a.as_slice()),
        Values::Logical(a) => each_double(alloc, op, a.as_slice()),
        Values::Double(a) => each_double(alloc, op, a.as_slice()),
        Values::Text(_) => unreachable!(),
    }
}
