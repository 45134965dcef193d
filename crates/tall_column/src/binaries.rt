//! Operators of two operands on columns of one class, each in a loop over the values: the operator and the class are
//! looked at before it.
ghost use Rattle.std.specs.Prelude.{◌≡◌, length, map};
ghost use Rattle.tall_value.specs.Cells.{double, logical, whole};
ghost use Rattle.tall_value.specs.Columns.{numbered};
ghost use Rattle.tall_value.specs.Elementwise.{binary_rows, each_pair};
ghost use Rattle.tall_dense.specs.Dense.{shown};
ghost use Rattle.tall_dense.specs.Rows.{Answers};
ghost use Rattle.tall_column.specs.Mapped.{AnswersIfMade};

use crate::counted::{counted_before, counted_behind};
use std::alloc::Global;
use tall_dense::{Integer, OpFault, PairOperator, Stored, Values, pairs};
use tall_int::Whole;
use tall_operators::comparisons::{AtLeast, AtMost, Different, Equal, Greater, Less};
use tall_operators::doubles::Doubling;
use tall_operators::integers::widely;
use tall_operators::logicals::{And, Or};
use tall_operators::{doubles, integers};
use tall_value::Binary;

/// The values of a column.
pub(crate) fn values_of<T: Stored>(computed: Result<Vec<T>, OpFault>) -> Result<Values, OpFault>
    ensures { (rows : _) → Answers rows (λ v. map T.shown v.items) computed → Answers rows (λ v. (shown v).cells) result }
{
    match computed {
        Ok(items) => Ok(T::values(items)),
        Err(fault) => Err(fault),
    }
}

/// The values of a column.
pub(crate) fn made<T: Stored>(computed: Result<Vec<T>, OpFault>) -> Result<Option<Values>, OpFault>
    ensures { (rows : _) → Answers rows (λ v. map T.shown v.items) computed → AnswersIfMade rows result }
{
    match computed {
        Ok(items) => Ok(Some(T::values(items))),
        Err(fault) => Err(fault),
    }
}

/// The column of the operator at each row of two slices of one length.
fn pair_values<A: Stored, B: Stored, O: PairOperator<A, B>>(
    alloc: Global,
    operator: O,
    a: &[A],
    b: &[B],
) -> Result<Option<Values>, OpFault>
    requires { length (map B.shown b.now) ≡ length (map A.shown a.now) }
    ensures { AnswersIfMade (each_pair (O.gives operator) (numbered 0 (map A.shown a.now)) (numbered 0 (map B.shown b.now))) result }
{
    made(pairs(alloc, &operator, a, b))
}

/// A comparison, `&` or `|` of two columns, of one class or of two; none for another operator.
fn compare_pairs<A: Stored, B: Stored>(
    alloc: Global,
    op: Binary,
    a: &[A],
    b: &[B],
) -> Result<Option<Values>, OpFault>
    requires { length (map B.shown b.now) ≡ length (map A.shown a.now) }
    ensures { AnswersIfMade (binary_rows op (numbered 0 (map A.shown a.now)) (numbered 0 (map B.shown b.now))) result }
{
    match op {
        Binary::Eq => pair_values(alloc, Equal, a, b),
        Binary::Ne => pair_values(alloc, Different, a, b),
        Binary::Lt => pair_values(alloc, Less, a, b),
        Binary::Le => pair_values(alloc, AtMost, a, b),
        Binary::Gt => pair_values(alloc, Greater, a, b),
        Binary::Ge => pair_values(alloc, AtLeast, a, b),
        Binary::And => pair_values(alloc, And, a, b),
        Binary::Or => pair_values(alloc, Or, a, b),
        _ => Ok(None),
    }
}

/// The operator on two columns of an integer class; none where no loop does it.
pub(crate) fn integer_pairs<I: Integer>(
    alloc: Global,
    op: Binary,
    a: &[I],
    b: &[I],
) -> Result<Option<Values>, OpFault>
    requires { length (map (λ x. whole I.KIND (I.number x)) b.now) ≡ length (map (λ x. whole I.KIND (I.number x)) a.now) }
    ensures { AnswersIfMade (binary_rows op (numbered 0 (map (λ x. whole I.KIND (I.number x)) a.now)) (numbered 0 (map (λ x. whole I.KIND (I.number x)) b.now))) result }
{
    match op {
        Binary::Add => pair_values(alloc, widely(integers::Sum), a, b),
        Binary::Sub => pair_values(alloc, widely(integers::Difference), a, b),
        Binary::Mul => pair_values(alloc, widely(integers::Product), a, b),
        Binary::Div => pair_values(alloc, integers::Quotient, a, b),
        Binary::Modulo => pair_values(alloc, integers::Remainder, a, b),
        Binary::Idivide(how) => pair_values(alloc, integers::RoundedQuotient { how }, a, b),
        Binary::BitAnd => pair_values(alloc, integers::BitAnd, a, b),
        Binary::BitOr => pair_values(alloc, integers::BitOr, a, b),
        Binary::BitXor => pair_values(alloc, integers::BitXor, a, b),
        _ => compare_pairs(alloc, op, a, b),
    }
}

/// The operator on two columns of doubles or logicals; none where no loop does it.
fn double_pairs<A: Doubling, B: Doubling>(
    alloc: Global,
    op: Binary,
    a: &[A],
    b: &[B],
) -> Result<Option<Values>, OpFault>
    requires { length (map B.shown b.now) ≡ length (map A.shown a.now) }
    ensures { AnswersIfMade (binary_rows op (numbered 0 (map A.shown a.now)) (numbered 0 (map B.shown b.now))) result }
{
    match op {
        Binary::Add => pair_values(alloc, doubles::Sum, a, b),
        Binary::Sub => pair_values(alloc, doubles::Difference, a, b),
        Binary::Mul => pair_values(alloc, doubles::Product, a, b),
        Binary::Div => pair_values(alloc, doubles::Quotient, a, b),
        Binary::Modulo => pair_values(alloc, doubles::Remainder, a, b),
        _ => compare_pairs(alloc, op, a, b),
    }
}

/// A comparison, `&` or `|` of a column of one class and one of any other; none for another operator and for texts.
fn compare_with<A: Stored>(
    alloc: Global,
    op: Binary,
    a: &[A],
    b: &Values,
) -> Result<Option<Values>, OpFault>
    requires { length (shown b.now).cells ≡ length (map A.shown a.now) }
    ensures { AnswersIfMade (binary_rows op (numbered 0 (map A.shown a.now)) (numbered 0 (shown b.now).cells)) result }
{
    match b {
        Values::I8(b) => compare_pairs(alloc, op, a, b.as_slice()),
        Values::I16(b) => compare_pairs(alloc, op, a, b.as_slice()),
        Values::I32(b) => compare_pairs(alloc, op, a, b.as_slice()),
        Values::I64(b) => compare_pairs(alloc, op, a, b.as_slice()),
        Values::U8(b) => compare_pairs(alloc, op, a, b.as_slice()),
        Values::U16(b) => compare_pairs(alloc, op, a, b.as_slice()),
        Values::U32(b) => compare_pairs(alloc, op, a, b.as_slice()),
        Values::U64(b) => compare_pairs(alloc, op, a, b.as_slice()),
        Values::Logical(b) => compare_pairs(alloc, op, a, b.as_slice()),
        Values::Double(b) => compare_pairs(alloc, op, a, b.as_slice()),
        Values::Text(_) => Ok(None),
    }
}

/// The operator on a column of an integer class and one of any class; none where no loop does it.
fn integer_with<I: Integer>(
    alloc: Global,
    op: Binary,
    a: &[I],
    b: &Values,
) -> Result<Option<Values>, OpFault>
    requires { length (shown b.now).cells ≡ length (map (λ x. whole I.KIND (I.number x)) a.now) }
    ensures { AnswersIfMade (binary_rows op (numbered 0 (map (λ x. whole I.KIND (I.number x)) a.now)) (numbered 0 (shown b.now).cells)) result }
{
    match b {
        Values::Logical(b) => counted_behind(alloc, op, a, b.as_slice()),
        _ => compare_with(alloc, op, a, b),
    }
}

/// The operator on a logical column and one of any class; none where no loop does it.
fn logical_with(
    alloc: Global,
    op: Binary,
    a: &[bool],
    b: &Values,
) -> Result<Option<Values>, OpFault>
    requires { length (shown b.now).cells ≡ length (map (λ m. logical m) a.now) }
    ensures { AnswersIfMade (binary_rows op (numbered 0 (map (λ m. logical m) a.now)) (numbered 0 (shown b.now).cells)) result }
{
    match b {
        Values::I8(b) => counted_before(alloc, op, a, b.as_slice()),
        Values::I16(b) => counted_before(alloc, op, a, b.as_slice()),
        Values::I32(b) => counted_before(alloc, op, a, b.as_slice()),
        Values::I64(b) => counted_before(alloc, op, a, b.as_slice()),
        Values::U8(b) => counted_before(alloc, op, a, b.as_slice()),
        Values::U16(b) => counted_before(alloc, op, a, b.as_slice()),
        Values::U32(b) => counted_before(alloc, op, a, b.as_slice()),
        Values::U64(b) => counted_before(alloc, op, a, b.as_slice()),
        Values::Logical(b) => double_pairs(alloc, op, a, b.as_slice()),
        Values::Double(b) => double_pairs(alloc, op, a, b.as_slice()),
        Values::Text(_) => Ok(None),
    }
}

/// The operator on a column of doubles and one of any class; none where no loop does it.
fn double_with(
    alloc: Global,
    op: Binary,
    a: &[Whole],
    b: &Values,
) -> Result<Option<Values>, OpFault>
    requires { length (shown b.now).cells ≡ length (map (λ d. double d) a.now) }
    ensures { AnswersIfMade (binary_rows op (numbered 0 (map (λ d. double d) a.now)) (numbered 0 (shown b.now).cells)) result }
{
    match b {
        Values::Logical(b) => double_pairs(alloc, op, a, b.as_slice()),
        Values::Double(b) => double_pairs(alloc, op, a, b.as_slice()),
        _ => compare_with(alloc, op, a, b),
    }
}

/// The operator on two columns of two classes; none where no loop does it.
fn mixed_pairs(alloc: Global, op: Binary, a: &Values, b: &Values) -> Result<Option<Values>, OpFault>
    requires { length (shown b.now).cells ≡ length (shown a.now).cells }
    ensures { AnswersIfMade (binary_rows op (numbered 0 (shown a.now).cells) (numbered 0 (shown b.now).cells)) result }
{
    match a {
        Values::I8(a) => integer_with(alloc, op, a.as_slice(), b),
        Values::I16(a) => integer_with(alloc, op, a.as_slice(), b),
        Values::I32(a) => integer_with(alloc, op, a.as_slice(), b),
        Values::I64(a) => integer_with(alloc, op, a.as_slice(), b),
        Values::U8(a) => integer_with(alloc, op, a.as_slice(), b),
        Values::U16(a) => integer_with(alloc, op, a.as_slice(), b),
        Values::U32(a) => integer_with(alloc, op, a.as_slice(), b),
        Values::U64(a) => integer_with(alloc, op, a.as_slice(), b),
        Values::Logical(a) => logical_with(alloc, op, a.as_slice(), b),
        Values::Double(a) => double_with(alloc, op, a.as_slice(), b),
        Values::Text(_) => Ok(None),
    }
}

/// The operator on two columns of one length; none where no loop does it.
pub(crate) fn column_pairs(
    alloc: Global,
    op: Binary,
    a: &Values,
    b: &Values,
) -> Result<Option<Values>, OpFault>
    requires { length (shown b.now).cells ≡ length (shown a.now).cells }
    ensures { AnswersIfMade (binary_rows op (numbered 0 (shown a.now).cells) (numbered 0 (shown b.now).cells)) result }
{
    match (a, b) {
        (Values::I8(a), Values::I8(b)) => integer_pairs(alloc, op, a.as_slice(), b.as_slice()),
        (Values::I16(a), Values::I16(b)) => integer_pairs(alloc, op, a.as_slice(), b.as_slice()),
        (Values::I32(a), Values::I32(b)) => integer_pairs(alloc, op, a.as_slice(), b.as_slice()),
        (Values::I64(a), Values::I64(b)) => integer_pairs(alloc, op, a.as_slice(), b.as_slice()),
        (Values::U8(a), Values::U8(b)) => integer_pairs(alloc, op, a.as_slice(), b.as_slice()),
        (Values::U16(a), Values::U16(b)) => integer_pairs(alloc, op, a.as_slice(), b.as_slice()),
        (Values::U32(a), Values::U32(b)) => integer_pairs(alloc, op, a.as_slice(), b.as_slice()),
        (Values::U64(a), Values::U64(b)) => integer_pairs(alloc, op, a.as_slice(), b.as_slice()),
        _ => mixed_pairs(alloc, op, a, b),
    }
}
