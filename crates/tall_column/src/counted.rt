//! Logical columns beside an integer class, in which they count as 0 and 1.
ghost use Rattle.std.specs.Prelude.{◌≡◌, IfOk, length, map};
ghost use Rattle.tall_value.specs.Cells.{bit, logical, whole};
ghost use Rattle.tall_value.specs.Columns.{numbered};
ghost use Rattle.tall_value.specs.Elementwise.{binary_rows, scalar_rows};
ghost use Rattle.tall_column.specs.Mapped.{AnswersIfMade};

use crate::beside::integer_beside;
use crate::binaries::integer_pairs;
use std::alloc::{AllocError, Global};
use std::marker::PhantomData;
use tall_dense::{Integer, OpFault, Values, each};
use tall_operators::integers::To;
use tall_value::Binary;

/// The values of an integer class that logicals count as.
fn counted<I: Integer>(alloc: Global, items: &[bool]) -> Result<Vec<I>, AllocError>
    ensures { IfOk result (λ v. map (λ x. whole I.KIND (I.number x)) v.items ≡ map (λ b. whole I.KIND (bit b)) items.now) }
{
    match each(alloc, &To::<I> { class: PhantomData }, items) {
        Ok(values) => Ok(values),
        Err(_) => Err(AllocError),
    }
}

/// The operator on a logical column and one of an integer class; none where no loop does it.
pub(crate) fn counted_before<I: Integer>(
    alloc: Global,
    op: Binary,
    a: &[bool],
    b: &[I],
) -> Result<Option<Values>, OpFault>
    requires { length (map (λ x. whole I.KIND (I.number x)) b.now) ≡ length (map (λ m. logical m) a.now) }
    ensures { AnswersIfMade (binary_rows op (numbered 0 (map (λ m. logical m) a.now)) (numbered 0 (map (λ x. whole I.KIND (I.number x)) b.now))) result }
{
    let first = counted::<I>(alloc, a)?;
    integer_pairs(alloc, op, first.as_slice(), b)
}

/// The operator on a column of an integer class and a logical one; none where no loop does it.
pub(crate) fn counted_behind<I: Integer>(
    alloc: Global,
    op: Binary,
    a: &[I],
    b: &[bool],
) -> Result<Option<Values>, OpFault>
    requires { length (map (λ m. logical m) b.now) ≡ length (map (λ x. whole I.KIND (I.number x)) a.now) }
    ensures { AnswersIfMade (binary_rows op (numbered 0 (map (λ x. whole I.KIND (I.number x)) a.now)) (numbered 0 (map (λ m. logical m) b.now))) result }
{
    let second = counted::<I>(alloc, b)?;
    integer_pairs(alloc, op, a, second.as_slice())
}

/// The operator on a logical column and a scalar of an integer class; none where no loop does it.
pub(crate) fn counted_beside<I: Integer>(
    alloc: Global,
    op: Binary,
    items: &[bool],
    scalar: I,
    scalar_left: bool,
) -> Result<Option<Values>, OpFault>
    ensures { AnswersIfMade (scalar_rows op scalar_left (whole I.KIND (I.number scalar)) (numbered 0 (map (λ m. logical m) items.now))) result }
{
    let column = counted::<I>(alloc, items)?;
    integer_beside(alloc, op, column.as_slice(), scalar, scalar_left)
}
