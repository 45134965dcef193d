//! Operators on the values of one class, and the loops over slices of them.
ghost use Rattle.std.specs.Prelude.{◌≡◌, Result, length, map};
ghost use Rattle.tall_value.specs.declared.faults.CellFault.{CellFault};
ghost use Rattle.tall_value.specs.Cells.{Seen};
ghost use Rattle.tall_value.specs.Columns.{numbered};
ghost use Rattle.tall_value.specs.Elementwise.{each_pair, each_row};
ghost use Rattle.tall_value.specs.Results.{shown_result};
ghost use Rattle.tall_dense.specs.Rows.{Answers};

use crate::faults::OpFault;
use crate::operand::Operand;
use crate::stored::Stored;
use std::alloc::Global;
use tall_value::CellFault;

/// An operator of one operand.
pub trait RowOperator<T: Operand> {
    type Out: Stored;

    ghost gives: { Self → Seen → Result Seen CellFault };

    fn of(&self, a: T) -> Result<Self::Out, CellFault>
        ensures { shown_result Self.Out.shown result ≡ gives self.now (T.shown a) };
}

/// An operator of two operands.
pub trait PairOperator<A: Operand, B: Operand>: Copy {
    type Out: Stored;

    ghost gives: { Self → Seen → Seen → Result Seen CellFault };

    fn of(&self, a: A, b: B) -> Result<Self::Out, CellFault>
        ensures { shown_result Self.Out.shown result ≡ gives self.now (A.shown a) (B.shown b) };
}

/// The operator at each row.
pub fn each<T: Stored, F: RowOperator<T>>(
    alloc: Global,
    operator: &F,
    items: &[T],
) -> Result<Vec<F::Out>, OpFault>
    ensures { Answers (each_row (F.gives operator.now) (numbered 0 (map T.shown items.now))) (λ v. map F.Out.shown v.items) result }
{
    let mut out = Vec::with_capacity(alloc, items.len())?;
    for row in 0..items.len() {
        match operator.of(items[row]) {
            Ok(value) => out.push_reserved(value),
            Err(fault) => return Err(OpFault::At { row, fault }),
        }
    }
    Ok(out)
}

/// The operator at each row of two slices of one length.
pub fn pairs<A: Stored, B: Stored, F: PairOperator<A, B>>(
    alloc: Global,
    operator: &F,
    a: &[A],
    b: &[B],
) -> Result<Vec<F::Out>, OpFault>
    requires { length (map B.shown b.now) ≡ length (map A.shown a.now) }
    ensures { Answers (each_pair (F.gives operator.now) (numbered 0 (map A.shown a.now)) (numbered 0 (map B.shown b.now))) (λ v. map F.Out.shown v.items) result }
{
    let mut out = Vec::with_capacity(alloc, a.len())?;
    for row in 0..a.len() {
        match operator.of(a[row], b[row]) {
            Ok(value) => out.push_reserved(value),
            Err(reason) => return Err(OpFault::At { row, fault: reason }),
        }
    }
    Ok(out)
}

/// The operator with a scalar as its left operand.
#[derive(Clone, Copy)]
struct ScalarLeft<S, O> {
    scalar: S,
    operator: O,
}

impl<S: Operand, T: Operand, O: PairOperator<S, T>> RowOperator<T> for ScalarLeft<S, O> {
    type Out = O::Out;

    ghost gives = { λ s. O.gives s.operator (S.shown s.scalar) };

    fn of(&self, a: T) -> Result<O::Out, CellFault> {
        self.operator.of(self.scalar, a)
    }
}

/// The operator with a scalar as its right operand.
#[derive(Clone, Copy)]
struct ScalarRight<S, O> {
    scalar: S,
    operator: O,
}

impl<S: Operand, T: Operand, O: PairOperator<T, S>> RowOperator<T> for ScalarRight<S, O> {
    type Out = O::Out;

    ghost gives = { λ s c. O.gives s.operator c (S.shown s.scalar) };

    fn of(&self, a: T) -> Result<O::Out, CellFault> {
        self.operator.of(a, self.scalar)
    }
}

/// The operator at a scalar and each row.
pub fn before<S: Operand, T: Stored, O: PairOperator<S, T>>(
    alloc: Global,
    operator: O,
    scalar: S,
    items: &[T],
) -> Result<Vec<O::Out>, OpFault>
    ensures { Answers (each_row (λ c. O.gives operator (S.shown scalar) c) (numbered 0 (map T.shown items.now))) (λ v. map O.Out.shown v.items) result }
{
    each(alloc, &ScalarLeft { scalar, operator }, items)
}

/// The operator at each row and a scalar.
pub fn behind<T: Stored, S: Operand, O: PairOperator<T, S>>(
    alloc: Global,
    operator: O,
    items: &[T],
    scalar: S,
) -> Result<Vec<O::Out>, OpFault>
    ensures { Answers (each_row (λ c. O.gives operator c (S.shown scalar)) (numbered 0 (map T.shown items.now))) (λ v. map O.Out.shown v.items) result }
{
    each(alloc, &ScalarRight { scalar, operator }, items)
}
