//! Numbers of the integer classes: each class in one place, by the generic operators.
ghost use Rattle.std.specs.Prelude.{◌≡◌, ◌≤ℤ◌};
ghost use Rattle.tall_int.specs.Numbers.{nearest};
ghost use Rattle.tall_value.specs.Cells.{seen, whole};
ghost use Rattle.tall_value.specs.Classes.{greatest, least};
ghost use Rattle.tall_value.specs.Tasks.{IsSmallTask, bit_operation, task_number};

use crate::cell::Cell;
use crate::class::IntKind;
use tall_int::{Arith, IntClass, bit_and, bit_or, bit_xor, clamp, mixed};

/// A bit operator.
#[derive(Clone, Copy)]
pub(crate) enum BitOperator {
    And,
    Or,
    Xor,
}

/// What an integer class is asked to make of whole numbers.
#[derive(Clone, Copy)]
pub(crate) enum Task {
    /// An arithmetic operator of numbers of at most 2^64 in magnitude.
    Arithmetic(Arith, i128, i128),
    /// A bit operator of numbers that are converted to the class first.
    Bits(BitOperator, i128, i128),
    /// The nearest number of the class.
    Nearest(i128),
}

fn bits_in<I: IntClass>(op: BitOperator, a: I, b: I) -> I
    ensures { I.number result ≡ bit_operation op (I.number a) (I.number b) }
{
    match op {
        BitOperator::And => bit_and(a, b),
        BitOperator::Or => bit_or(a, b),
        BitOperator::Xor => bit_xor(a, b),
    }
}

fn in_class<I: IntClass>(task: Task) -> I
    requires { IsSmallTask task }
    ensures { I.number result ≡ task_number task I.MIN I.MAX }
{
    match task {
        Task::Arithmetic(op, a, b) => mixed(op, a, b),
        Task::Bits(op, a, b) => bits_in(op, clamp(a), clamp(b)),
        Task::Nearest(n) => clamp(n),
    }
}

/// The cell of a class that a task gives.
pub(crate) fn made<'a>(kind: IntKind, task: Task) -> Cell<'a>
    requires { IsSmallTask task }
    ensures { seen result ≡ whole kind (task_number task (least kind) (greatest kind)) }
{
    match kind {
        IntKind::Int8 => Cell::I8(in_class(task)),
        IntKind::Int16 => Cell::I16(in_class(task)),
        IntKind::Int32 => Cell::I32(in_class(task)),
        IntKind::Int64 => Cell::I64(in_class(task)),
        IntKind::Uint8 => Cell::U8(in_class(task)),
        IntKind::Uint16 => Cell::U16(in_class(task)),
        IntKind::Uint32 => Cell::U32(in_class(task)),
        IntKind::Uint64 => Cell::U64(in_class(task)),
    }
}

impl<'a> Cell<'a> {
    /// The cell of an integer class whose number is `n`; where `n` is outside the range of the class, the nearest number
    /// of the class (docs/LANGUAGE.md, operators; MathWorks, Integers). `Cell::content` is the way back.
    pub fn of_class(kind: IntKind, n: i128) -> Cell<'a>
        ensures nearest { seen result ≡ whole kind (nearest (least kind) (greatest kind) n) }
        ensures exact { least kind ≤ℤ n → n ≤ℤ greatest kind → seen result ≡ whole kind n }
    {
        made(kind, Task::Nearest(n))
    }
}
