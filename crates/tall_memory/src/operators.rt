//! Operators over values in memory (docs/LANGUAGE.md, operators).
ghost use Rattle.std.specs.Prelude.{◌≡◌, false, true};
ghost use Rattle.tall_value.specs.Cells.{seen, seen_kind};
ghost use Rattle.tall_value.specs.CellOperators.{binary_cell, unary_cell};
ghost use Rattle.tall_value.specs.ClassTables.{binary_kind, class_result, unary_kind};
ghost use Rattle.tall_value.specs.Columns.{numbered};
ghost use Rattle.tall_value.specs.Elementwise.{binary_rows, scalar_rows, unary_rows};
ghost use Rattle.tall_value.specs.Results.{result_seen};
ghost use Rattle.tall_local.specs.Memory as memory;
ghost use Rattle.tall_local.specs.Memory.{kind_of_column, scalar};
ghost use Rattle.tall_local.specs.MemoryOperators.{binary_of, column_result, if_equal_lengths, memory_binary, memory_infix, memory_prefix, memory_unary, scalar_result, scalars_fit, unary_of, with_kind};
ghost use Rattle.tall_memory.specs.Values.{Gives, ref_seen};
ghost use Rattle.tall_column.specs.Mapped.{scalar_class};
ghost use Rattle.tall_memory.specs.Columns.{IsFaultBelow, IsOfColumn, beside_kind};

use crate::faults::{MemoryFault, refused_class};
use crate::values::{MemoryRef, MemoryValue};
use std::alloc::Global;
use tall_column::{Column, OpFault, map_binary, map_scalar, map_unary};
use tall_grammar::{Infix, Prefix};
use tall_value::{
    Binary, Cell, CellFault, Class, ClassFault, Unary, binary, result_class, unary, unary_class,
};

/// The scalar of an operator over scalars, whose classes a table took or not; a fault has no row.
fn scalar_answer(
    alloc: Global,
    class: Result<Class, ClassFault>,
    computed: &Result<Cell<'_>, CellFault>,
) -> Result<MemoryValue, MemoryFault>
    ensures { (kinds : _) → class ≡ class_result kinds → Gives (with_kind kinds (λ k. scalar_result (result_seen computed.now))) result }
{
    match class {
        Ok(_) => match computed {
            Ok(cell) => MemoryValue::scalar(alloc, cell),
            Err(fault) => Err(MemoryFault::Data {
                row: None,
                kind: fault.kind(),
            }),
        },
        Err(fault) => refused_class(fault),
    }
}

/// The column that a loop over so many rows gives, or the fault of its first row without a result, which is counted from 0
/// there and from 1 here.
pub fn column_answer(
    rows: usize,
    computed: Result<Column, OpFault>,
) -> Result<MemoryValue, MemoryFault>
    requires { IsFaultBelow rows computed }
    ensures { IsOfColumn computed result }
{
    match computed {
        Ok(column) => Ok(MemoryValue::column(column)),
        Err(OpFault::At { row, fault }) => Err(MemoryFault::Data {
            row: Some(row as u64 + 1),
            kind: fault.kind(),
        }),
        Err(OpFault::Memory) => Err(MemoryFault::Memory),
    }
}

fn unary_column(alloc: Global, op: Unary, x: &Column) -> Result<MemoryValue, MemoryFault>
    ensures { Gives (with_kind (unary_kind op (kind_of_column x.now)) (λ k. column_result k (unary_rows op (numbered 1 x.now.cells)))) result }
{
    let rows = x.len();
    match unary_class(op, x.class()) {
        Ok(_) => column_answer(rows, map_unary(alloc, op, x)),
        Err(fault) => refused_class(fault),
    }
}

#[tactic(auto, unfolding(tall_local::specs::MemoryOperators::memory_unary))]
/// An operator of one operand.
pub fn memory_unary(alloc: Global, op: Unary, v: &MemoryRef<'_>) -> Result<MemoryValue, MemoryFault>
    ensures { Gives (memory_unary op (ref_seen v.now)) result }
{
    match v {
        MemoryRef::Scalar(c) => unary_scalar(alloc, op, c),
        MemoryRef::Column(x) => unary_column(alloc, op, x),
        MemoryRef::Table(_) => Err(MemoryFault::BadClass),
        MemoryRef::Texts(_) => Err(MemoryFault::BadClass),
    }
}

fn class_beside(op: Binary, scalar_left: bool, c: Class, x: Class) -> Result<Class, ClassFault>
    ensures { result ≡ scalar_class op scalar_left c x }
{
    if scalar_left {
        result_class(op, c, true, x, false)
    } else {
        result_class(op, x, false, c, true)
    }
}

/// An operator of a column and a scalar, which is the left operand where the flag is set.
fn binary_beside(
    alloc: Global,
    op: Binary,
    x: &Column,
    c: &Cell<'_>,
    scalar_left: bool,
) -> Result<MemoryValue, MemoryFault>
    ensures { Gives (with_kind (beside_kind op scalar_left (seen c.now) x.now) (λ k. column_result k (scalar_rows op scalar_left (seen c.now) (numbered 1 x.now.cells)))) result }
{
    let rows = x.len();
    match class_beside(op, scalar_left, c.class(), x.class()) {
        Ok(_) => column_answer(rows, map_scalar(alloc, op, x, c, scalar_left)),
        Err(fault) => refused_class(fault),
    }
}

/// An operator of two columns.
fn binary_columns(
    alloc: Global,
    op: Binary,
    x: &Column,
    y: &Column,
) -> Result<MemoryValue, MemoryFault>
    ensures { Gives (with_kind (binary_kind op (kind_of_column x.now) false (kind_of_column y.now) false) (λ k. if_equal_lengths x.now y.now (column_result k (binary_rows op (numbered 1 x.now.cells) (numbered 1 y.now.cells))))) result }
{
    let rows = x.len();
    match result_class(op, x.class(), false, y.class(), false) {
        Ok(_) if rows == y.len() => column_answer(rows, map_binary(alloc, op, x, y)),
        Ok(_) => Err(MemoryFault::BadSize),
        Err(fault) => refused_class(fault),
    }
}

fn binary_scalars(
    alloc: Global,
    op: Binary,
    c: &Cell<'_>,
    d: &Cell<'_>,
) -> Result<MemoryValue, MemoryFault>
    ensures { Gives (with_kind (binary_kind op (seen_kind (seen c.now)) true (seen_kind (seen d.now)) true) (λ k. scalar_result (binary_cell op (seen c.now) (seen d.now)))) result }
{
    let class = result_class(op, c.class(), true, d.class(), true);
    scalar_answer(alloc, class, &binary(op, c, d))
}

fn unary_scalar(alloc: Global, op: Unary, c: &Cell<'_>) -> Result<MemoryValue, MemoryFault>
    ensures { Gives (with_kind (unary_kind op (seen_kind (seen c.now))) (λ k. scalar_result (unary_cell op (seen c.now)))) result }
{
    let class = unary_class(op, c.class());
    scalar_answer(alloc, class, &unary(op, c))
}

#[tactic(auto, unfolding(tall_local::specs::MemoryOperators::memory_binary))]
/// An operator with a scalar on its left.
fn after_scalar(
    alloc: Global,
    op: Binary,
    c: &Cell<'_>,
    w: &MemoryRef<'_>,
) -> Result<MemoryValue, MemoryFault>
    ensures { Gives (memory_binary op (scalar (seen c.now)) (ref_seen w.now)) result }
{
    match w {
        MemoryRef::Scalar(d) => binary_scalars(alloc, op, c, d),
        MemoryRef::Column(y) => binary_beside(alloc, op, y, c, true),
        MemoryRef::Table(_) => Err(MemoryFault::BadClass),
        MemoryRef::Texts(_) => Err(MemoryFault::BadClass),
    }
}

#[tactic(auto, unfolding(tall_local::specs::MemoryOperators::memory_binary))]
/// An operator with a column on its left.
fn after_column(
    alloc: Global,
    op: Binary,
    x: &Column,
    w: &MemoryRef<'_>,
) -> Result<MemoryValue, MemoryFault>
    ensures { Gives (memory_binary op (memory.column x.now) (ref_seen w.now)) result }
{
    match w {
        MemoryRef::Scalar(d) => binary_beside(alloc, op, x, d, false),
        MemoryRef::Column(y) => binary_columns(alloc, op, x, y),
        MemoryRef::Table(_) => Err(MemoryFault::BadClass),
        MemoryRef::Texts(_) => Err(MemoryFault::BadClass),
    }
}

#[tactic(auto, unfolding(tall_local::specs::MemoryOperators::memory_binary))]
/// An operator of two operands.
pub fn memory_binary(
    alloc: Global,
    op: Binary,
    v: &MemoryRef<'_>,
    w: &MemoryRef<'_>,
) -> Result<MemoryValue, MemoryFault>
    ensures { Gives (memory_binary op (ref_seen v.now) (ref_seen w.now)) result }
{
    match v {
        MemoryRef::Scalar(c) => after_scalar(alloc, op, c, w),
        MemoryRef::Column(x) => after_column(alloc, op, x, w),
        MemoryRef::Table(_) => Err(MemoryFault::BadClass),
        MemoryRef::Texts(_) => Err(MemoryFault::BadClass),
    }
}

/// The operator of one operand that a sign stands for.
pub fn unary_of(op: Prefix) -> Unary
    ensures { result ≡ unary_of op }
{
    match op {
        Prefix::Minus => Unary::Neg,
        Prefix::Plus => Unary::Plus,
        Prefix::Not => Unary::Not,
    }
}

/// The operator of two operands that a sign stands for; after their test `*` and `/` are `.*` and `./`.
pub fn binary_of(op: Infix) -> Binary
    ensures { result ≡ binary_of op }
{
    match op {
        Infix::Or => Binary::Or,
        Infix::And => Binary::And,
        Infix::Eq => Binary::Eq,
        Infix::Ne => Binary::Ne,
        Infix::Lt => Binary::Lt,
        Infix::Le => Binary::Le,
        Infix::Gt => Binary::Gt,
        Infix::Ge => Binary::Ge,
        Infix::Add => Binary::Add,
        Infix::Sub => Binary::Sub,
        Infix::DotMul => Binary::Mul,
        Infix::DotDiv => Binary::Div,
        Infix::Mul => Binary::Mul,
        Infix::Div => Binary::Div,
    }
}

/// `*` needs a scalar on at least one side, and `/` one on its right.
pub fn scalars_fit(op: Infix, left: bool, right: bool) -> bool
    ensures { result ≡ scalars_fit op left right }
{
    match op {
        Infix::Mul => left || right,
        Infix::Div => right,
        _ => true,
    }
}

#[tactic(auto, unfolding(tall_local::specs::MemoryOperators::memory_prefix))]
/// An operator that stands before its operand.
pub fn memory_prefix(
    alloc: Global,
    op: Prefix,
    v: &MemoryRef<'_>,
) -> Result<MemoryValue, MemoryFault>
    ensures { Gives (memory_prefix op (ref_seen v.now)) result }
{
    memory_unary(alloc, unary_of(op), v)
}

#[tactic(auto, unfolding(tall_local::specs::MemoryOperators::memory_infix))]
/// An operator between its operands; for `*` and `/` the test on scalars comes before classes.
pub fn memory_infix(
    alloc: Global,
    op: Infix,
    v: &MemoryRef<'_>,
    w: &MemoryRef<'_>,
) -> Result<MemoryValue, MemoryFault>
    ensures { Gives (memory_infix op (ref_seen v.now) (ref_seen w.now)) result }
{
    if scalars_fit(op, v.is_scalar(), w.is_scalar()) {
        memory_binary(alloc, binary_of(op), v, w)
    } else {
        Err(MemoryFault::BadArgument)
    }
}
