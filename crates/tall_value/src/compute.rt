//! The cell that an operator gives of cells.
ghost use Rattle.std.specs.Prelude.{◌≡◌, ◌≤◌, ◌^◌, Bool, IfSome, not, neg_ℤ, pos, ◌&&◌, ◌||◌, unsigned_abs};
ghost use Rattle.tall_int.specs.Doubles.{whole_abs, whole_neg};
ghost use Rattle.tall_value.specs.Cells.{Seen, double, is_nan, logical, seen, seen_kind, whole};
ghost use Rattle.tall_value.specs.Classes.{class_of};
ghost use Rattle.tall_value.specs.ClassTables.{binary_class, unary_class};
ghost use Rattle.tall_value.specs.declared.class.Class.{Class};
ghost use Rattle.tall_value.specs.CellOperators.{above, arithmetic, as_double, below, binary_cell, bits, comparison, compared, double_cell, equal, in_class, integer_side, joined, of_doubles, or_zero, signed, to_double, to_integer, truth, truth_cell, unary_cell};
ghost use Rattle.tall_value.specs.Results.{result_seen, shown_result};
ghost use Rattle.tall_value.specs.Tasks.{bit_operation};

use crate::cell::{Cell, Content};
use crate::class::IntKind;
use crate::comparisons::{compared, is_above, is_below, is_equal};
use crate::doubles::{checked, double_of_logical, to_double};
use crate::faults::CellFault;
use crate::integers::{BitOperator, Task, made};
use crate::operators::{Binary, Unary};
use std::cmp::Ordering;
use tall_int::{Arith, Whole, WholeFault};

/// The double that a logical or a double counts as.
fn as_double(cell: &Cell<'_>) -> Whole
    ensures { result ≡ as_double (seen cell.now) }
{
    match cell.content() {
        Content::Logical(b) => double_of_logical(b),
        Content::Double(d) => d,
        _ => Whole::nan(),
    }
}

fn integer_side(a: &Cell<'_>, b: &Cell<'_>) -> Option<IntKind>
    ensures { result ≡ integer_side (seen a.now) (seen b.now) }
{
    match (a.content(), b.content()) {
        (Content::Whole(kind, _), _) => Some(kind),
        (_, Content::Whole(kind, _)) => Some(kind),
        _ => None,
    }
}

/// The cell of a double.
fn double_cell<'a>(computed: Result<Whole, CellFault>) -> Result<Cell<'a>, CellFault>
    ensures { result_seen result ≡ shown_result (λ d. double d) computed }
{
    match computed {
        Ok(d) => Ok(Cell::Double(d)),
        Err(fault) => Err(fault),
    }
}

fn of_doubles(op: Arith, a: Whole, b: Whole) -> Result<Whole, WholeFault>
    ensures { result ≡ of_doubles op a b }
{
    match op {
        Arith::Add => a.add(b),
        Arith::Sub => a.sub(b),
        Arith::Mul => a.mul(b),
        Arith::Div | Arith::Idivide(_) => a.div(b),
        Arith::Modulo => Ok(a.modulo(b)),
    }
}

/// An arithmetic operator in an integer class.
fn in_class<'a>(kind: IntKind, op: Arith, a: Option<i128>, b: Option<i128>) -> Cell<'a>
    requires first { IfSome a (λ n. unsigned_abs n ≤ 2 ^ 64) }
    requires second { IfSome b (λ n. unsigned_abs n ≤ 2 ^ 64) }
    ensures { seen result ≡ whole kind (in_class kind op a b) }
{
    match (a, b) {
        (Some(a), Some(b)) => made(kind, Task::Arithmetic(op, a, b)),
        _ => made(kind, Task::Nearest(0)),
    }
}

fn arithmetic<'a>(op: Arith, a: &Cell<'_>, b: &Cell<'_>) -> Result<Cell<'a>, CellFault>
    ensures { result_seen result ≡ arithmetic op (seen a.now) (seen b.now) }
{
    match integer_side(a, b) {
        Some(kind) => Ok(in_class(kind, op, a.amount(), b.amount())),
        None => double_cell(checked(of_doubles(op, as_double(a), as_double(b)))),
    }
}

/// A NaN counts as 0.
fn or_zero(n: Option<i128>) -> i128
    ensures { result ≡ or_zero n }
{
    match n {
        Some(n) => n,
        None => 0,
    }
}

fn bits<'a>(op: BitOperator, a: &Cell<'_>, b: &Cell<'_>) -> Result<Cell<'a>, CellFault>
    ensures { result_seen result ≡ bits (bit_operation op) (seen a.now) (seen b.now) }
{
    match integer_side(a, b) {
        Some(kind) => Ok(made(
            kind,
            Task::Bits(op, or_zero(a.amount()), or_zero(b.amount())),
        )),
        None => Ok(Cell::Double(Whole::nan())),
    }
}

/// How two cells compare; none with a NaN.
fn comparison(a: &Cell<'_>, b: &Cell<'_>) -> Option<Ordering>
    ensures { result ≡ comparison (seen a.now) (seen b.now) }
{
    match (a.content(), b.content()) {
        (Content::Text(a), Content::Text(b)) => Some(a.cmp(b)),
        _ => compared(a.amount(), b.amount()),
    }
}

/// A cell as a logical: a nonzero number is true.
fn truth(cell: &Cell<'_>) -> Result<bool, CellFault>
    ensures { result ≡ truth (seen cell.now) }
{
    match cell.content() {
        Content::Logical(b) => Ok(b),
        Content::Whole(_, n) => Ok(n != 0),
        Content::Double(d) => match d.get() {
            Some(n) => Ok(n != 0),
            None => Err(CellFault::NanLogical),
        },
        Content::Text(_) => Err(CellFault::NanLogical),
    }
}

fn logical<'a>(b: bool) -> Result<Cell<'a>, CellFault>
    ensures { result_seen result ≡ Ok (logical b) }
{
    Ok(Cell::Logical(b))
}

/// Both operands are looked at, whatever the first one is.
fn both<'a>(a: &Cell<'_>, b: &Cell<'_>) -> Result<Cell<'a>, CellFault>
    ensures { result_seen result ≡ joined ◌&&◌ (truth (seen a.now)) (truth (seen b.now)) }
{
    let first = truth(a)?;
    let second = truth(b)?;
    Ok(Cell::Logical(first && second))
}

fn either<'a>(a: &Cell<'_>, b: &Cell<'_>) -> Result<Cell<'a>, CellFault>
    ensures { result_seen result ≡ joined ◌||◌ (truth (seen a.now)) (truth (seen b.now)) }
{
    let first = truth(a)?;
    let second = truth(b)?;
    Ok(Cell::Logical(first || second))
}

/// The cell that an operator gives of two cells, or why it has none: Inexact, NotWhole, or NanLogical.
///
/// The class table says which classes an operator takes (`result_class`, taking either side as a scalar); of other
/// classes the answer means nothing. Integers are computed exactly, with a double too, then rounded and kept in their
/// class; comparisons go by exact value, texts by their UTF-8 bytes (docs/LANGUAGE.md, operators).
pub fn binary<'a>(op: Binary, a: &Cell<'_>, b: &Cell<'_>) -> Result<Cell<'a>, CellFault>
    ensures { result_seen result ≡ binary_cell op (seen a.now) (seen b.now) }
{
    match op {
        Binary::Add => arithmetic(Arith::Add, a, b),
        Binary::Sub => arithmetic(Arith::Sub, a, b),
        Binary::Mul => arithmetic(Arith::Mul, a, b),
        Binary::Div => arithmetic(Arith::Div, a, b),
        Binary::Modulo => arithmetic(Arith::Modulo, a, b),
        Binary::Idivide(how) => arithmetic(Arith::Idivide(how), a, b),
        Binary::BitAnd => bits(BitOperator::And, a, b),
        Binary::BitOr => bits(BitOperator::Or, a, b),
        Binary::BitXor => bits(BitOperator::Xor, a, b),
        Binary::Eq | Binary::StrCmp => logical(is_equal(comparison(a, b))),
        Binary::Ne => logical(!is_equal(comparison(a, b))),
        Binary::Lt => logical(is_below(comparison(a, b))),
        Binary::Le => logical(is_below(comparison(a, b)) || is_equal(comparison(a, b))),
        Binary::Gt => logical(is_above(comparison(a, b))),
        Binary::Ge => logical(is_above(comparison(a, b)) || is_equal(comparison(a, b))),
        Binary::And => both(a, b),
        Binary::Or => either(a, b),
    }
}

fn converted<'a>(kind: IntKind, cell: &Cell<'_>) -> Result<Cell<'a>, CellFault>
    ensures { result_seen result ≡ to_integer kind (seen cell.now) }
{
    Ok(made(kind, Task::Nearest(or_zero(cell.amount()))))
}

fn opposite(n: i128) -> i128
    requires { unsigned_abs n ≤ 2 ^ 64 }
    ensures { result ≡ neg_ℤ n }
{
    -n
}

fn negated<'a>(cell: &Cell<'_>) -> Cell<'a>
    ensures { Ok (seen result) ≡ signed neg_ℤ whole_neg (seen cell.now) }
{
    match cell.content() {
        Content::Whole(kind, n) => made(kind, Task::Nearest(opposite(n))),
        _ => Cell::Double(as_double(cell).neg()),
    }
}

fn itself<'a>(cell: &Cell<'_>) -> Cell<'a>
    ensures { Ok (seen result) ≡ signed (λ n. n) (λ d. d) (seen cell.now) }
{
    match cell.content() {
        Content::Whole(kind, n) => made(kind, Task::Nearest(n)),
        _ => Cell::Double(as_double(cell)),
    }
}

fn magnitude<'a>(cell: &Cell<'_>) -> Cell<'a>
    ensures { Ok (seen result) ≡ signed (λ n. pos (unsigned_abs n)) whole_abs (seen cell.now) }
{
    match cell.content() {
        Content::Whole(kind, n) => made(kind, Task::Nearest(n.abs())),
        _ => Cell::Double(as_double(cell).abs()),
    }
}

fn is_nan(cell: &Cell<'_>) -> bool
    ensures { result ≡ is_nan (seen cell.now) }
{
    match cell.content() {
        Content::Double(d) => d.get().is_none(),
        _ => false,
    }
}

fn not<'a>(cell: &Cell<'_>) -> Result<Cell<'a>, CellFault>
    ensures { result_seen result ≡ truth_cell not (truth (seen cell.now)) }
{
    let b = truth(cell)?;
    Ok(Cell::Logical(!b))
}

fn to_logical<'a>(cell: &Cell<'_>) -> Result<Cell<'a>, CellFault>
    ensures { result_seen result ≡ truth_cell (λ b. b) (truth (seen cell.now)) }
{
    let b = truth(cell)?;
    Ok(Cell::Logical(b))
}

/// The cell that an operator gives of a cell, or why it has none: Inexact or NanLogical.
///
/// The class table says which classes an operator takes (`unary_class`); of other classes the answer means nothing.
/// Integers stay in their class, conversion goes to the nearest number of the class with 0 for NaN, `double` of a
/// number of magnitude above 2^53 is Inexact, and a NaN is no logical (docs/LANGUAGE.md, operators).
pub fn unary<'a>(op: Unary, a: &Cell<'_>) -> Result<Cell<'a>, CellFault>
    ensures { result_seen result ≡ unary_cell op (seen a.now) }
{
    match op {
        Unary::Neg => Ok(negated(a)),
        Unary::Plus => Ok(itself(a)),
        Unary::Abs => Ok(magnitude(a)),
        Unary::Not => not(a),
        Unary::ToInt8 => converted(IntKind::Int8, a),
        Unary::ToInt16 => converted(IntKind::Int16, a),
        Unary::ToInt32 => converted(IntKind::Int32, a),
        Unary::ToInt64 => converted(IntKind::Int64, a),
        Unary::ToUint8 => converted(IntKind::Uint8, a),
        Unary::ToUint16 => converted(IntKind::Uint16, a),
        Unary::ToUint32 => converted(IntKind::Uint32, a),
        Unary::ToUint64 => converted(IntKind::Uint64, a),
        Unary::ToDouble => double_cell(to_double(a.amount())),
        Unary::ToLogical => to_logical(a),
        Unary::IsNan => logical(is_nan(a)),
    }
}

/// What an operator gives of cells has the class that the class table says, whichever operands are scalars.
pub fn results_have_their_class()
    ensures one { (op : Unary) (x c : Seen) (k : Class) → unary_class op (class_of (seen_kind x)) ≡ Ok k → unary_cell op x ≡ Ok c → class_of (seen_kind c) ≡ k }
    ensures two { (op : Binary) (x y c : Seen) (s t : Bool) (k : Class) → binary_class op (class_of (seen_kind x)) s (class_of (seen_kind y)) t ≡ Ok k → binary_cell op x y ≡ Ok c → class_of (seen_kind c) ≡ k }
{}
