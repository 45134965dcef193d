//! The class tables of the operators.
ghost use Rattle.std.specs.Prelude.{◌≡◌};
ghost use Rattle.tall_value.specs.ClassTables.{arithmetic_kind, beside_integer, binary_class, binary_kind, bits_beside, bits_kind, both_numbers, comparison_kind, counts_as_double, of_number, sign_kind, texts_kind, unary_class as unary_class_of, unary_kind, with_integer};

use crate::class::{Class, IntKind, Kind};
use crate::faults::ClassFault;
use crate::operators::{Binary, Unary};

fn beside_integer(c: IntKind, b: Kind, b_scalar: bool) -> Result<Kind, ClassFault>
    ensures { result ≡ beside_integer c b b_scalar }
{
    match b {
        Kind::Integer(d) if c.is_same(d) => Ok(Kind::Integer(c)),
        Kind::Logical => Ok(Kind::Integer(c)),
        Kind::Double if b_scalar => Ok(Kind::Integer(c)),
        Kind::Text => Err(ClassFault::BadClass),
        _ => Err(ClassFault::MixedClass),
    }
}

fn with_integer(a: Kind, a_scalar: bool, b: Kind, b_scalar: bool) -> Result<Kind, ClassFault>
    ensures { result ≡ with_integer a a_scalar b b_scalar }
{
    match (a, b) {
        (Kind::Integer(c), _) => beside_integer(c, b, b_scalar),
        (_, Kind::Integer(c)) => beside_integer(c, a, a_scalar),
        _ => Err(ClassFault::BadClass),
    }
}

fn counts_as_double(a: Kind) -> bool
    ensures { result ≡ counts_as_double a }
{
    match a {
        Kind::Logical => true,
        Kind::Double => true,
        _ => false,
    }
}

fn arithmetic_kind(a: Kind, a_scalar: bool, b: Kind, b_scalar: bool) -> Result<Kind, ClassFault>
    ensures { result ≡ arithmetic_kind a a_scalar b b_scalar }
{
    if counts_as_double(a) && counts_as_double(b) {
        Ok(Kind::Double)
    } else {
        with_integer(a, a_scalar, b, b_scalar)
    }
}

fn bits_beside(c: IntKind, b: Kind, b_scalar: bool) -> Result<Kind, ClassFault>
    ensures { result ≡ bits_beside c b b_scalar }
{
    match b {
        Kind::Integer(_) => beside_integer(c, b, b_scalar),
        Kind::Double => beside_integer(c, b, b_scalar),
        _ => Err(ClassFault::BadClass),
    }
}

fn bits_kind(a: Kind, a_scalar: bool, b: Kind, b_scalar: bool) -> Result<Kind, ClassFault>
    ensures { result ≡ bits_kind a a_scalar b b_scalar }
{
    match (a, b) {
        (Kind::Integer(c), _) => bits_beside(c, b, b_scalar),
        (_, Kind::Integer(c)) => bits_beside(c, a, a_scalar),
        _ => Err(ClassFault::BadClass),
    }
}

fn texts_kind(a: Kind, b: Kind) -> Result<Kind, ClassFault>
    ensures { result ≡ texts_kind a b }
{
    match (a, b) {
        (Kind::Text, Kind::Text) => Ok(Kind::Logical),
        _ => Err(ClassFault::BadClass),
    }
}

pub(crate) fn of_number(a: Kind, made: Kind) -> Result<Kind, ClassFault>
    ensures { result ≡ of_number a made }
{
    match a {
        Kind::Text => Err(ClassFault::BadClass),
        _ => Ok(made),
    }
}

fn both_numbers(a: Kind, b: Kind) -> Result<Kind, ClassFault>
    ensures { result ≡ both_numbers a b }
{
    match a {
        Kind::Text => Err(ClassFault::BadClass),
        _ => of_number(b, Kind::Logical),
    }
}

fn comparison_kind(a: Kind, b: Kind) -> Result<Kind, ClassFault>
    ensures { result ≡ comparison_kind a b }
{
    match a {
        Kind::Text => texts_kind(a, b),
        _ => of_number(b, Kind::Logical),
    }
}

fn binary_kind(
    op: Binary,
    a: Kind,
    a_scalar: bool,
    b: Kind,
    b_scalar: bool,
) -> Result<Kind, ClassFault>
    ensures { result ≡ binary_kind op a a_scalar b b_scalar }
{
    match op {
        Binary::Add | Binary::Sub | Binary::Mul | Binary::Div | Binary::Modulo => {
            arithmetic_kind(a, a_scalar, b, b_scalar)
        }
        Binary::Idivide(_) => with_integer(a, a_scalar, b, b_scalar),
        Binary::BitAnd | Binary::BitOr | Binary::BitXor => bits_kind(a, a_scalar, b, b_scalar),
        Binary::Eq | Binary::Ne | Binary::Lt | Binary::Le | Binary::Gt | Binary::Ge => {
            comparison_kind(a, b)
        }
        Binary::StrCmp => texts_kind(a, b),
        Binary::And | Binary::Or => both_numbers(a, b),
    }
}

pub(crate) fn sign_kind(a: Kind) -> Result<Kind, ClassFault>
    ensures { result ≡ sign_kind a }
{
    match a {
        Kind::Integer(c) => Ok(Kind::Integer(c)),
        Kind::Logical => Ok(Kind::Double),
        Kind::Double => Ok(Kind::Double),
        Kind::Text => Err(ClassFault::BadClass),
    }
}

fn unary_kind(op: Unary, a: Kind) -> Result<Kind, ClassFault>
    ensures { result ≡ unary_kind op a }
{
    match op {
        Unary::Neg | Unary::Plus | Unary::Abs => sign_kind(a),
        Unary::Not | Unary::ToLogical | Unary::IsNan => of_number(a, Kind::Logical),
        Unary::ToDouble => of_number(a, Kind::Double),
        Unary::ToInt8 => of_number(a, Kind::Integer(IntKind::Int8)),
        Unary::ToInt16 => of_number(a, Kind::Integer(IntKind::Int16)),
        Unary::ToInt32 => of_number(a, Kind::Integer(IntKind::Int32)),
        Unary::ToInt64 => of_number(a, Kind::Integer(IntKind::Int64)),
        Unary::ToUint8 => of_number(a, Kind::Integer(IntKind::Uint8)),
        Unary::ToUint16 => of_number(a, Kind::Integer(IntKind::Uint16)),
        Unary::ToUint32 => of_number(a, Kind::Integer(IntKind::Uint32)),
        Unary::ToUint64 => of_number(a, Kind::Integer(IntKind::Uint64)),
    }
}

/// The class of the result of an operator on one operand, or why the operand's class is refused
/// (docs/LANGUAGE.md, operators).
pub fn unary_class(op: Unary, a: Class) -> Result<Class, ClassFault>
    ensures { result ≡ unary_class_of op a }
{
    Ok(unary_kind(op, a.kind())?.class())
}

/// The class of the result of an operator on two operands, each of which may be a scalar, or why their classes are
/// refused (docs/LANGUAGE.md, operators; MathWorks, Integers).
pub fn result_class(
    op: Binary,
    a: Class,
    a_scalar: bool,
    b: Class,
    b_scalar: bool,
) -> Result<Class, ClassFault>
    ensures { result ≡ binary_class op a a_scalar b b_scalar }
{
    Ok(binary_kind(op, a.kind(), a_scalar, b.kind(), b_scalar)?.class())
}
