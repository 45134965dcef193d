//! Arguments that are a text, one of some words, or a number of rows (docs/LANGUAGE.md, order of checks).
ghost use Rattle.std.specs.Prelude.{◌≡◌, Some, option_map};
ghost use Rattle.tall_local.specs.Applications.{choice_of, count_of, text_of};
ghost use Rattle.tall_local.specs.Functions.{integer_classes, methods, roundings, sum_options};
ghost use Rattle.tall_local.specs.Memory.{scalar_in, text_in};
ghost use Rattle.tall_local.specs.Names.{named};
ghost use Rattle.tall_value.specs.Cells.{seen};
ghost use Rattle.tall_memory.specs.Values.{ref_seen};

use crate::values::MemoryRef;
use tall_int::Rounding;
use tall_local::SumOption;
use tall_value::{Cell, Content, IntKind, Method};

fn text_in<'a>(c: &Cell<'a>) -> Option<&'a str>
    ensures { option_map (λ t. t.now) result ≡ text_in (seen c.now) }
{
    match c.content() {
        Content::Text(t) => Some(t),
        Content::Whole(_, _) => None,
        Content::Logical(_) => None,
        Content::Double(_) => None,
    }
}

/// A scalar that is a text.
pub(crate) fn text_of<'a>(v: &MemoryRef<'a>) -> Option<&'a str>
    ensures { option_map (λ t. t.now) result ≡ text_of (scalar_in (ref_seen v.now)) }
{
    match v {
        MemoryRef::Scalar(c) => text_in(c),
        MemoryRef::Column(_) => None,
        MemoryRef::Table(_) => None,
        MemoryRef::Texts(_) => None,
    }
}

fn count_in(c: &Cell<'_>) -> Option<u64>
    ensures { result ≡ count_of (Some (seen c.now)) }
{
    match c.content() {
        Content::Double(_) => match c.amount() {
            Some(n) if n >= 0 => Some(n as u64),
            _ => None,
        },
        Content::Whole(_, _) => None,
        Content::Logical(_) => None,
        Content::Text(_) => None,
    }
}

/// A scalar double that is a whole number of at least 0.
pub(crate) fn count_of(v: &MemoryRef<'_>) -> Option<u64>
    ensures { result ≡ count_of (scalar_in (ref_seen v.now)) }
{
    match v {
        MemoryRef::Scalar(c) => count_in(c),
        MemoryRef::Column(_) => None,
        MemoryRef::Table(_) => None,
        MemoryRef::Texts(_) => None,
    }
}

fn sum_option_named(name: &str) -> Option<SumOption>
    ensures { result ≡ named sum_options name.now }
{
    if "native" == name {
        Some(SumOption::Native)
    } else if "omitnan" == name {
        Some(SumOption::OmitNan)
    } else {
        None
    }
}

/// An option of `sum`.
pub(crate) fn sum_option(v: &MemoryRef<'_>) -> Option<SumOption>
    ensures { result ≡ choice_of sum_options (scalar_in (ref_seen v.now)) }
{
    match text_of(v) {
        Some(name) => sum_option_named(name),
        None => None,
    }
}

fn integer_class_named(name: &str) -> Option<IntKind>
    ensures { result ≡ named integer_classes name.now }
{
    if "int8" == name {
        Some(IntKind::Int8)
    } else if "int16" == name {
        Some(IntKind::Int16)
    } else if "int32" == name {
        Some(IntKind::Int32)
    } else if "int64" == name {
        Some(IntKind::Int64)
    } else if "uint8" == name {
        Some(IntKind::Uint8)
    } else if "uint16" == name {
        Some(IntKind::Uint16)
    } else if "uint32" == name {
        Some(IntKind::Uint32)
    } else if "uint64" == name {
        Some(IntKind::Uint64)
    } else {
        None
    }
}

/// The name of an integer class.
pub(crate) fn integer_class(v: &MemoryRef<'_>) -> Option<IntKind>
    ensures { result ≡ choice_of integer_classes (scalar_in (ref_seen v.now)) }
{
    match text_of(v) {
        Some(name) => integer_class_named(name),
        None => None,
    }
}

fn rounding_named(name: &str) -> Option<Rounding>
    ensures { result ≡ named roundings name.now }
{
    if "fix" == name {
        Some(Rounding::Fix)
    } else if "floor" == name {
        Some(Rounding::Floor)
    } else if "ceil" == name {
        Some(Rounding::Ceil)
    } else if "round" == name {
        Some(Rounding::Round)
    } else {
        None
    }
}

/// The name of a rounding.
pub(crate) fn rounding(v: &MemoryRef<'_>) -> Option<Rounding>
    ensures { result ≡ choice_of roundings (scalar_in (ref_seen v.now)) }
{
    match text_of(v) {
        Some(name) => rounding_named(name),
        None => None,
    }
}

fn method_named(name: &str) -> Option<Method>
    ensures { result ≡ named methods name.now }
{
    if "sum" == name {
        Some(Method::Sum)
    } else if "sumnative" == name {
        Some(Method::SumNative)
    } else if "min" == name {
        Some(Method::Min)
    } else if "max" == name {
        Some(Method::Max)
    } else if "nnz" == name {
        Some(Method::Nnz)
    } else if "nummissing" == name {
        Some(Method::Nummissing)
    } else {
        None
    }
}

/// The name of a method of `groupsummary`.
pub(crate) fn method(v: &MemoryRef<'_>) -> Option<Method>
    ensures { result ≡ choice_of methods (scalar_in (ref_seen v.now)) }
{
    match text_of(v) {
        Some(name) => method_named(name),
        None => None,
    }
}
