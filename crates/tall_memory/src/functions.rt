//! Functions of values by name (docs/LANGUAGE.md, functions).
ghost use Rattle.std.specs.Prelude.{◌≡◌, drop, take};
ghost use Rattle.tall_local.specs.Functions.{value_functions};
ghost use Rattle.tall_local.specs.Names.{named};
ghost use Rattle.tall_memory.specs.Named.{option_or};

use tall_local::ValueFunction;
use tall_value::{Binary, Reduction, Scan, Unary};

fn reduction_named(name: &str) -> Option<ValueFunction>
    ensures { result ≡ named (take 8 value_functions) name.now }
{
    if "sum" == name {
        Some(ValueFunction::Sum)
    } else if "min" == name {
        Some(ValueFunction::Reduction(Reduction::Min))
    } else if "max" == name {
        Some(ValueFunction::Reduction(Reduction::Max))
    } else if "any" == name {
        Some(ValueFunction::Reduction(Reduction::Any))
    } else if "all" == name {
        Some(ValueFunction::Reduction(Reduction::All))
    } else if "nnz" == name {
        Some(ValueFunction::Reduction(Reduction::Nnz))
    } else if "numel" == name {
        Some(ValueFunction::Reduction(Reduction::Numel))
    } else if "height" == name {
        Some(ValueFunction::Height)
    } else {
        None
    }
}

fn rows_named(name: &str) -> Option<ValueFunction>
    ensures { result ≡ named (take 7 (drop 8 value_functions)) name.now }
{
    if "cumsum" == name {
        Some(ValueFunction::Scan(Scan::CumSum))
    } else if "cummin" == name {
        Some(ValueFunction::Scan(Scan::CumMin))
    } else if "cummax" == name {
        Some(ValueFunction::Scan(Scan::CumMax))
    } else if "head" == name {
        Some(ValueFunction::Head)
    } else if "tail" == name {
        Some(ValueFunction::Tail)
    } else if "unique" == name {
        Some(ValueFunction::Unique)
    } else if "groupsummary" == name {
        Some(ValueFunction::GroupSummary)
    } else {
        None
    }
}

fn pair_named(name: &str) -> Option<ValueFunction>
    ensures { result ≡ named (take 8 (drop 15 value_functions)) name.now }
{
    if "intmax" == name {
        Some(ValueFunction::IntMax)
    } else if "intmin" == name {
        Some(ValueFunction::IntMin)
    } else if "idivide" == name {
        Some(ValueFunction::Idivide)
    } else if "mod" == name {
        Some(ValueFunction::Binary(Binary::Modulo))
    } else if "bitand" == name {
        Some(ValueFunction::Binary(Binary::BitAnd))
    } else if "bitor" == name {
        Some(ValueFunction::Binary(Binary::BitOr))
    } else if "bitxor" == name {
        Some(ValueFunction::Binary(Binary::BitXor))
    } else if "strcmp" == name {
        Some(ValueFunction::Binary(Binary::StrCmp))
    } else {
        None
    }
}

fn integer_named(name: &str) -> Option<ValueFunction>
    ensures { result ≡ named (take 9 (drop 23 value_functions)) name.now }
{
    if "abs" == name {
        Some(ValueFunction::Unary(Unary::Abs))
    } else if "int8" == name {
        Some(ValueFunction::Unary(Unary::ToInt8))
    } else if "int16" == name {
        Some(ValueFunction::Unary(Unary::ToInt16))
    } else if "int32" == name {
        Some(ValueFunction::Unary(Unary::ToInt32))
    } else if "int64" == name {
        Some(ValueFunction::Unary(Unary::ToInt64))
    } else if "uint8" == name {
        Some(ValueFunction::Unary(Unary::ToUint8))
    } else if "uint16" == name {
        Some(ValueFunction::Unary(Unary::ToUint16))
    } else if "uint32" == name {
        Some(ValueFunction::Unary(Unary::ToUint32))
    } else if "uint64" == name {
        Some(ValueFunction::Unary(Unary::ToUint64))
    } else {
        None
    }
}

fn class_named(name: &str) -> Option<ValueFunction>
    ensures { result ≡ named (drop 32 value_functions) name.now }
{
    if "double" == name {
        Some(ValueFunction::Unary(Unary::ToDouble))
    } else if "logical" == name {
        Some(ValueFunction::Unary(Unary::ToLogical))
    } else if "isnan" == name {
        Some(ValueFunction::Unary(Unary::IsNan))
    } else {
        None
    }
}

/// The first function that is there.
fn or_else(first: Option<ValueFunction>, second: Option<ValueFunction>) -> Option<ValueFunction>
    ensures { result ≡ option_or first second }
{
    match first {
        Some(f) => Some(f),
        None => second,
    }
}

#[tactic(auto, using(crate::proofs::NamedLemmas::all_functions))]
/// The function of values of a name.
pub fn value_function_named(name: &str) -> Option<ValueFunction>
    ensures { result ≡ named value_functions name.now }
{
    or_else(
        reduction_named(name),
        or_else(
            rows_named(name),
            or_else(
                pair_named(name),
                or_else(integer_named(name), class_named(name)),
            ),
        ),
    )
}
