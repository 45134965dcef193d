//! The functions that a map or a reduce function may call, by name.
ghost use Rattle.std.specs.Prelude.{◌≡◌};
ghost use Rattle.tall_local.specs.Applications.{takes};
ghost use Rattle.tall_local.specs.Functions.{local_function_named};
ghost use Rattle.tall_local.specs.Names.{named};
ghost use Rattle.tall_fun.specs.Values.{own_functions};

use tall_local::{LocalFunction, ValueFunction};
use tall_memory::value_function_named;

fn own_function_named(name: &str) -> Option<LocalFunction>
    ensures { result ≡ named own_functions name.now }
{
    if "hasnext" == name {
        Some(LocalFunction::HasNext)
    } else if "getnext" == name {
        Some(LocalFunction::GetNext)
    } else if "add" == name {
        Some(LocalFunction::Elsewhere)
    } else if "tabularTextDatastore" == name {
        Some(LocalFunction::Elsewhere)
    } else if "tall" == name {
        Some(LocalFunction::Elsewhere)
    } else if "gather" == name {
        Some(LocalFunction::Elsewhere)
    } else if "mapreduce" == name {
        Some(LocalFunction::Elsewhere)
    } else if "readall" == name {
        Some(LocalFunction::Elsewhere)
    } else {
        None
    }
}

#[tactic(auto, using(crate::proofs::NameLemmas::of_values_named, crate::proofs::NameLemmas::own_named))]
/// The function of a name.
pub(crate) fn function_named(name: &str) -> Option<LocalFunction>
    ensures { result ≡ local_function_named name.now }
{
    match value_function_named(name) {
        Some(f) => Some(LocalFunction::OfValues(f)),
        None => own_function_named(name),
    }
}

/// So many arguments are those of some form.
pub(crate) fn takes(f: ValueFunction, n: usize) -> bool
    ensures { result ≡ takes f n }
{
    match f {
        ValueFunction::Sum => n == 1 || n == 2 || n == 3,
        ValueFunction::Reduction(_) => n == 1,
        ValueFunction::Height => n == 1,
        ValueFunction::Scan(_) => n == 1,
        ValueFunction::Head => n == 1 || n == 2,
        ValueFunction::Tail => n == 1 || n == 2,
        ValueFunction::Unique => n == 1,
        ValueFunction::GroupSummary => n == 2 || n == 4,
        ValueFunction::IntMax => n == 1,
        ValueFunction::IntMin => n == 1,
        ValueFunction::Idivide => n == 2 || n == 3,
        ValueFunction::Binary(_) => n == 2,
        ValueFunction::Unary(_) => n == 1,
    }
}
