//! The functions of a script by name.
ghost use Rattle.std.specs.Prelude.{◌≡◌, map};
ghost use Rattle.std.specs.Option.{is_some};
ghost use Rattle.tall_grammar.specs.Views.{routine_of};
ghost use Rattle.tall_local.specs.Functions.{script_function_named};
ghost use Rattle.tall_local.specs.Names.{named};
ghost use Rattle.tall_script.specs.ScriptLanguage.{function_in, is_mapreduce};
ghost use Rattle.tall_expressions.specs.Names.{own_functions};

use tall_grammar::Function;
use tall_local::ScriptFunction;
use tall_memory::value_function_named;

fn own_function_named(name: &str) -> Option<ScriptFunction>
    ensures { result ≡ named own_functions name.now }
{
    if "tabularTextDatastore" == name {
        Some(ScriptFunction::TabularTextDatastore)
    } else if "tall" == name {
        Some(ScriptFunction::Tall)
    } else if "gather" == name {
        Some(ScriptFunction::Gather)
    } else if "mapreduce" == name {
        Some(ScriptFunction::MapReduce)
    } else if "readall" == name {
        Some(ScriptFunction::ReadAll)
    } else if "hasnext" == name {
        Some(ScriptFunction::Elsewhere)
    } else if "getnext" == name {
        Some(ScriptFunction::Elsewhere)
    } else if "add" == name {
        Some(ScriptFunction::Elsewhere)
    } else {
        None
    }
}

/// The function of a name that a script may call.
#[tactic(auto, using(crate::proofs::NameLaws::of_values_named, crate::proofs::NameLaws::own_named))]
pub(crate) fn function_named(name: &str) -> Option<ScriptFunction>
    ensures { result ≡ script_function_named name.now }
{
    match value_function_named(name) {
        Some(f) => Some(ScriptFunction::OfValues(f)),
        None => own_function_named(name),
    }
}

/// A call takes `@` with the name of a function.
pub(crate) fn takes_handles(function: ScriptFunction) -> bool
    ensures { result ≡ is_mapreduce function }
{
    match function {
        ScriptFunction::MapReduce => true,
        ScriptFunction::OfValues(_) => false,
        ScriptFunction::TabularTextDatastore => false,
        ScriptFunction::Tall => false,
        ScriptFunction::Gather => false,
        ScriptFunction::ReadAll => false,
        ScriptFunction::Elsewhere => false,
    }
}

/// The script has a function of this name.
pub(crate) fn is_there(functions: &[Function], name: &str) -> bool
    ensures { is_some (function_in (map routine_of functions.now) name.now) ≡ result }
{
    for function in functions {
        if function.name.as_str() == name {
            return true;
        }
    }
    false
}
