//! What follows the last expression of a statement.
ghost use Rattle.std.specs.Prelude.{◌≡◌, [], length, option_map};
ghost use Rattle.tall_grammar.specs.Views.{tree_of};
ghost use Rattle.tall_local.specs.Refusals.{bad_argument, stop_at};
ghost use Rattle.tall_script.specs.Statements as spec;
ghost use Rattle.tall_script.specs.Statements.{alone, fails, set_names, shown_text, shows};
ghost use Rattle.tall_deferred.specs.Values.{IsValue, value_at};
ghost use Rattle.tall_environment.specs.Expressions.{memories_at};
ghost use Rattle.tall_statements.specs.Answers.{Ends};
ghost use Rattle.tall_statements.specs.Endings.{name_alone};

use crate::assigning::{assign, assign_each};
use crate::texts::show;
use std::alloc::Global;
use std::rc::Rc;
use tall_deferred::ScriptValue;
use tall_environment::{Environment, Failure, Refusal};
use tall_grammar::{Expr, Node};
use tall_memory::MemoryValue;
use tall_value::Name;

/// A name gets the value, and is shown.
pub(crate) fn end_assigned(
    alloc: Global,
    environment: &mut Environment,
    shown: bool,
    name: &str,
    value: ScriptValue,
) -> Result<Vec<u8>, Failure>
    requires { IsValue (length environment.old.graph) value }
    ensures { Ends (λ f s. spec.assign shown name.now (value_at f value) s) environment.old environment.new result }
{
    let mut text = Vec::new(alloc);
    match assign(alloc, environment, shown, name, value, &mut text) {
        Ok(()) => Ok(text),
        Err(_) => Err(Failure::Memory),
    }
}

/// Each name gets its value, and they are shown in their order.
pub(crate) fn end_named(
    alloc: Global,
    environment: &mut Environment,
    shown: bool,
    names: &[Name],
    values: Vec<Rc<MemoryValue>>,
) -> Result<Vec<u8>, Failure>
    ensures { Ends (λ f s. set_names shown names.now (memories_at f values) [] s) environment.old environment.new result }
{
    match assign_each(alloc, environment, shown, names, values) {
        Ok(text) => Ok(text),
        Err(_) => Err(Failure::Memory),
    }
}

/// The name that an expression is.
fn name_of(e: &Expr) -> Option<&Name>
    ensures { option_map (λ x. x.now) result ≡ name_alone (tree_of e.now) }
{
    match &e.node {
        Node::Number(_) => None,
        Node::Text(_) => None,
        Node::Name(name) => Some(name),
        Node::List(_) => None,
        Node::Handle(_) => None,
        Node::Prefix(_, _) => None,
        Node::Infix(_, _, _) => None,
        Node::Member(_, _) => None,
        Node::Call(_, _) => None,
    }
}

/// The value of a name is shown, and nothing is assigned.
fn end_shown(
    alloc: Global,
    environment: &Environment,
    shown: bool,
    name: &str,
    value: &ScriptValue,
) -> Result<Vec<u8>, Failure>
    requires { IsValue (length environment.now.graph) value.now }
    ensures { Ends (λ f s. shows (shown_text shown name.now (value_at f value.now)) s) environment.now environment.now result }
{
    let mut text = Vec::new(alloc);
    match show(alloc, environment.graph(), shown, name, value, &mut text) {
        Ok(()) => Ok(text),
        Err(_) => Err(Failure::Memory),
    }
}

/// An expression alone: a name is shown, and all else is assigned to `ans`.
pub(crate) fn end_alone(
    alloc: Global,
    environment: &mut Environment,
    shown: bool,
    e: &Expr,
    value: ScriptValue,
) -> Result<Vec<u8>, Failure>
    requires { IsValue (length environment.old.graph) value }
    ensures { Ends (λ f s. alone shown (tree_of e.now) (value_at f value) s) environment.old environment.new result }
{
    match name_of(e) {
        Some(name) => end_shown(alloc, environment, shown, name.as_str(), &value),
        None => end_assigned(alloc, environment, shown, "ans", value),
    }
}

/// Arguments that are not accepted, on a line.
pub(crate) fn end_refused(_environment: &Environment, line: u32) -> Result<Vec<u8>, Failure>
    ensures { Ends (λ _ s. fails (stop_at line bad_argument) s) _environment.now _environment.now result }
{
    Err(Failure::Refused {
        line,
        refusal: Refusal::BadArgument,
    })
}
