//! The scope of an expression: what names, operators, indexes and calls mean in a function.
ghost use Rattle.std.specs.Prelude.{◌≡◌, IfOk, None, map};
ghost use Rattle.tall_local.specs.Locals.{is_held, read_local};
ghost use Rattle.tall_local.specs.Names.{named};
ghost use Rattle.tall_local.specs.Locals.{held_call, held_index};
ghost use Rattle.tall_local.specs.Expressions.{answered};
ghost use Rattle.tall_local.specs.declared.functions.LocalFunction.TheVariants.{Elsewhere, GetNext, HasNext, OfValues};
ghost use Rattle.tall_evaluate.specs.Senses.{CallDoes, DoesValue, argument_seen};
ghost use Rattle.tall_fun.specs.Scopes.{has_next, scope_senses};
ghost use Rattle.tall_fun.specs.Values.{GivesHeld, held_seen};

use crate::applications::{
    function_called, indexed, infix_of, is_only_iterator, member_of, prefix_of,
};
use crate::failures::{Failure, Refused, no_memory};
use crate::functions::function_named;
use crate::names::Names;
use crate::values::{LocalValue, at_line, kept_scalar, undefined_fault};
use std::alloc::Global;
use tall_column::{Column, Texts};
use tall_evaluate::{Argument, Language, Place};
use tall_grammar::{Infix, Prefix};
use tall_int::Whole;
use tall_kv::Pairs;
use tall_local::{LocalFunction, ValueFunction};
use tall_memory::{MemoryFault, MemoryValue, constant_named};
use tall_value::{Cell, Name, Text};

/// The names of a function as an expression sees them, the values of its iterator, and how many of them were given.
#[derive(Drop)]
pub(crate) struct Scope<'n> {
    pub(crate) alloc: Global,
    pub(crate) names: &'n Names<'n>,
    pub(crate) values: &'n Column,
    pub(crate) given: usize,
    pub(crate) turns: u32,
    pub(crate) pairs: &'n Pairs,
}

/// What a name stands for that is none of the function's own.
fn constant<'n>(alloc: Global, name: &str) -> Result<LocalValue<'n>, MemoryFault>
    ensures { GivesHeld (read_local name.now None) result }
{
    match constant_named(name) {
        Some(c) => kept_scalar(alloc, &c),
        None => Err(undefined_fault(alloc, name)),
    }
}

#[tactic(auto, using(crate::proofs::ScopeLaws::read_value))]
/// What a name stands for.
fn value_named<'n>(
    alloc: Global,
    names: &'n Names<'n>,
    name: &str,
) -> Result<LocalValue<'n>, MemoryFault>
    ensures { GivesHeld (read_local name.now (named names.now name.now)) result }
{
    match names.get(name) {
        Some(LocalValue::NoValue) => Err(undefined_fault(alloc, name)),
        Some(v) => v.lend(alloc),
        None => constant(alloc, name),
    }
}

/// A name has a value.
pub(crate) fn has_value(names: &Names<'_>, name: &str) -> bool
    ensures { result ≡ is_held (named names.now name.now) }
{
    match names.get(name) {
        Some(LocalValue::NoValue) => false,
        Some(_) => true,
        None => false,
    }
}

/// `hasnext`: whether a value is left.
fn has_next<'n>(
    alloc: Global,
    values: &Column,
    given: usize,
    args: &[Argument<'_, LocalValue<'_>>],
) -> Result<LocalValue<'n>, MemoryFault>
    ensures { GivesHeld (has_next values.now.cells given (map (argument_seen held_seen) args.now)) result }
{
    if is_only_iterator(args) {
        kept_scalar(alloc, &Cell::Logical(given < values.len()))
    } else {
        Err(MemoryFault::BadArgument)
    }
}

impl<'n> Scope<'n> {
    /// A function of values.
    fn call_value_function(
        &mut self,
        line: u32,
        f: ValueFunction,
        args: &[Argument<'_, LocalValue<'_>>],
    ) -> Result<LocalValue<'n>, Failure>
        ensures { DoesValue scope_senses (λ key_values s. held_call key_values line (OfValues f) (map (argument_seen held_seen) args.now) s) self.old self.new result }
    {
        at_line(line, function_called(self.alloc, f, args))
    }

    /// `hasnext`: whether a value is left.
    fn call_has_next(
        &mut self,
        line: u32,
        args: &[Argument<'_, LocalValue<'_>>],
    ) -> Result<LocalValue<'n>, Failure>
        ensures { DoesValue scope_senses (λ key_values s. held_call key_values line HasNext (map (argument_seen held_seen) args.now) s) self.old self.new result }
    {
        at_line(line, has_next(self.alloc, self.values, self.given, args))
    }

    /// A function that stands in scripts alone, or `add`, which is a statement.
    fn refuse_elsewhere(
        &mut self,
        line: u32,
        args: &[Argument<'_, LocalValue<'_>>],
    ) -> Result<LocalValue<'n>, Failure>
        ensures { DoesValue scope_senses (λ key_values s. held_call key_values line Elsewhere (map (argument_seen held_seen) args.now) s) self.old self.new result }
    {
        at_line(line, Err(MemoryFault::BadArgument))
    }

    /// `getnext`: the next of the iterator's values.
    fn get_next(
        &mut self,
        line: u32,
        args: &[Argument<'_, LocalValue<'_>>],
    ) -> Result<LocalValue<'n>, Failure>
        ensures { DoesValue scope_senses (λ key_values s. held_call key_values line GetNext (map (argument_seen held_seen) args.now) s) self.old self.new result }
    {
        if !is_only_iterator(args) {
            return at_line(line, Err(MemoryFault::BadArgument));
        }
        if self.given >= self.values.len() {
            return Err(Failure {
                line,
                refused: Refused::EndOfValues,
            });
        }
        let value = at_line(line, kept_scalar(self.alloc, &self.values.get(self.given)));
        self.given += 1;
        value
    }

    /// A call of a function.
    pub(crate) fn call(
        &mut self,
        place: Place,
        function: LocalFunction,
        arguments: Vec<Argument<'_, LocalValue<'n>>>,
    ) -> Result<LocalValue<'n>, Failure>
        ensures { CallDoes scope_senses place.number place.line function arguments.entry.items self.old self.new result }
    {
        let args = arguments.as_slice();
        match function {
            LocalFunction::OfValues(f) => self.call_value_function(place.line, f, args),
            LocalFunction::HasNext => self.call_has_next(place.line, args),
            LocalFunction::GetNext => self.get_next(place.line, args),
            LocalFunction::Elsewhere => self.refuse_elsewhere(place.line, args),
        }
    }
}

impl<'n> Language for Scope<'n> {
    type Function = LocalFunction;

    type Value = LocalValue<'n>;

    type Failure = Failure;

    ghost use Rattle.std.specs.Prelude.{List};
    ghost use Rattle.tall_value.specs.Cells.{Seen};
    ghost use Rattle.tall_local.specs.declared.functions.LocalFunction.{LocalFunction};
    ghost use Rattle.tall_local.specs.Locals.{Held, Locals};
    ghost use Rattle.tall_fun.specs.Scopes.{scope_laws, scope_senses};

    ghost F = { LocalFunction };

    ghost V = { Held };

    ghost S = { Locals };

    ghost Sense = { List Seen };

    ghost senses = { scope_senses };

    fn number(&self, value: Whole) -> Result<LocalValue<'n>, Failure> {
        at_line(0, kept_scalar(self.alloc, &Cell::Double(value)))
    }

    fn text(&self, value: &Text) -> Result<LocalValue<'n>, Failure> {
        at_line(0, kept_scalar(self.alloc, &Cell::Text(value.as_str())))
    }

    fn list(&self, values: Texts) -> Result<LocalValue<'n>, Failure> {
        Ok(LocalValue::Kept(MemoryValue::Texts(values)))
    }

    fn name(&self, line: u32, name: &Name) -> Result<LocalValue<'n>, Failure> {
        at_line(line, value_named(self.alloc, self.names, name.as_str()))
    }

    fn has_value(&self, name: &Name) -> bool {
        has_value(self.names, name.as_str())
    }

    fn handle(&self, line: u32, _name: &Name) -> Failure {
        Failure {
            line,
            refused: Refused::Value(MemoryFault::BadArgument),
        }
    }

    fn function_named(&self, name: &Name) -> Option<LocalFunction> {
        function_named(name.as_str())
    }

    fn takes_handles(&self, _function: LocalFunction) -> bool {
        false
    }

    fn function_is_there(&self, _name: &Name) -> bool {
        false
    }

    fn undefined(&self, line: u32, name: &Name) -> Failure {
        Failure {
            line,
            refused: Refused::Value(undefined_fault(self.alloc, name.as_str())),
        }
    }

    fn out_of_memory(&self) -> Failure {
        no_memory()
    }

    fn prefix(
        &mut self,
        place: Place,
        op: Prefix,
        operand: LocalValue<'n>,
    ) -> Result<LocalValue<'n>, Failure> {
        at_line(place.line, prefix_of(self.alloc, op, &operand))
    }

    fn infix(
        &mut self,
        place: Place,
        op: Infix,
        left: LocalValue<'n>,
        right: LocalValue<'n>,
    ) -> Result<LocalValue<'n>, Failure> {
        at_line(place.line, infix_of(self.alloc, op, &left, &right))
    }

    fn member(
        &mut self,
        place: Place,
        whole: LocalValue<'n>,
        name: &Name,
    ) -> Result<LocalValue<'n>, Failure> {
        at_line(place.line, member_of(self.alloc, &whole, name.as_str()))
    }

    fn index(
        &mut self,
        place: Place,
        whole: LocalValue<'n>,
        arguments: Vec<Argument<'_, LocalValue<'n>>>,
    ) -> Result<LocalValue<'n>, Failure>
        ensures does { DoesValue scope_senses (λ key_values s. answered place.line s (held_index (held_seen whole.entry) (map (argument_seen held_seen) arguments.entry.items))) self.old self.new result }
        ensures done { IfOk result (λ _. Unit {0}) }
        ensures still { Unit {0} }
    {
        at_line(
            place.line,
            indexed(self.alloc, &whole, arguments.as_slice()),
        )
    }

    ghost laws = { scope_laws };
}
