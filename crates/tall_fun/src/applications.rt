//! Operators, indexes and calls of functions over values of a function. A store and an iterator have no other use than their own.
ghost use Rattle.std.specs.Prelude.{◌≡◌, ◌∷◌, [], List, Some, map, option_map};
ghost use Rattle.std.specs.Option.{is_some};
ghost use Rattle.tall_local.specs.Applications.{application};
ghost use Rattle.tall_local.specs.Arguments.{index_of, value_given};
ghost use Rattle.tall_local.specs.Lists.{all_of};
ghost use Rattle.tall_local.specs.Locals.{argument_by, held, held_binary, held_function, held_index, held_infix, is_only_iterator, memory_of, value, with_memory};
ghost use Rattle.tall_local.specs.Memory as memory;
ghost use Rattle.tall_local.specs.Memory.{Memory, scalar_in};
ghost use Rattle.tall_local.specs.MemoryFunctions.{memory_application};
ghost use Rattle.tall_local.specs.MemoryIndexing.{memory_index, memory_member};
ghost use Rattle.tall_local.specs.MemoryOperators.{memory_prefix};
ghost use Rattle.tall_local.specs.Refusals.{and_then, bad_argument, bad_class, or_refuse};
ghost use Rattle.tall_memory.specs.Shapes.{application_seen};
ghost use Rattle.tall_memory.specs.Values.{Gives, ref_seen, value_seen};
ghost use Rattle.tall_evaluate.specs.Senses.{argument_seen};
ghost use Rattle.tall_fun.specs.Values.{GivesHeld, held_seen, is_colon, is_one_colon, memory_given, only_value, value_before_colon};

use crate::functions::takes;
use crate::values::{LocalValue, copied, kept, undefined_fault};
use std::alloc::Global;
use tall_column::Table;
use tall_evaluate::Argument;
use tall_functions::memory_application;
use tall_grammar::{Infix, Prefix};
use tall_local::ValueFunction;
use tall_memory::{
    Application, Index, MemoryFault, MemoryRef, MemoryValue, application_of, binary_of,
    memory_binary, memory_index, memory_member, memory_prefix, scalars_fit,
};
use tall_value::Cell;

/// An operator before its operand.
pub(crate) fn prefix_of<'n>(
    alloc: Global,
    op: Prefix,
    operand: &LocalValue<'_>,
) -> Result<LocalValue<'n>, MemoryFault>
    ensures { GivesHeld (with_memory (held_seen operand.now) (memory_prefix op)) result }
{
    match operand.memory() {
        Some(v) => kept(memory_prefix(alloc, op, &v)),
        None => Err(MemoryFault::BadClass),
    }
}

#[tactic(auto, unfolding(tall_local::specs::Locals::held_infix))]
/// An operator between two operands.
pub(crate) fn infix_of<'n>(
    alloc: Global,
    op: Infix,
    left: &LocalValue<'_>,
    right: &LocalValue<'_>,
) -> Result<LocalValue<'n>, MemoryFault>
    ensures { GivesHeld (held_infix op (held_seen left.now) (held_seen right.now)) result }
{
    if scalars_fit(op, left.is_scalar(), right.is_scalar()) {
        both_of(alloc, op, left, right)
    } else {
        Err(MemoryFault::BadArgument)
    }
}

/// An operator between two operands of which the scalars fit.
fn both_of<'n>(
    alloc: Global,
    op: Infix,
    left: &LocalValue<'_>,
    right: &LocalValue<'_>,
) -> Result<LocalValue<'n>, MemoryFault>
    ensures { GivesHeld (held_binary op (held_seen left.now) (held_seen right.now)) result }
{
    match left.memory() {
        Some(v) => after_memory(alloc, op, &v, right),
        None => Err(MemoryFault::BadClass),
    }
}

/// An operator behind a value in memory.
fn after_memory<'n>(
    alloc: Global,
    op: Infix,
    v: &MemoryRef<'_>,
    right: &LocalValue<'_>,
) -> Result<LocalValue<'n>, MemoryFault>
    ensures { GivesHeld (held_binary op (value (ref_seen v.now)) (held_seen right.now)) result }
{
    match right.memory() {
        Some(w) => kept(memory_binary(alloc, binary_of(op), v, &w)),
        None => Err(MemoryFault::BadClass),
    }
}

/// A variable of a kept table, copied.
fn kept_variable<'n>(
    alloc: Global,
    whole: &MemoryValue,
    name: &str,
) -> Result<LocalValue<'n>, MemoryFault>
    ensures { GivesHeld (held (memory_member (value_seen whole.now) name.now)) result }
{
    let whole = whole.lend();
    match memory_member(alloc, &whole, name) {
        Ok(x) => kept(copied(alloc, &x)),
        Err(fault) => Err(fault),
    }
}

#[tactic(auto, unfolding(tall_local::specs::MemoryIndexing::memory_member))]
/// A variable of a table, of which a lent one lends it.
pub(crate) fn member_of<'n>(
    alloc: Global,
    whole: &LocalValue<'n>,
    name: &str,
) -> Result<LocalValue<'n>, MemoryFault>
    ensures { GivesHeld (with_memory (held_seen whole.now) (λ v. memory_member v name.now)) result }
{
    match whole {
        LocalValue::Table(t) => lent_variable(alloc, t, name),
        LocalValue::Kept(v) => kept_variable(alloc, v, name),
        LocalValue::Column(_) => Err(MemoryFault::BadArgument),
        LocalValue::Texts(_) => Err(MemoryFault::BadArgument),
        LocalValue::Store => Err(MemoryFault::BadClass),
        LocalValue::Iterator => Err(MemoryFault::BadClass),
        LocalValue::NoValue => Err(MemoryFault::BadClass),
    }
}

#[tactic(auto, unfolding(tall_local::specs::MemoryIndexing::memory_member))]
fn lent_variable<'n>(alloc: Global, t: &'n Table, name: &str) -> Result<LocalValue<'n>, MemoryFault>
    ensures { GivesHeld (held (memory_member (memory.table t.now) name.now)) result }
{
    match t.column(name) {
        Some(x) => Ok(LocalValue::Column(x)),
        None => Err(undefined_fault(alloc, name)),
    }
}

/// The value of an argument, if it has one.
fn value_in<'v, 'n>(arg: &'v Argument<'_, LocalValue<'n>>) -> Option<&'v LocalValue<'n>>
    ensures { option_map (λ v. held_seen v.now) result ≡ value_given (argument_seen held_seen arg.now) }
{
    match arg {
        Argument::Given(v) => Some(v),
        Argument::Colon => None,
        Argument::Function(_) => None,
    }
}

/// The only argument, which is a value.
fn only_value<'v, 'n>(args: &'v [Argument<'_, LocalValue<'n>>]) -> Option<&'v LocalValue<'n>>
    ensures { option_map (λ v. held_seen v.now) result ≡ only_value (map (argument_seen held_seen) args.now) }
{
    match args {
        [] => None,
        [first, others @ ..] => {
            if others.is_empty() {
                value_in(first)
            } else {
                None
            }
        }
    }
}

/// A value before `:`, and no other argument.
fn value_before_colon<'v, 'n>(
    args: &'v [Argument<'_, LocalValue<'n>>],
) -> Option<&'v LocalValue<'n>>
    ensures { option_map (λ v. held_seen v.now) result ≡ value_before_colon (map (argument_seen held_seen) args.now) }
{
    match args {
        [] => None,
        [first, rest @ ..] => {
            if is_one_colon(rest) {
                value_in(first)
            } else {
                None
            }
        }
    }
}

fn is_one_colon(args: &[Argument<'_, LocalValue<'_>>]) -> bool
    ensures { result ≡ is_one_colon (map (argument_seen held_seen) args.now) }
{
    match args {
        [] => false,
        [first, others @ ..] => others.is_empty() && is_colon(first),
    }
}

fn is_colon(arg: &Argument<'_, LocalValue<'_>>) -> bool
    ensures { result ≡ is_colon (argument_seen held_seen arg.now) }
{
    match arg {
        Argument::Given(_) => false,
        Argument::Colon => true,
        Argument::Function(_) => false,
    }
}

/// The value of an argument is in memory, if it has one.
fn is_in_memory(arg: &Argument<'_, LocalValue<'_>>) -> bool
    ensures { result ≡ is_some (argument_by memory_of (argument_seen held_seen arg.now)) }
{
    match arg {
        Argument::Given(v) => v.is_memory(),
        Argument::Colon => true,
        Argument::Function(_) => true,
    }
}

/// The values of all arguments are in memory.
fn are_in_memory(args: &[Argument<'_, LocalValue<'_>>]) -> bool
    ensures { result ≡ is_some (all_of (argument_by memory_of) (map (argument_seen held_seen) args.now)) }
{
    for arg in args {
        if !is_in_memory(arg) {
            return false;
        }
    }
    true
}

/// An index of a value.
pub(crate) fn indexed<'n>(
    alloc: Global,
    whole: &LocalValue<'_>,
    args: &[Argument<'_, LocalValue<'_>>],
) -> Result<LocalValue<'n>, MemoryFault>
    ensures { GivesHeld (held_index (held_seen whole.now) (map (argument_seen held_seen) args.now)) result }
{
    match whole.memory() {
        Some(v) => index_in_memory(alloc, &v, args),
        None => Err(MemoryFault::BadClass),
    }
}

/// An index of a value in memory.
fn index_in_memory<'n>(
    alloc: Global,
    v: &MemoryRef<'_>,
    args: &[Argument<'_, LocalValue<'_>>],
) -> Result<LocalValue<'n>, MemoryFault>
    ensures { GivesHeld (held (and_then (or_refuse bad_class (all_of (argument_by memory_of) (map (argument_seen held_seen) args.now))) (λ given. memory_index (ref_seen v.now) (index_of given)))) result }
{
    if !are_in_memory(args) {
        return Err(MemoryFault::BadClass);
    }
    if let Some(i) = only_value(args) {
        let index = Index::Rows(i.as_memory());
        return kept(memory_index(alloc, v, &index));
    }
    if let Some(i) = value_before_colon(args) {
        let index = Index::AllVariables(i.as_memory());
        return kept(memory_index(alloc, v, &index));
    }
    let index = Index::OtherForm;
    kept(memory_index(alloc, v, &index))
}

fn is_given(arg: &Argument<'_, LocalValue<'_>>) -> bool
    ensures { result ≡ is_some (value_given (argument_seen held_seen arg.now)) }
{
    match arg {
        Argument::Given(_) => true,
        Argument::Colon => false,
        Argument::Function(_) => false,
    }
}

/// All arguments are values.
fn are_given(args: &[Argument<'_, LocalValue<'_>>]) -> bool
    ensures { result ≡ is_some (all_of value_given (map (argument_seen held_seen) args.now)) }
{
    for arg in args {
        if !is_given(arg) {
            return false;
        }
    }
    true
}

/// A function of values over values in memory, whose number is one that the function takes.
fn function_in_memory(
    alloc: Global,
    f: ValueFunction,
    args: &[MemoryRef<'_>],
) -> Result<MemoryValue, MemoryFault>
    ensures { Gives (and_then (or_refuse bad_argument (application scalar_in f (map ref_seen args.now))) memory_application) result }
{
    match application_of(f, args) {
        Some(application) => memory_application(alloc, &application),
        None => Err(MemoryFault::BadArgument),
    }
}

/// The value of an argument in memory; of another argument it says nothing.
fn memory_in<'v>(arg: &'v Argument<'_, LocalValue<'_>>) -> MemoryRef<'v>
    ensures { (v : Memory) → memory_given (argument_seen held_seen arg.now) ≡ Some v → ref_seen result ≡ v }
{
    match arg {
        Argument::Given(v) => v.as_memory(),
        Argument::Colon => MemoryRef::Scalar(Cell::Logical(false)),
        Argument::Function(_) => MemoryRef::Scalar(Cell::Logical(false)),
    }
}

/// A function of one value in memory.
fn of_one(
    alloc: Global,
    f: ValueFunction,
    a: &Argument<'_, LocalValue<'_>>,
) -> Result<MemoryValue, MemoryFault>
    ensures { (vs : List Memory) → all_of memory_given (argument_seen held_seen a.now ∷ []) ≡ Some vs → Gives (and_then (or_refuse bad_argument (application scalar_in f vs)) memory_application) result }
{
    function_in_memory(alloc, f, &[memory_in(a)])
}

/// A function of two values in memory.
fn of_two(
    alloc: Global,
    f: ValueFunction,
    a: &Argument<'_, LocalValue<'_>>,
    b: &Argument<'_, LocalValue<'_>>,
) -> Result<MemoryValue, MemoryFault>
    ensures { (vs : List Memory) → all_of memory_given (argument_seen held_seen a.now ∷ argument_seen held_seen b.now ∷ []) ≡ Some vs → Gives (and_then (or_refuse bad_argument (application scalar_in f vs)) memory_application) result }
{
    function_in_memory(alloc, f, &[memory_in(a), memory_in(b)])
}

/// A function of three values in memory.
fn of_three(
    alloc: Global,
    f: ValueFunction,
    a: &Argument<'_, LocalValue<'_>>,
    b: &Argument<'_, LocalValue<'_>>,
    c: &Argument<'_, LocalValue<'_>>,
) -> Result<MemoryValue, MemoryFault>
    ensures { (vs : List Memory) → all_of memory_given (argument_seen held_seen a.now ∷ argument_seen held_seen b.now ∷ argument_seen held_seen c.now ∷ []) ≡ Some vs → Gives (and_then (or_refuse bad_argument (application scalar_in f vs)) memory_application) result }
{
    function_in_memory(alloc, f, &[memory_in(a), memory_in(b), memory_in(c)])
}

/// A function of four values in memory.
fn of_four(
    alloc: Global,
    f: ValueFunction,
    a: &Argument<'_, LocalValue<'_>>,
    b: &Argument<'_, LocalValue<'_>>,
    c: &Argument<'_, LocalValue<'_>>,
    d: &Argument<'_, LocalValue<'_>>,
) -> Result<MemoryValue, MemoryFault>
    ensures { (vs : List Memory) → all_of memory_given (argument_seen held_seen a.now ∷ argument_seen held_seen b.now ∷ argument_seen held_seen c.now ∷ argument_seen held_seen d.now ∷ []) ≡ Some vs → Gives (and_then (or_refuse bad_argument (application scalar_in f vs)) memory_application) result }
{
    function_in_memory(
        alloc,
        f,
        &[memory_in(a), memory_in(b), memory_in(c), memory_in(d)],
    )
}

/// A function over the values of its arguments, which are in memory. No function takes more than four, so more do not come.
fn function_of_values(
    alloc: Global,
    f: ValueFunction,
    args: &[Argument<'_, LocalValue<'_>>],
) -> Result<MemoryValue, MemoryFault>
    ensures { (vs : List Memory) → all_of memory_given (map (argument_seen held_seen) args.now) ≡ Some vs
        → Gives (and_then (or_refuse bad_argument (application scalar_in f vs)) memory_application) result }
{
    match args {
        [] => Err(MemoryFault::Memory),
        [a, rest @ ..] => match rest {
            [] => of_one(alloc, f, a),
            [b, rest @ ..] => match rest {
                [] => of_two(alloc, f, a, b),
                [c, rest @ ..] => match rest {
                    [] => of_three(alloc, f, a, b, c),
                    [d, others @ ..] => {
                        if others.is_empty() {
                            of_four(alloc, f, a, b, c, d)
                        } else {
                            Err(MemoryFault::Memory)
                        }
                    }
                },
            },
        },
    }
}

/// A call of a function of values.
pub(crate) fn function_called<'n>(
    alloc: Global,
    f: ValueFunction,
    args: &[Argument<'_, LocalValue<'_>>],
) -> Result<LocalValue<'n>, MemoryFault>
    ensures { GivesHeld (held_function f (map (argument_seen held_seen) args.now)) result }
{
    if !are_given(args) {
        return Err(MemoryFault::BadArgument);
    }
    if !takes(f, args.len()) {
        return Err(MemoryFault::BadArgument);
    }
    if !are_in_memory(args) {
        return Err(MemoryFault::BadClass);
    }
    kept(function_of_values(alloc, f, args))
}

/// The iterator alone.
pub(crate) fn is_only_iterator(args: &[Argument<'_, LocalValue<'_>>]) -> bool
    ensures { result ≡ is_only_iterator (map (argument_seen held_seen) args.now) }
{
    match args {
        [] => false,
        [first, others @ ..] => others.is_empty() && is_iterator(first),
    }
}

fn is_iterator(arg: &Argument<'_, LocalValue<'_>>) -> bool
    ensures { result ≡ is_only_iterator (argument_seen held_seen arg.now ∷ []) }
{
    match arg {
        Argument::Given(LocalValue::Iterator) => true,
        _ => false,
    }
}
