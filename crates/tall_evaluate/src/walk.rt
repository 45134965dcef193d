//! One walk over an expression: its parts in the order of their numbers, up to the first that has no value.
ghost use Rattle.std.specs.Borrow.{MutBor};
ghost use Rattle.std.specs.Prelude.{◌≡◌, ◌++◌, ◌∷◌, [], IfOk, Result, Some, false, map, option_map, true};
ghost use Rattle.tall_grammar.specs.Trees.{tree};
ghost use Rattle.tall_grammar.specs.Trees as trees;
ghost use Rattle.tall_grammar.specs.Views.{arg_of, args_of, tree_of, trees_of};
ghost use Rattle.tall_local.specs.Expressions as definition;
ghost use Rattle.tall_local.specs.Expressions.{argument, arguments, gives, handle_in, listed_texts, value};
ghost use Rattle.tall_local.specs.Memory.{texts};
ghost use Rattle.tall_local.specs.StateLaws.{calls_none, calls_none_in, is_name_in};
ghost use Rattle.tall_evaluate.specs.Calls.{IfFunction, argument_value, callee_seen, function_call, value_index};
ghost use Rattle.tall_evaluate.specs.Orders.{AreInOrder, ArgsAreInOrder, first_number, last_number, own_number};
ghost use Rattle.tall_evaluate.specs.Senses.{ArgumentFits, ArgumentsFit, CallDoes, Does, DoesValue, Finds, argument_seen};

use crate::languages::{Argument, Language, Place};
use std::alloc::{AllocError, Global};
use tall_column::Texts;
use tall_grammar::{Arg, Expr, Node};
use tall_value::Name;

/// The texts of a list.
fn listed(alloc: Global, items: &[Expr]) -> Result<Texts, AllocError>
    ensures { IfOk result (λ ts. ts ≡ listed_texts (trees_of (map tree_of items.now))) }
{
    let mut texts = Texts::new(alloc);
    for item in items {
        if let Node::Text(text) = &item.node {
            texts.push(text.as_str())?;
        }
    }
    Ok(texts)
}

/// The value of a list of texts.
fn list<L: Language>(alloc: Global, language: &L, items: &[Expr]) -> Result<L::Value, L::Failure>
    ensures { Finds L.senses (λ i s. gives ((L.senses.defined i).literal (texts (listed_texts (trees_of (map tree_of items.now))))) s) language.now result }
{
    match listed(alloc, items) {
        Ok(texts) => language.list(texts),
        Err(_) => Err(language.out_of_memory()),
    }
}

/// The place of an expression.
fn place_of(e: &Expr) -> Place
    ensures number { result.number ≡ e.now.number }
    ensures line { result.line ≡ e.now.line }
{
    Place {
        number: e.number,
        line: e.line,
    }
}

/// What stands before parentheses.
enum Callee<'a, F> {
    Function(F),
    /// A name on a line that is neither a variable nor a function.
    Unknown { line: u32, name: &'a Name },
    Value,
}

/// What the expression before parentheses is.
fn what_is_called<'a, L: Language>(language: &L, e: &'a Expr) -> Callee<'a, L::Function>
    requires { L.senses.ready language.now (first_number (tree_of e.now)) }
    ensures done { IfFunction result (λ _. L.senses.done language.now (own_number (tree_of e.now))) }
    ensures closed { IfFunction result (λ f. is_name_in L.senses.opens (tree_of e.now) ≡ false → L.senses.opens_by (L.senses.named f) ≡ false) }
    ensures callee { (i : L.Sense) → L.senses.holds i language.now → definition.callee (L.senses.defined i) (L.senses.state i language.now) (tree_of e.now) ≡ callee_seen L.senses.named result }
{
    match &e.node {
        Node::Name(name) => callee_named(language, e.line, name),
        Node::Number(_) | Node::Text(_) | Node::List(_) | Node::Handle(_) => Callee::Value,
        Node::Prefix(_, _) | Node::Infix(_, _, _) | Node::Member(_, _) | Node::Call(_, _) => {
            Callee::Value
        }
    }
}

/// What a name before parentheses is: a variable with a value is no function.
fn callee_named<'a, L: Language>(language: &L, line: u32, name: &'a Name) -> Callee<'a, L::Function>
    ensures closed { IfFunction result (λ f. L.senses.opens name.now ≡ false → L.senses.opens_by (L.senses.named f) ≡ false) }
    ensures callee { (i : L.Sense) → L.senses.holds i language.now → definition.callee (L.senses.defined i) (L.senses.state i language.now) (tree line line (trees.name name.now)) ≡ callee_seen L.senses.named result }
{
    if language.has_value(name) {
        return Callee::Value;
    }
    match language.function_named(name) {
        Some(function) => Callee::Function(function),
        None => Callee::Unknown { line, name },
    }
}

#[cycle(walk)]
/// The value of an expression, or why there is none. The parts are evaluated in the order of their numbers, and the first
/// failure ends it, with what was done before it. A name before parentheses that is neither a variable nor a function is
/// refused before the arguments, and a known function's own checks come after them (docs/LANGUAGE.md, order of checks).
/// `call` is what a call of a function does, with its arguments.
pub fn evaluate<
    L: Language,
    C: Fn(&mut L, Place, L::Function, Vec<Argument<'_, L::Value>>) -> Result<L::Value, L::Failure>,
>(alloc: Global, language: &mut L, call: &C, e: &Expr) -> Result<L::Value, L::Failure>
    requires asks { (s : MutBor L) (p : Place) (f : L.Function) (args : _) → L.senses.ready s.now p.number → ArgumentsFit (L.senses.fits s.now) args.items → C.pre call.now s p f args }
    requires gives { (s t : MutBor L) (p : Place) (f : L.Function) (args : _) (r : Result L.Value L.Failure) → L.senses.ready s.now p.number → ArgumentsFit (L.senses.fits s.now) args.items → C.post call.now s p f args r t → CallDoes L.senses p.number p.line f args.items s.now t.now r }
    requires ready { L.senses.ready language.old (first_number (tree_of e.now)) }
    requires order { AreInOrder L.senses.follows (tree_of e.now) }
    ensures does { DoesValue L.senses (λ i s. value (L.senses.defined i) (tree_of e.now) s) language.old language.new result }
    ensures done { IfOk result (λ _. L.senses.done language.new (own_number (tree_of e.now))) }
    ensures still { calls_none L.senses.opens (tree_of e.now) ≡ true → L.senses.still language.old language.new }
{
    match &e.node {
        Node::Number(n) => language.number(*n),
        Node::Text(t) => language.text(t),
        Node::Name(name) => language.name(e.line, name),
        Node::List(items) => list(alloc, language, items.as_slice()),
        Node::Handle(name) => Err(language.handle(e.line, name)),
        Node::Prefix(op, inner) => {
            let operand = evaluate(alloc, language, call, inner.get())?;
            language.prefix(place_of(e), *op, operand)
        }
        Node::Infix(op, left, right) => {
            let left = evaluate(alloc, language, call, left.get())?;
            let right = evaluate(alloc, language, call, right.get())?;
            language.infix(place_of(e), *op, left, right)
        }
        Node::Member(whole, name) => {
            let whole = evaluate(alloc, language, call, whole.get())?;
            language.member(place_of(e), whole, name)
        }
        Node::Call(callee, args) => {
            let callee = callee.get();
            match what_is_called(language, callee) {
                Callee::Function(function) => {
                    called(
                        alloc,
                        language,
                        call,
                        place_of(e),
                        function,
                        callee.number,
                        args.as_slice(),
                    )
                }
                Callee::Unknown { line, name } => Err(language.undefined(line, name)),
                Callee::Value => {
                    let whole = evaluate(alloc, language, call, callee)?;
                    indexed(
                        alloc,
                        language,
                        call,
                        place_of(e),
                        whole,
                        callee.number,
                        args.as_slice(),
                    )
                }
            }
        }
    }
}

#[cycle(walk)]
/// A call of a function, whose own checks come after its arguments.
fn called<
    L: Language,
    C: Fn(&mut L, Place, L::Function, Vec<Argument<'_, L::Value>>) -> Result<L::Value, L::Failure>,
>(
    alloc: Global,
    language: &mut L,
    call: &C,
    place: Place,
    function: L::Function,
    after: u32,
    args: &[Arg],
) -> Result<L::Value, L::Failure>
    requires asks { (s : MutBor L) (p : Place) (f : L.Function) (args : _) → L.senses.ready s.now p.number → ArgumentsFit (L.senses.fits s.now) args.items → C.pre call.now s p f args }
    requires gives { (s t : MutBor L) (p : Place) (f : L.Function) (args : _) (r : Result L.Value L.Failure) → L.senses.ready s.now p.number → ArgumentsFit (L.senses.fits s.now) args.items → C.post call.now s p f args r t → CallDoes L.senses p.number p.line f args.items s.now t.now r }
    requires done { L.senses.done language.old after }
    requires order { ArgsAreInOrder L.senses.follows after (args_of (map arg_of args.now)) }
    requires whole { L.senses.follows (last_number after (args_of (map arg_of args.now))) place.number }
    ensures does { DoesValue L.senses (λ i s. function_call (L.senses.defined i) place.number place.line (L.senses.named function) (args_of (map arg_of args.now)) s) language.old language.new result }
    ensures done { IfOk result (λ _. L.senses.done language.new place.number) }
    ensures still { L.senses.opens_by (L.senses.named function) ≡ false → calls_none_in L.senses.opens (args_of (map arg_of args.now)) ≡ true → L.senses.still language.old language.new }
{
    let takes = language.takes_handles(function);
    let arguments = evaluate_arguments(alloc, language, call, takes, after, args)?;
    call(language, place, function, arguments)
}

#[cycle(walk)]
/// An index of a value, with its arguments.
fn indexed<
    L: Language,
    C: Fn(&mut L, Place, L::Function, Vec<Argument<'_, L::Value>>) -> Result<L::Value, L::Failure>,
>(
    alloc: Global,
    language: &mut L,
    call: &C,
    place: Place,
    whole: L::Value,
    after: u32,
    args: &[Arg],
) -> Result<L::Value, L::Failure>
    requires asks { (s : MutBor L) (p : Place) (f : L.Function) (args : _) → L.senses.ready s.now p.number → ArgumentsFit (L.senses.fits s.now) args.items → C.pre call.now s p f args }
    requires gives { (s t : MutBor L) (p : Place) (f : L.Function) (args : _) (r : Result L.Value L.Failure) → L.senses.ready s.now p.number → ArgumentsFit (L.senses.fits s.now) args.items → C.post call.now s p f args r t → CallDoes L.senses p.number p.line f args.items s.now t.now r }
    requires done { L.senses.done language.old after }
    requires fits { L.senses.fits language.old whole }
    requires order { ArgsAreInOrder L.senses.follows after (args_of (map arg_of args.now)) }
    requires whole { L.senses.follows (last_number after (args_of (map arg_of args.now))) place.number }
    ensures does { DoesValue L.senses (λ i s. value_index (L.senses.defined i) place.number place.line (L.senses.shown i whole) (args_of (map arg_of args.now)) s) language.old language.new result }
    ensures done { IfOk result (λ _. L.senses.done language.new place.number) }
    ensures still { calls_none_in L.senses.opens (args_of (map arg_of args.now)) ≡ true → L.senses.still language.old language.new }
{
    let arguments = evaluate_arguments(alloc, language, call, false, after, args)?;
    language.index(place, whole, arguments)
}

/// `@` with a name, where the call takes it, and its line.
fn handle_in(takes: bool, e: &Expr) -> Option<(u32, &Name)>
    ensures { option_map (λ p. (p.0, p.1.now)) result ≡ handle_in takes (tree_of e.now) }
{
    match &e.node {
        Node::Handle(name) if takes => Some((e.line, name)),
        _ => None,
    }
}

/// The function that an argument names.
fn handle<'a, L: Language>(
    language: &L,
    line: u32,
    name: &'a Name,
) -> Result<Argument<'a, L::Value>, L::Failure>
    ensures { Does L.senses (λ s a. ArgumentFits (L.senses.fits s) a) (λ i a. argument_seen (L.senses.shown i) a) (λ i s. argument (L.senses.defined i) (Some (line, name.now)) (λ t. value (L.senses.defined i) (tree line line (trees.name name.now)) t) s) language.now language.now result }
{
    if language.function_is_there(name) {
        Ok(Argument::Function(name))
    } else {
        Err(language.undefined(line, name))
    }
}

#[cycle(walk)]
/// An argument.
fn argument<
    'a,
    L: Language,
    C: Fn(&mut L, Place, L::Function, Vec<Argument<'_, L::Value>>) -> Result<L::Value, L::Failure>,
>(
    alloc: Global,
    language: &mut L,
    call: &C,
    takes: bool,
    after: u32,
    arg: &'a Arg,
) -> Result<Argument<'a, L::Value>, L::Failure>
    requires asks { (s : MutBor L) (p : Place) (f : L.Function) (args : _) → L.senses.ready s.now p.number → ArgumentsFit (L.senses.fits s.now) args.items → C.pre call.now s p f args }
    requires gives { (s t : MutBor L) (p : Place) (f : L.Function) (args : _) (r : Result L.Value L.Failure) → L.senses.ready s.now p.number → ArgumentsFit (L.senses.fits s.now) args.items → C.post call.now s p f args r t → CallDoes L.senses p.number p.line f args.items s.now t.now r }
    requires done { L.senses.done language.old after }
    requires order { ArgsAreInOrder L.senses.follows after (args_of (arg_of arg.now ∷ [])) }
    ensures does { Does L.senses (λ s a. ArgumentFits (L.senses.fits s) a) (λ i a. argument_seen (L.senses.shown i) a) (λ i s. argument_value (L.senses.defined i) takes (arg_of arg.now) s) language.old language.new result }
    ensures done { IfOk result (λ _. L.senses.done language.new (last_number after (args_of (arg_of arg.now ∷ [])))) }
    ensures still { calls_none_in L.senses.opens (args_of (arg_of arg.now ∷ [])) ≡ true → L.senses.still language.old language.new }
{
    match arg {
        Arg::Colon => Ok(Argument::Colon),
        Arg::Value(e) => match handle_in(takes, e) {
            Some((line, name)) => handle(language, line, name),
            None => match evaluate(alloc, language, call, e) {
                Ok(value) => Ok(Argument::Given(value)),
                Err(failure) => Err(failure),
            },
        },
    }
}

/// The number of the last argument, or of what stands before the arguments.
fn number_after(after: u32, arg: &Arg) -> u32
    ensures { result ≡ last_number after (args_of (arg_of arg.now ∷ [])) }
{
    match arg {
        Arg::Colon => after,
        Arg::Value(e) => e.number,
    }
}

/// Adds an argument at the end; not where there is no memory for it.
fn added<'a, W: Drop>(arguments: &mut Vec<Argument<'a, W>>, value: Argument<'a, W>) -> bool
    ensures { result ≡ true → arguments.new.items ≡ arguments.old.items ++ value.entry ∷ [] }
{
    arguments.push(value).is_ok()
}

#[cycle(walk)]
/// The arguments of a call or of an index, from left to right; the expression with the number `after` stands before them.
pub fn evaluate_arguments<
    'a,
    L: Language,
    C: Fn(&mut L, Place, L::Function, Vec<Argument<'_, L::Value>>) -> Result<L::Value, L::Failure>,
>(
    alloc: Global,
    language: &mut L,
    call: &C,
    takes: bool,
    after: u32,
    args: &'a [Arg],
) -> Result<Vec<Argument<'a, L::Value>>, L::Failure>
    requires asks { (s : MutBor L) (p : Place) (f : L.Function) (args : _) → L.senses.ready s.now p.number → ArgumentsFit (L.senses.fits s.now) args.items → C.pre call.now s p f args }
    requires gives { (s t : MutBor L) (p : Place) (f : L.Function) (args : _) (r : Result L.Value L.Failure) → L.senses.ready s.now p.number → ArgumentsFit (L.senses.fits s.now) args.items → C.post call.now s p f args r t → CallDoes L.senses p.number p.line f args.items s.now t.now r }
    requires done { L.senses.done language.old after }
    requires order { ArgsAreInOrder L.senses.follows after (args_of (map arg_of args.now)) }
    ensures does { Does L.senses (λ s args. ArgumentsFit (L.senses.fits s) args.items) (λ i args. map (argument_seen (L.senses.shown i)) args.items) (λ i s. arguments (L.senses.defined i) (args_of (map arg_of args.now)) takes s) language.old language.new result }
    ensures done { IfOk result (λ _. L.senses.done language.new (last_number after (args_of (map arg_of args.now)))) }
    ensures still { calls_none_in L.senses.opens (args_of (map arg_of args.now)) ≡ true → L.senses.still language.old language.new }
{
    let mut arguments = Vec::new(alloc);
    let mut last = after;
    for arg in args {
        let value = argument(alloc, language, call, takes, last, arg)?;
        if !added(&mut arguments, value) {
            return Err(language.out_of_memory());
        }
        last = number_after(last, arg);
    }
    Ok(arguments)
}
