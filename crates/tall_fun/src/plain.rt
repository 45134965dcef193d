//! Expressions of scalars: numbers, names, operators, indexes of columns, and the calls of the iterator. This walk copies and allocates
//! nothing. It tells the value of such an expression, or nothing; of what it does not tell, the walk over all expressions tells the
//! value or the failure.
ghost use Rattle.std.specs.Prelude.{◌≡◌, ◌+◌, ◌∷◌, [], IfSome, List, None, Ok, Some, ℕ, map, slice_get};
ghost use Rattle.tall_grammar.specs.Trees.{no_args, tree, value_arg};
ghost use Rattle.tall_grammar.specs.Trees as trees;
ghost use Rattle.tall_grammar.specs.Views.{arg_of, args_of, tree_of};
ghost use Rattle.tall_value.specs.Cells.{seen};
ghost use Rattle.tall_value.specs.Index.{cell_at};
ghost use Rattle.tall_local.specs.Arguments.{rows_at};
ghost use Rattle.tall_local.specs.Locals.{held_infix, value};
ghost use Rattle.tall_local.specs.Memory as memory;
ghost use Rattle.tall_local.specs.Memory.{scalar};
ghost use Rattle.tall_local.specs.MemoryIndexing.{memory_index};
ghost use Rattle.tall_local.specs.Names.{named};
ghost use Rattle.tall_fun.specs.Frames.{name_in};
ghost use Rattle.tall_fun.specs.Plain.{ComesTo, iterator_in};

use crate::loops::{is_iterator, name_in};
use crate::names::Names;
use tall_column::Column;
use tall_grammar::{Arg, Expr, Infix, Node};
use tall_int::Whole;
use tall_memory::binary_of;
use tall_value::{Cell, Content, binary, result_class};

/// The scalar that a name stands for, if it stands for one.
fn scalar_named<'v>(names: &'v Names<'_>, name: &str) -> Option<Cell<'v>>
    ensures { IfSome result (λ c. named names.now name.now ≡ Some (value (scalar (seen c)))) }
{
    match names.get(name) {
        Some(v) => v.scalar(),
        None => None,
    }
}

/// What an operator gives of two cells, if it gives a cell.
fn joined<'v>(op: Infix, a: &Cell<'_>, b: &Cell<'_>) -> Option<Cell<'v>>
    ensures { IfSome result (λ c. held_infix op (value (scalar (seen a.now))) (value (scalar (seen b.now))) ≡ Ok (value (scalar (seen c)))) }
{
    let operator = binary_of(op);
    match result_class(operator, a.class(), true, b.class(), true) {
        Ok(_) => match binary(operator, a, b) {
            Ok(c) => Some(c),
            Err(_) => None,
        },
        Err(_) => None,
    }
}

/// The cell of a row of a column that a scalar tells, if there is one.
fn cell_at<'v>(x: &'v Column, k: &Cell<'_>) -> Option<Cell<'v>>
    ensures { IfSome result (λ c. memory_index (memory.column x.now) (Some (rows_at (scalar (seen k.now)))) ≡ Ok (scalar (seen c))) }
{
    match k.content() {
        Content::Double(d) => row(x, d),
        Content::Whole(_, _) | Content::Logical(_) | Content::Text(_) => None,
    }
}

/// The cell of the row that a double counts from 1, if there is one.
fn row(x: &Column, d: Whole) -> Option<Cell<'_>>
    ensures { IfSome result (λ c. cell_at d x.now.cells ≡ Some (seen c)) }
{
    match d.get() {
        Some(k) if 1 <= k && k as u64 <= x.len() as u64 => Some(x.get((k - 1) as usize)),
        _ => None,
    }
}

/// The expression is a name that stands for the iterator.
fn names_iterator(names: &Names<'_>, e: &Expr) -> bool
    ensures { result ≡ iterator_in names.now (name_in (tree_of e.now)) }
{
    match name_in(e) {
        Some(name) => is_iterator(names, name.as_str()),
        None => false,
    }
}

/// A call of `hasnext` or `getnext`, which no variable hides, with the iterator.
fn of_iterator<'v>(
    names: &Names<'_>,
    values: &'v Column,
    given: &mut usize,
    function: &str,
    argument: &Expr,
) -> Option<Cell<'v>>
    requires { named names.now function.now ≡ None }
    ensures { (n l m k : ℕ) → IfSome result (λ c. ComesTo values.now.cells (tree n l (trees.call (tree m k (trees.name function.now)) (value_arg (tree_of argument.now) no_args))) names.now given.old (seen c) given.new) }
{
    if function == "getnext" && names_iterator(names, argument) {
        next(values, given)
    } else if function == "hasnext" && names_iterator(names, argument) {
        Some(Cell::Logical(*given < values.len()))
    } else {
        None
    }
}

/// The next of the iterator's values, if one is left.
fn next<'v>(values: &'v Column, given: &mut usize) -> Option<Cell<'v>>
    ensures { IfSome result (λ c. (slice_get values.now.cells given.old ≡ Some (seen c)) × (given.new ≡ given.old + 1)) }
{
    if *given < values.len() {
        let c = values.get(*given);
        *given += 1;
        Some(c)
    } else {
        None
    }
}

#[cycle(plain)]
/// The cell that an expression comes to over the values of the iterator, of which so many were given: those that it takes are counted.
/// Where it tells none, the count means nothing.
pub(crate) fn plain_value<'v>(
    names: &'v Names<'_>,
    values: &'v Column,
    given: &mut usize,
    e: &Expr,
) -> Option<Cell<'v>>
    ensures { IfSome result (λ c. ComesTo values.now.cells (tree_of e.now) names.now given.old (seen c) given.new) }
{
    match &e.node {
        Node::Number(n) => Some(Cell::Double(*n)),
        Node::Name(name) => scalar_named(names, name.as_str()),
        Node::Infix(op, left, right) => match plain_value(names, values, given, left.get()) {
            Some(left) => match plain_value(names, values, given, right.get()) {
                Some(right) => joined(*op, &left, &right),
                None => None,
            },
            None => None,
        },
        Node::Call(callee, args) => match name_in(callee.get()) {
            Some(name) => plain_call(names, values, given, name.as_str(), args.as_slice()),
            None => None,
        },
        Node::Text(_) | Node::List(_) | Node::Handle(_) | Node::Prefix(_, _) => None,
        Node::Member(_, _) => None,
    }
}

#[cycle(plain)]
/// The same of a name before parentheses with one argument.
fn plain_call<'v>(
    names: &'v Names<'_>,
    values: &'v Column,
    given: &mut usize,
    name: &str,
    args: &[Arg],
) -> Option<Cell<'v>>
    ensures { (n l m k : ℕ) → IfSome result (λ c. ComesTo values.now.cells (tree n l (trees.call (tree m k (trees.name name.now)) (args_of (map arg_of args.now)))) names.now given.old (seen c) given.new) }
{
    match args {
        [argument] => applied(names, values, given, name, argument),
        _ => None,
    }
}

#[cycle(plain)]
/// The same of one argument, which is no `:`.
fn applied<'v>(
    names: &'v Names<'_>,
    values: &'v Column,
    given: &mut usize,
    name: &str,
    argument: &Arg,
) -> Option<Cell<'v>>
    ensures { (n l m k : ℕ) → IfSome result (λ c. ComesTo values.now.cells (tree n l (trees.call (tree m k (trees.name name.now)) (args_of (arg_of argument.now ∷ [])))) names.now given.old (seen c) given.new) }
{
    match argument {
        Arg::Value(e) => applied_to(names, values, given, name, e),
        Arg::Colon => None,
    }
}

#[cycle(plain)]
/// An index of a column, or a call.
fn applied_to<'v>(
    names: &'v Names<'_>,
    values: &'v Column,
    given: &mut usize,
    name: &str,
    argument: &Expr,
) -> Option<Cell<'v>>
    ensures { (n l m k : ℕ) → IfSome result (λ c. ComesTo values.now.cells (tree n l (trees.call (tree m k (trees.name name.now)) (value_arg (tree_of argument.now) no_args))) names.now given.old (seen c) given.new) }
{
    match names.get(name) {
        Some(v) => match v.column() {
            Some(x) => indexed(names, values, given, x, argument),
            None => None,
        },
        None => of_iterator(names, values, given, name, argument),
    }
}

#[cycle(plain)]
/// A cell of a column, at the row that an expression tells.
fn indexed<'v>(
    names: &'v Names<'_>,
    values: &'v Column,
    given: &mut usize,
    x: &'v Column,
    e: &Expr,
) -> Option<Cell<'v>>
    ensures { (f : List ℕ) (n l m k : ℕ) → named names.now f ≡ Some (value (memory.column x.now)) → IfSome result (λ c. ComesTo values.now.cells (tree n l (trees.call (tree m k (trees.name f)) (value_arg (tree_of e.now) no_args))) names.now given.old (seen c) given.new) }
{
    match plain_value(names, values, given, e) {
        Some(k) => cell_at(x, &k),
        None => None,
    }
}
