//! Expressions from their parts.
ghost use Rattle.std.specs.Prelude.{◌≡◌, map, IfOk};
ghost use Rattle.tall_grammar.specs.Trees as trees;
ghost use Rattle.tall_grammar.specs.Trees.{tree};
ghost use Rattle.tall_grammar.specs.Views.{tree_of, arg_of, trees_of, args_of};

use sqlite_items::{Boxed, Items};
use std::alloc::{AllocError, Global};
use tall_grammar::expressions::{Arg, Expr, Infix, Node, Prefix};
use tall_int::Whole;
use tall_value::{Name, Text};

pub fn number(number: u32, line: u32, value: Whole) -> Expr
    ensures { tree_of result ≡ tree number line (trees.number value) }
{
    Expr {
        number,
        line,
        node: Node::Number(value),
    }
}

pub fn text(number: u32, line: u32, value: Text) -> Expr
    ensures { tree_of result ≡ tree number line (trees.text value) }
{
    Expr {
        number,
        line,
        node: Node::Text(value),
    }
}

pub fn name(number: u32, line: u32, name: Name) -> Expr
    ensures { tree_of result ≡ tree number line (trees.name name) }
{
    Expr {
        number,
        line,
        node: Node::Name(name),
    }
}

pub fn handle(number: u32, line: u32, name: Name) -> Expr
    ensures { tree_of result ≡ tree number line (trees.handle name) }
{
    Expr {
        number,
        line,
        node: Node::Handle(name),
    }
}

pub fn list(number: u32, line: u32, texts: Items<Expr>) -> Expr
    ensures { tree_of result ≡ tree number line (trees.list (trees_of (map tree_of texts))) }
{
    Expr {
        number,
        line,
        node: Node::List(texts),
    }
}

pub fn prefixed(
    alloc: Global,
    number: u32,
    line: u32,
    operator: Prefix,
    operand: Expr,
) -> Result<Expr, AllocError>
    ensures { IfOk result (λ e. tree_of e ≡ tree number line (trees.prefixed operator (tree_of operand))) }
{
    Ok(Expr {
        number,
        line,
        node: Node::Prefix(operator, Boxed::new(alloc, operand)?),
    })
}

pub fn joined(
    alloc: Global,
    number: u32,
    line: u32,
    operator: Infix,
    left: Expr,
    right: Expr,
) -> Result<Expr, AllocError>
    ensures { IfOk result (λ e. tree_of e ≡ tree number line (trees.joined operator (tree_of left) (tree_of right))) }
{
    let left = Boxed::new(alloc, left)?;
    Ok(Expr {
        number,
        line,
        node: Node::Infix(operator, left, Boxed::new(alloc, right)?),
    })
}

pub fn member(
    alloc: Global,
    number: u32,
    line: u32,
    whole: Expr,
    name: Name,
) -> Result<Expr, AllocError>
    ensures { IfOk result (λ e. tree_of e ≡ tree number line (trees.member (tree_of whole) name)) }
{
    Ok(Expr {
        number,
        line,
        node: Node::Member(Boxed::new(alloc, whole)?, name),
    })
}

pub fn call(
    alloc: Global,
    number: u32,
    line: u32,
    called: Expr,
    args: Items<Arg>,
) -> Result<Expr, AllocError>
    ensures { IfOk result (λ e. tree_of e ≡ tree number line (trees.call (tree_of called) (args_of (map arg_of args)))) }
{
    Ok(Expr {
        number,
        line,
        node: Node::Call(Boxed::new(alloc, called)?, args),
    })
}
