//! Expressions.

use sqlite_items::{Boxed, Items};
use tall_int::Whole;
use tall_value::{Name, Text};

/// An operator that stands before its operand.
#[derive(Clone, Copy, Debug, PartialEq, Eq)]
pub enum Prefix {
    Minus,
    Plus,
    Not,
}

/// An operator between two operands.
#[derive(Clone, Copy, Debug, PartialEq, Eq)]
pub enum Infix {
    Or,
    And,
    Eq,
    Ne,
    Lt,
    Le,
    Gt,
    Ge,
    Add,
    Sub,
    DotMul,
    DotDiv,
    Mul,
    Div,
}

/// An expression. Parentheses round it leave no trace.
#[cycle(expressions)]
#[derive(Drop)]
pub struct Expr {
    /// Its number in the script, from 1: the parts in their order, then the whole.
    pub number: u32,
    /// The first line of its statement; for a condition and for the bounds of a `for` the line of its word.
    pub line: u32,
    pub node: Node,
}

/// What an expression is.
#[cycle(expressions)]
#[derive(Drop)]
pub enum Node {
    Number(Whole),
    /// The text between the quotes, in which each quote stands once.
    Text(Text),
    Name(Name),
    /// Texts, as expressions.
    List(Items<Expr>),
    /// `@` and the name of a function.
    Handle(Name),
    Prefix(Prefix, Boxed<Expr>),
    Infix(Infix, Boxed<Expr>, Boxed<Expr>),
    /// An expression, a point and a name.
    Member(Boxed<Expr>, Name),
    /// A call or an index: what stands before the parentheses, and what stands in them.
    Call(Boxed<Expr>, Items<Arg>),
}

/// An argument.
#[cycle(expressions)]
#[derive(Drop)]
pub enum Arg {
    Value(Expr),
    Colon,
}
