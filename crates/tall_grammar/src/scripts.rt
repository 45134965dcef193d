//! Scripts, their statements and their functions.

use crate::expressions::{Arg, Expr};
use crate::steps::FunctionStep;
use sqlite_items::Items;
use tall_value::Name;

/// What a statement is.
#[derive(Drop)]
pub enum Form {
    /// A name that gets a value.
    Assign {
        name: Name,
        value: Expr,
    },
    /// A list of names that get what `gather` gives.
    Gather {
        names: Items<Name>,
        args: Items<Arg>,
    },
    /// A property of a datastore that gets a value.
    Property {
        name: Name,
        property: Name,
        value: Expr,
    },
    /// An expression alone.
    Bare(Expr),
}

/// A statement.
#[derive(Drop)]
pub struct Statement {
    /// Its first line, from 1.
    pub line: u32,
    /// Is its value shown? It is where its first separator isn't `;`.
    pub shown: bool,
    pub form: Form,
}

/// A function.
#[derive(Drop)]
pub struct Function {
    pub name: Name,
    /// The line of its word `function`.
    pub line: u32,
    /// Its three parameters; `~` is none.
    pub params: Items<Option<Name>>,
    pub body: Items<FunctionStep>,
}

/// A script.
#[derive(Drop)]
pub struct Script {
    pub statements: Items<Statement>,
    pub functions: Items<Function>,
}

/// Why bytes are no script.
#[derive(Clone, Copy, Debug, PartialEq, Eq)]
pub enum ParseFault {
    /// More than 1,048,576 bytes.
    TooLong,
    /// The first bad token, by its line and its place in the line, both from 1.
    BadToken { line: u32, place: u32 },
    /// Brackets and blocks open, or the height of an expression, above 64.
    TooDeep { line: u32 },
    /// The line of the first token with which no script goes on, or the last line, where the text ends too early.
    Syntax { line: u32 },
    /// Want of memory.
    Memory,
}
