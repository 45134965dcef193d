//! Statements of a function.

use crate::expressions::Expr;
use sqlite_items::Items;
use tall_value::Name;

/// A statement of a function, with the line on which it begins.
#[cycle(steps)]
#[derive(Drop)]
pub enum FunctionStep {
    Assign {
        line: u32,
        name: Name,
        value: Expr,
    },
    Add {
        line: u32,
        store: Expr,
        key: Expr,
        value: Expr,
    },
    /// The `if` and each `elseif`, and then the `else`, which is empty where there is none.
    If {
        line: u32,
        arms: Items<Arm>,
        rest: Items<FunctionStep>,
    },
    While {
        line: u32,
        condition: Expr,
        body: Items<FunctionStep>,
    },
    For {
        line: u32,
        name: Name,
        from: Expr,
        to: Expr,
        body: Items<FunctionStep>,
    },
}

/// A condition, and what is done where it is the first of its `if` that holds.
#[cycle(steps)]
#[derive(Drop)]
pub struct Arm {
    pub condition: Expr,
    pub body: Items<FunctionStep>,
}
