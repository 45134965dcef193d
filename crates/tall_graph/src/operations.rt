//! Operations on deferred values, nodes and spaces as numbers, and why an operation is refused.

use std::marker::Model;
use tall_value::{Binary, Class, Method, Owned, Reduction, Scan, Unary};
use thiserror::Error;

/// What makes a deferred value (docs/LANGUAGE.md, operators, indexing and functions).
#[derive(Drop)]
pub enum NodeOp {
    /// A variable of a datastore, by the datastore's number and the variable's.
    Stored {
        store: u32,
        variable: u64,
        class: Class,
    },
    /// A scalar in memory.
    Constant(Owned),
    /// An operator of one operand.
    Unary(Unary),
    /// An operator of two operands.
    Binary(Binary),
    /// `x(m)` of a column x and a logical column m.
    Filter,
    /// A function of all rows that gives one cell.
    Reduce(Reduction),
    /// A function that gives each row the fold of the rows up to it.
    Scan(Scan),
    /// `head(x, k)`
    Head(u64),
    /// `tail(x, k)`
    Tail(u64),
    /// `unique(x)`
    Distinct,
    /// A column of `groupsummary`: part 0 is the key, 1 the count, 2 the values of the method. With `Count` the operand is
    /// the key; with a method the operands are the key and the data.
    Group {
        method: Method,
        part: u8,
    },
}

/// A node of a graph, which contracts see as its place among the nodes, from 0.
#[derive(Clone, Copy, PartialEq, Eq)]
pub struct NodeId {
    place: usize,
}

impl Model for NodeId {
    ghost use Rattle.std.specs.Prelude.{ℕ};

    ghost Value = { ℕ };

    ghost view = { λ n. n.place };

    ghost inverse = { λ n. record { place = n } };
}

ghost use Rattle.std.specs.Prelude.{◌≡◌};

impl NodeId {
    pub(crate) fn at(place: usize) -> NodeId
        ensures { result ≡ place }
    {
        NodeId { place }
    }

    /// How many nodes stand before it.
    pub fn place(self) -> usize
        ensures { result ≡ self }
    {
        self.place
    }
}

/// A space, which contracts see as the place of the first node that has it: two nodes have equal spaces exactly where they
/// have the same rows by what they were made from.
#[derive(Clone, Copy, PartialEq, Eq)]
pub struct Space {
    number: usize,
}

impl Model for Space {
    ghost use Rattle.std.specs.Prelude.{ℕ};

    ghost Value = { ℕ };

    ghost view = { λ s. s.number };

    ghost inverse = { λ n. record { number = n } };
}

impl Space {
    pub(crate) fn of(number: usize) -> Space
        ensures { result ≡ number }
    {
        Space { number }
    }
}

/// Why an operation isn't accepted (docs/LANGUAGE.md, operators, indexing and functions).
#[derive(Clone, Copy, Debug, PartialEq, Eq, Error)]
pub enum GraphFault {
    /// Integers combine only with integers of their class and with scalar doubles.
    #[error("integers of another class")]
    MixedClass,
    /// The operation doesn't take the class at all.
    #[error("a class that the operation does not take")]
    BadClass,
    /// The operands are columns of different rows.
    #[error("tall arrays of different rows")]
    Incompatible,
    /// A scalar where a column is needed, or another number of operands.
    #[error("an argument that is not accepted")]
    BadArgument,
    /// Want of memory.
    #[error("out of memory")]
    Memory,
}
