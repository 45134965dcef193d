//! The functions of the language, and their options (docs/LANGUAGE.md, functions).

use tall_value::{Binary, Reduction, Scan, Unary};

/// A function of values, in a script and in its map and reduce functions.
#[derive(Clone, Copy, Debug, PartialEq, Eq)]
pub enum ValueFunction {
    /// `sum`, which takes options
    Sum,
    /// any other reduction of a column
    Reduction(Reduction),
    Height,
    Scan(Scan),
    Head,
    Tail,
    Unique,
    GroupSummary,
    IntMax,
    IntMin,
    Idivide,
    /// a function of two operands, row by row
    Binary(Binary),
    /// a function of one operand, row by row
    Unary(Unary),
}

/// A function as a script's statements call it.
#[derive(Clone, Copy, Debug, PartialEq, Eq)]
pub enum ScriptFunction {
    OfValues(ValueFunction),
    TabularTextDatastore,
    Tall,
    Gather,
    MapReduce,
    ReadAll,
    /// `hasnext`, `getnext` and `add`, which stand in map and reduce functions alone
    Elsewhere,
}

/// A function as the statements of a map or reduce function call it.
#[derive(Clone, Copy, Debug, PartialEq, Eq)]
pub enum LocalFunction {
    OfValues(ValueFunction),
    HasNext,
    GetNext,
    /// those of datastores and gathers, which stand in scripts alone, and `add`, which is a statement
    Elsewhere,
}

/// An option of `sum`.
#[derive(Clone, Copy, Debug, PartialEq, Eq)]
pub enum SumOption {
    Native,
    OmitNan,
}
