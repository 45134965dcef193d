//! The operators on cells.
use tall_int::Rounding;

/// An operator or function of one operand (docs/LANGUAGE.md, operators).
#[derive(Clone, Copy, Debug, PartialEq, Eq)]
pub enum Unary {
    /// `-x`
    Neg,
    /// `+x`
    Plus,
    /// `abs(x)`
    Abs,
    /// `~x`
    Not,
    /// `int8(x)`
    ToInt8,
    /// `int16(x)`
    ToInt16,
    /// `int32(x)`
    ToInt32,
    /// `int64(x)`
    ToInt64,
    /// `uint8(x)`
    ToUint8,
    /// `uint16(x)`
    ToUint16,
    /// `uint32(x)`
    ToUint32,
    /// `uint64(x)`
    ToUint64,
    /// `double(x)`
    ToDouble,
    /// `logical(x)`
    ToLogical,
    /// `isnan(x)`
    IsNan,
}

/// An operator or function of two operands (docs/LANGUAGE.md, operators).
#[derive(Clone, Copy, Debug, PartialEq, Eq)]
pub enum Binary {
    /// `a + b`
    Add,
    /// `a - b`
    Sub,
    /// `a .* b`
    Mul,
    /// `a ./ b`
    Div,
    /// `mod(a, b)`
    Modulo,
    /// `idivide(a, b, how)`
    Idivide(Rounding),
    /// `bitand(a, b)`
    BitAnd,
    /// `bitor(a, b)`
    BitOr,
    /// `bitxor(a, b)`
    BitXor,
    /// `a == b`
    Eq,
    /// `a ~= b`
    Ne,
    /// `a < b`
    Lt,
    /// `a <= b`
    Le,
    /// `a > b`
    Gt,
    /// `a >= b`
    Ge,
    /// `strcmp(a, b)`
    StrCmp,
    /// `a & b`
    And,
    /// `a | b`
    Or,
}
