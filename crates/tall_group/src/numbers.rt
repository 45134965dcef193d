//! Keys that stand for numbers.
ghost use Rattle.std.specs.Prelude.{◌≡◌};
ghost use Rattle.tall_value.specs.Cells.{double, seen, seen_kind};
ghost use Rattle.tall_group.specs.Tables.{IsNumeric};
ghost use Rattle.tall_group.specs.Numbers.{double_of, key_cell, number_of, number_or_nan};

use tall_int::Whole;
use tall_value::{Cell, Kind};

/// The number of an integer, of a logical (0 or 1) or of a double. NaN comes last.
#[derive(Clone, Copy, Debug, PartialEq, Eq, PartialOrd, Ord, Hash)]
pub(crate) enum Number {
    Whole(i128),
    Nan,
}

#[tactic(auto, using(crate::proofs::NumberLemmas::near, crate::proofs::NumberLemmas::bit_back))]
/// The number of a cell, from which `key_cell` makes the cell again.
pub(crate) fn number_of(cell: &Cell<'_>) -> Number
    ensures number { result ≡ number_of (seen cell.now) }
    ensures exact { IsNumeric (seen_kind (seen cell.now)) → key_cell (seen_kind (seen cell.now)) result ≡ seen cell.now }
{
    match *cell {
        Cell::I8(n) => Number::Whole(n as i128),
        Cell::I16(n) => Number::Whole(n as i128),
        Cell::I32(n) => Number::Whole(n as i128),
        Cell::I64(n) => Number::Whole(n as i128),
        Cell::U8(n) => Number::Whole(n as i128),
        Cell::U16(n) => Number::Whole(n as i128),
        Cell::U32(n) => Number::Whole(n as i128),
        Cell::U64(n) => Number::Whole(n as i128),
        Cell::Logical(b) => Number::Whole(if b { 1 } else { 0 }),
        Cell::Double(d) => number_of_double(d),
        Cell::Text(_) => Number::Nan,
    }
}

fn number_of_double(d: Whole) -> Number
    ensures number { result ≡ number_or_nan d }
    ensures exact { double_of result ≡ double d }
{
    match d.get() {
        Some(n) => Number::Whole(n as i128),
        None => Number::Nan,
    }
}

/// The cell of a kind that stands for a number, or for the number of the class that is nearest to it.
pub(crate) fn key_cell<'a>(kind: Kind, number: Number) -> Cell<'a>
    ensures { seen result ≡ key_cell kind number }
{
    let n = match number {
        Number::Whole(n) => n,
        Number::Nan => 0,
    };
    match kind {
        Kind::Integer(class) => Cell::of_class(class, n),
        Kind::Logical => Cell::Logical(n != 0),
        Kind::Double => Cell::Double(double(number)),
        Kind::Text => Cell::Text(""),
    }
}

/// A number as a double, which is NaN where its magnitude is above 2^53.
fn double(number: Number) -> Whole
    ensures { double result ≡ double_of number }
{
    match number {
        Number::Whole(n) => match Whole::of_number(n) {
            Ok(whole) => whole,
            Err(_) => Whole::nan(),
        },
        Number::Nan => Whole::nan(),
    }
}
