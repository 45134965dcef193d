//! Doubles that an operator gives, or the fault of its row.
ghost use Rattle.std.specs.Prelude.{◌≡◌, Some};
ghost use Rattle.tall_value.specs.Cells.{bit, double};
ghost use Rattle.tall_value.specs.CellOperators.{double_cell, to_double};
ghost use Rattle.tall_value.specs.Results.{shown_result};

use crate::faults::CellFault;
use tall_int::{Whole, WholeFault};

/// The double that was computed, or the fault of its row.
pub fn checked(computed: Result<Whole, WholeFault>) -> Result<Whole, CellFault>
    ensures { shown_result (λ d. double d) result ≡ double_cell computed }
{
    match computed {
        Ok(d) => Ok(d),
        Err(WholeFault::Inexact) => Err(CellFault::Inexact),
        Err(WholeFault::NotWhole) => Err(CellFault::NotWhole),
    }
}

/// The double that a logical counts as, 0 or 1.
pub fn double_of_logical(b: bool) -> Whole
    ensures { result ≡ Some (bit b) }
{
    Whole::of_small(if b { 1 } else { 0 })
}

/// The double of a number, NaN for none; Inexact where the magnitude is above 2^53.
pub fn to_double(n: Option<i128>) -> Result<Whole, CellFault>
    ensures { shown_result (λ d. double d) result ≡ to_double n }
{
    match n {
        Some(n) => checked(Whole::of_number(n)),
        None => Ok(Whole::nan()),
    }
}
