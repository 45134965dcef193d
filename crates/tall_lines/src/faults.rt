//! The line of a statement that ends a run.
ghost use Rattle.std.specs.Prelude.{◌≡◌, IfOk, string_bytes};
ghost use Rattle.tall_local.specs.FaultLines.{at_row, kind_text, of_field, refusal_text, row_text, stop_line};
ghost use Rattle.tall_local.specs.Refusals.{failed, stop_at, too_many_fields};
ghost use Rattle.tall_lines.specs.Seen.{refusal_seen};

use crate::refusals::Refusal;
use crate::whole::line_of;
use std::alloc::{AllocError, Global};
use tall_value::FaultKind;

/// What is wrong in the data of an expression.
fn kind_text(kind: FaultKind) -> &'static str
    ensures { result.now ≡ kind_text kind }
{
    match kind {
        FaultKind::Inexact => "result above 2^53",
        FaultKind::NotWhole => "result is not a whole number",
        FaultKind::NanLogical => "NaN has no logical value",
        FaultKind::NoRows => "no rows",
    }
}

/// The row that a text names.
fn row_text(alloc: Global, row: u64) -> Result<String, AllocError>
    ensures { IfOk result (λ text. string_bytes text ≡ row_text row) }
{
    format!(in alloc; "row {row}: ")
}

/// What stands in front of a text for its row.
fn at_row(alloc: Global, row: Option<u64>) -> Result<String, AllocError>
    ensures { IfOk result (λ text. string_bytes text ≡ at_row row) }
{
    match row {
        Some(row) => row_text(alloc, row),
        None => Ok(String::new(alloc)),
    }
}

/// The data of a row, or of no row.
#[tactic(auto, unfolding(tall_local::specs::FaultLines::refusal_text))]
fn data_text(alloc: Global, row: Option<u64>, kind: FaultKind) -> Result<String, AllocError>
    ensures { IfOk result (λ text. string_bytes text ≡ refusal_text (failed row kind)) }
{
    let at = at_row(alloc, row)?;
    let what = kind_text(kind);
    format!(in alloc; "{at}{what}")
}

/// A field of a row.
fn field_text(alloc: Global, row: u64, variable: &str, what: &str) -> Result<String, AllocError>
    ensures { IfOk result (λ text. string_bytes text ≡ of_field row variable.now what.now) }
{
    let mut text = row_text(alloc, row)?;
    text.push_str("variable ")?;
    text.push_str(variable)?;
    text.push_str(": ")?;
    text.push_str(what)?;
    Ok(text)
}

/// A row with more fields than there are variables.
#[tactic(auto, unfolding(tall_local::specs::FaultLines::refusal_text))]
fn fields_text(alloc: Global, row: u64) -> Result<String, AllocError>
    ensures { IfOk result (λ text. string_bytes text ≡ refusal_text (too_many_fields row)) }
{
    let mut text = row_text(alloc, row)?;
    text.push_str("too many fields")?;
    Ok(text)
}

/// A refusal's own text.
#[tactic(auto, unfolding(tall_local::specs::FaultLines::refusal_text))]
fn refusal_text(alloc: Global, refusal: Refusal<'_>) -> Result<String, AllocError>
    ensures { IfOk result (λ text. string_bytes text ≡ refusal_text (refusal_seen refusal.entry)) }
{
    match refusal {
        Refusal::Undefined(name) => format!(in alloc; "undefined {name}"),
        Refusal::MixedClass => String::from_str(
            alloc,
            "Integers can only be combined with integers of the same class, or scalar doubles.",
        ),
        Refusal::BadClass => String::from_str(alloc, "class not accepted"),
        Refusal::Incompatible => String::from_str(alloc, "tall arrays of different rows"),
        Refusal::BadSize => String::from_str(alloc, "sizes differ"),
        Refusal::BadArgument => String::from_str(alloc, "argument not accepted"),
        Refusal::BadIndex => String::from_str(alloc, "index out of range"),
        Refusal::Data { row, kind } => data_text(alloc, row, kind),
        Refusal::NoFile(name) => format!(in alloc; "no file {name}"),
        Refusal::NoHeader(name) => format!(in alloc; "no header in {name}"),
        Refusal::HeaderDiffers(name) => format!(in alloc; "header differs in {name}"),
        Refusal::TooManyRows => String::from_str(alloc, "too many rows"),
        Refusal::TooManyFields { row } => fields_text(alloc, row),
        Refusal::BadField { row, variable } => field_text(alloc, row, variable, "not a number"),
        Refusal::BadText { row, variable } => field_text(alloc, row, variable, "not UTF-8"),
        Refusal::FieldNotWhole { row, variable } => {
            field_text(alloc, row, variable, "not a whole number")
        }
        Refusal::FieldInexact { row, variable } => field_text(alloc, row, variable, "above 2^53"),
        Refusal::EndOfValues => String::from_str(alloc, "no value left"),
        Refusal::NoProgress => String::from_str(alloc, "loop takes no value"),
        Refusal::TooManyTurns => String::from_str(alloc, "too many turns"),
        Refusal::KeyClass => String::from_str(alloc, "key not accepted"),
        Refusal::ValueClass => String::from_str(alloc, "value not accepted"),
    }
}

/// The line of a refusal on a line of the script, from 1.
///
/// # Errors
/// For want of memory alone.
pub fn stop_line(alloc: Global, line: u32, refusal: Refusal<'_>) -> Result<Vec<u8>, AllocError>
    ensures { IfOk result (λ text. text.items ≡ stop_line (stop_at line (refusal_seen refusal.entry))) }
{
    let what = refusal_text(alloc, refusal)?;
    line_of(alloc, line, what.as_str())
}
