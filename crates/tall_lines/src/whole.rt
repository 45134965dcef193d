//! Whole lines.
ghost use Rattle.std.specs.Prelude.{◌≡◌, IfOk, string_bytes};
ghost use Rattle.tall_local.specs.FaultLines.{fault_line, on_line};

use std::alloc::{AllocError, Global};

/// The line of what is wrong.
pub(crate) fn whole_line(alloc: Global, what: &str) -> Result<Vec<u8>, AllocError>
    ensures { IfOk result (λ text. text.items ≡ fault_line what.now) }
{
    let text = format!(in alloc; "tallrun: {what}\n")?;
    Ok(text.into_bytes())
}

/// What is wrong on a line of the script.
fn on_line(alloc: Global, line: u32, what: &str) -> Result<String, AllocError>
    ensures { IfOk result (λ text. string_bytes text ≡ on_line line what.now) }
{
    let mut text = format!(in alloc; "line {line}: ")?;
    text.push_str(what)?;
    Ok(text)
}

/// The line of what is wrong on a line of the script.
pub(crate) fn line_of(alloc: Global, line: u32, what: &str) -> Result<Vec<u8>, AllocError>
    ensures { IfOk result (λ text. text.items ≡ fault_line (on_line line what.now)) }
{
    let text = on_line(alloc, line, what)?;
    whole_line(alloc, text.as_str())
}
