//! The lines of words that are no command, and of bytes that are no script.
ghost use Rattle.std.specs.Prelude.{◌≡◌, IfOk};
ghost use Rattle.tall_local.specs.FaultLines.{bad_token_text, fault_line, no_script_text, syntax_text, too_deep_text, too_long_text, usage_text};

use crate::whole::line_of;
use std::alloc::{AllocError, Global};

/// The words are no command.
pub fn usage_line() -> &'static str
    ensures { result.now ≡ fault_line usage_text }
{
    "tallrun: usage: tallrun [--workers N] SCRIPT\n"
}

/// There is no script of this name.
///
/// # Errors
/// For want of memory alone.
pub fn no_script_line(alloc: Global, name: &str) -> Result<Vec<u8>, AllocError>
    ensures { IfOk result (λ text. text.items ≡ fault_line (no_script_text name.now)) }
{
    let text = format!(in alloc; "tallrun: no file {name}\n")?;
    Ok(text.into_bytes())
}

/// The script has too many bytes.
///
/// # Errors
/// For want of memory alone.
pub fn too_long_line(alloc: Global) -> Result<Vec<u8>, AllocError>
    ensures { IfOk result (λ text. text.items ≡ fault_line too_long_text) }
{
    let text = String::from_str(alloc, "tallrun: script above 1048576 bytes\n")?;
    Ok(text.into_bytes())
}

/// The first bad token of the script: its line, and the place of its first byte in the line, both from 1.
///
/// # Errors
/// For want of memory alone.
pub fn bad_token_line(alloc: Global, line: u32, place: u32) -> Result<Vec<u8>, AllocError>
    ensures { IfOk result (λ text. text.items ≡ fault_line (bad_token_text line place)) }
{
    let what = format!(in alloc; "bad token at {place}")?;
    line_of(alloc, line, what.as_str())
}

/// Brackets and blocks, or an expression, above the limit.
///
/// # Errors
/// For want of memory alone.
pub fn too_deep_line(alloc: Global, line: u32) -> Result<Vec<u8>, AllocError>
    ensures { IfOk result (λ text. text.items ≡ fault_line (too_deep_text line)) }
{
    line_of(alloc, line, "nested above 64")
}

/// No script goes on with a token of this line.
///
/// # Errors
/// For want of memory alone.
pub fn syntax_line(alloc: Global, line: u32) -> Result<Vec<u8>, AllocError>
    ensures { IfOk result (λ text. text.items ≡ fault_line (syntax_text line)) }
{
    line_of(alloc, line, "syntax")
}
