//! The lines of what the outside does.
ghost use Rattle.std.specs.Prelude.{◌≡◌, IfOk, string_bytes};
ghost use Rattle.tall_local.specs.FaultLines.{cannot_read, cannot_write, file_changed, file_too_large, out_of_memory, outside_line, outside_text};

use crate::whole::whole_line;
use std::alloc::{AllocError, Global};

/// A call that opens or reads this file failed.
///
/// # Errors
/// For want of memory alone.
#[tactic(auto, unfolding(tall_local::specs::FaultLines::outside_text))]
pub fn cannot_read_line(alloc: Global, name: &str) -> Result<Vec<u8>, AllocError>
    ensures { IfOk result (λ text. text.items ≡ outside_line (cannot_read name.now)) }
{
    let text = format!(in alloc; "tallrun: cannot read {name}\n")?;
    Ok(text.into_bytes())
}

/// A file had so many rows, and then so many.
#[tactic(auto, unfolding(tall_local::specs::FaultLines::outside_text))]
fn changed_text(alloc: Global, name: &str, rows: u64, more: u64) -> Result<String, AllocError>
    ensures { IfOk result (λ text. string_bytes text ≡ outside_text (file_changed name.now rows more)) }
{
    let mut text = format!(in alloc; "file {name} changed: ")?;
    text.push_str(rows.to_string(alloc)?.as_str())?;
    text.push_str(" rows, then ")?;
    text.push_str(more.to_string(alloc)?.as_str())?;
    Ok(text)
}

/// The line of a file that had so many rows, and then so many.
///
/// # Errors
/// For want of memory alone.
#[tactic(auto, unfolding(tall_local::specs::FaultLines::outside_text))]
pub fn changed_line(alloc: Global, name: &str, rows: u64, more: u64) -> Result<Vec<u8>, AllocError>
    ensures { IfOk result (λ text. text.items ≡ outside_line (file_changed name.now rows more)) }
{
    let what = changed_text(alloc, name, rows, more)?;
    whole_line(alloc, what.as_str())
}

/// More than 2^50 bytes came of one opening of this file.
///
/// # Errors
/// For want of memory alone.
#[tactic(auto, unfolding(tall_local::specs::FaultLines::outside_text))]
pub fn too_large_line(alloc: Global, name: &str) -> Result<Vec<u8>, AllocError>
    ensures { IfOk result (λ text. text.items ≡ outside_line (file_too_large name.now)) }
{
    let what = format!(in alloc; "file {name} above 2^50 bytes")?;
    whole_line(alloc, what.as_str())
}

/// A call that writes failed.
#[tactic(auto, unfolding(tall_local::specs::FaultLines::outside_text))]
pub fn cannot_write_line() -> &'static str
    ensures { result.now ≡ outside_line cannot_write }
{
    "tallrun: cannot write\n"
}

/// Memory was wanting.
#[tactic(auto, unfolding(tall_local::specs::FaultLines::outside_text))]
pub fn out_of_memory_line() -> &'static str
    ensures { result.now ≡ outside_line out_of_memory }
{
    "tallrun: out of memory\n"
}
