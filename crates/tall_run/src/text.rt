//! The text of a script, read from its file.

ghost use Rattle.std.specs.Prelude.{◌≡◌, ◌≤◌, ◌<◌, ℕ, IfOk, IfSome, Err, length, take};
ghost use Rattle.tall_outside.specs.Count.{Rose};

use std::alloc::Global;
use tall_outside::Shelf;

/// Why a script's text was not read.
#[derive(Clone, Copy)]
pub(crate) enum TextFault {
    /// The outside refused.
    Failed,
    /// Memory was wanting.
    Memory,
}

/// The most bytes that are read of a script: one more than it may have.
const READ_LIMIT: usize = 1_048_577;

/// Reads the open file from where it stands to its end, or so much of it as shows that no script is so long.
pub(crate) fn read_text<S: Shelf>(alloc: Global, shelf: &mut S) -> Result<Vec<u8>, TextFault>
    ensures held { S.held shelf.new ≡ S.held shelf.old }
    ensures opened { S.opened shelf.new ≡ S.opened shelf.old }
    ensures misses { S.misses shelf.new ≡ S.misses shelf.old }
    ensures later { S.faults shelf.old ≤ S.faults shelf.new }
    ensures failed { result ≡ Err TextFault.Failed → Rose (S.faults shelf.old) (S.faults shelf.new) }
    ensures text { IfOk result (λ text. IfSome (S.left shelf.old) (λ bytes. text.items ≡ take 1048577 bytes)) }
    ensures came { S.came shelf.old ≡ 0 → IfOk result (λ text. length text.items ≡ S.came shelf.new) }
{
    let mut text = Vec::new(alloc);
    let mut chunk = [0u8; 4096];
    while text.len() < READ_LIMIT {
        let room = chunk.len().min(READ_LIMIT - text.len());
        let Ok(count) = shelf.read(&mut chunk[..room]) else {
            return Err(TextFault::Failed);
        };
        if count == 0 {
            break;
        }
        if text.extend_from_slice(&chunk[..count]).is_err() {
            return Err(TextFault::Memory);
        }
    }
    Ok(text)
}
