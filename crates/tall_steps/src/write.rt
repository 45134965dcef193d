//! Texts, written whole.
ghost use Rattle.std.specs.Prelude.{◌≡◌, ◌≤◌, OnOk};
ghost use Rattle.std.specs.Io.KnownBytes.{Appends};
ghost use Rattle.tall_outside.specs.Count.{Rose};
ghost use Rattle.tall_steps.specs.Ends.{AddsFront};

use tall_outside::{Sink, WriteFault};

/// Writes a text until all of it is taken.
///
/// What a sink took is a front of the text, whatever the answer.
pub fn write_all<O: Sink>(out: &mut O, text: &[u8]) -> Result<(), WriteFault>
    ensures later { O.faults out.old ≤ O.faults out.new }
    ensures failed { result ≡ Err WriteFault.Failed → Rose (O.faults out.old) (O.faults out.new) }
    ensures whole { OnOk result (Appends (O.written out.old) (O.written out.new) text.now) }
    ensures front { AddsFront text.now (O.written out.old) (O.written out.new) }
{
    let mut at = 0;
    while at < text.len() {
        match out.write(&text[at..]) {
            Ok(0) => return Err(WriteFault::Failed),
            Ok(count) => at += count,
            Err(fault) => return Err(fault),
        }
    }
    Ok(())
}
