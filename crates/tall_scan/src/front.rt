// The front of the bytes of a reader.

ghost use Rattle.std.specs.Prelude.{◌≡◌, ◌≤◌, ◌<◌, IfOk, drop, length, take};
ghost use Rattle.std.specs.Io.KnownBytes.{Consumes, IsAtEnd};
ghost use Rattle.csv.specs.Reading.{is_bom, strip_bom};
ghost use Rattle.tall_scan.specs.Fronts.{TakesByte};

use std::io;
use std::io::Read;

// Reads the next byte, if there is one.
fn read_byte<R: Read>(reader: &mut R) -> io::Result<Option<u8>>
    ensures { IfOk result (λ byte. TakesByte byte (R.remaining reader.old) (R.remaining reader.new)) }
{
    let mut one = [0u8];
    match reader.read(&mut one) {
        Ok(0) => Ok(None),
        Ok(_) => Ok(Some(one[0])),
        Err(e) => Err(e),
    }
}

// Reads the first three bytes, or all where there are fewer.
#[tactic(auto, using(crate::proofs::Fronts::front_start, crate::proofs::Fronts::front_more, crate::proofs::Fronts::front_end))]
pub(crate) fn read_front<R: Read>(reader: &mut R, buffer: &mut Vec<u8>) -> io::Result<usize>
    requires { 3 ≤ length buffer.old.items }
    ensures room { length buffer.new.items ≡ length buffer.old.items }
    ensures inside { IfOk result (λ n. n ≤ 3) }
    ensures front { IfOk result (λ n. Consumes (R.remaining reader.old) (R.remaining reader.new) (take n buffer.new.items)) }
    ensures end { IfOk result (λ n. n < 3 → IsAtEnd (R.remaining reader.new)) }
{
    for i in 0..3 {
        match read_byte(reader)? {
            Some(byte) => buffer[i] = byte,
            None => return Ok(i),
        }
    }
    Ok(3)
}

// Whether three bytes are a byte order mark.
fn is_mark(a: u8, b: u8, c: u8) -> bool
    ensures { result ≡ is_bom a b c }
{
    a == 0xEF && b == 0xBB && c == 0xBF
}

// How long a byte order mark at the front of these bytes is: 3, or 0 where there is none.
#[tactic(auto, using(crate::proofs::Fronts::strip_short, crate::proofs::Fronts::strip_mark, crate::proofs::Fronts::strip_none))]
pub(crate) fn mark_len(bytes: &[u8]) -> usize
    ensures inside { result ≤ length bytes.now }
    ensures rest { drop result bytes.now ≡ strip_bom bytes.now }
{
    if bytes.len() < 3 {
        return 0;
    }
    if is_mark(bytes[0], bytes[1], bytes[2]) {
        3
    } else {
        0
    }
}
