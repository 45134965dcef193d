// The bytes of a raw block, for `csv`'s reader.

ghost use Rattle.std.specs.Prelude.{◌≡◌, ◌≤◌, ◌∷◌, Some, length, take};

use std::io;
use std::io::Read;
use std::simd::prelude::*;

/// A text of records as a reader of its bytes, behind a line feed.
///
/// `csv` takes a byte order mark off the front of what it reads, and at the front of a block one is a part of a field. The
/// line feed, an empty line, keeps it there.
#[derive(Drop)]
pub struct Text<'b> {
    pub(crate) rest: &'b [u8],
    // The line feed was not given yet.
    pub(crate) shielded: bool,
}

impl<'b> Text<'b> {
    ghost use Rattle.tall_scan.specs.Texts.{text_left};

    /// A reader of these bytes.
    pub fn new(bytes: &'b [u8]) -> Text<'b>
        ensures { text_left result ≡ Some (10 ∷ bytes.now) }
    {
        Text {
            rest: bytes,
            shielded: true,
        }
    }
}

impl<'b> Read for Text<'b> {
    ghost use Rattle.tall_scan.specs.Texts.{text_left};

    ghost remaining = { λ t. text_left t };

    fn read(&mut self, buf: &mut [u8]) -> io::Result<usize> {
        if buf.is_empty() {
            return Ok(0);
        }
        if self.shielded {
            buf[0] = b'\n';
            self.shielded = false;
            return Ok(1);
        }
        let count = self.rest.len().min(buf.len());
        let rest = self.rest;
        copy_front(buf, rest, count);
        self.rest = &rest[count..];
        Ok(count)
    }
}

// How many bytes are copied at once.
const WIDTH: usize = 64;

// Copies so many bytes from the front of one slice to that of another.
fn copy_front(to: &mut [u8], from: &[u8], count: usize)
    requires to { count ≤ length to.old }
    requires from { count ≤ length from.now }
    ensures { take count to.new ≡ take count from.now }
{
    let mut done = 0;
    while count - done >= WIDTH {
        u8x64::from_slice(&from[done..]).copy_to_slice(&mut to[done..]);
        done += WIDTH;
    }
    while done < count {
        to[done] = from[done];
        done += 1;
    }
}
