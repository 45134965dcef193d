// Bytes of a reader, some at a time.

ghost use Rattle.std.specs.Prelude.{◌≡◌, ◌≤◌, ◌<◌, IfOk, length, true};

use crate::front::{mark_len, read_front};
use std::alloc::{AllocError, Global};
use std::io;
use std::io::Read;

// How many bytes are read at once.
const SIZE: usize = 1 << 16;

// A buffer.
fn new_buffer(alloc: Global) -> Result<Vec<u8>, AllocError>
    ensures { IfOk result (λ buffer. 3 ≤ length buffer.items) }
{
    vec![in alloc; 0u8; SIZE]
}

/// The bytes of a reader, read some at a time into a buffer, without a byte order mark at their front.
#[derive(Drop)]
pub struct Source<R> {
    pub(crate) reader: R,
    pub(crate) buffer: Vec<u8>,
    // The bytes from `at` to `filled` were read and not taken.
    pub(crate) at: usize,
    pub(crate) filled: usize,
    // The front of the bytes was looked at.
    pub(crate) begun: bool,
    pub(crate) alloc: Global,
    ghost taken: { at ≤ filled },
    ghost inside: { filled ≤ length buffer.items },
    ghost room: { begun ≡ true → 0 < length buffer.items },
}

impl<R: Read> Source<R> {
    ghost use Rattle.std.specs.Prelude.{option_map, slice_range, OnOk, false};
    ghost use Rattle.std.specs.Io.KnownBytes.{IsAtEnd, Keeps};
    ghost use Rattle.csv.specs.Reading.{strip_bom};
    ghost use Rattle.tall_scan.specs.Finding.{source_left, source_reader};

    /// The bytes of a reader. It reads nothing and takes no memory yet.
    pub fn new(alloc: Global, reader: R) -> Source<R>
        ensures left { source_left R.remaining result ≡ option_map strip_bom (R.remaining reader) }
        ensures reader { source_reader result ≡ reader }
    {
        Source {
            reader,
            buffer: Vec::new(alloc),
            at: 0,
            filled: 0,
            begun: false,
            alloc,
        }
    }

    /// The reader.
    pub fn reader(&self) -> &R
        ensures { result.now ≡ source_reader self.now }
    {
        &self.reader
    }

    /// The reader, without the bytes that were read and not taken.
    pub fn into_reader(self) -> R
        ensures { result ≡ source_reader self }
    {
        let Source { reader, .. } = self;
        reader
    }

    // Looks at the front of the bytes, once, and takes a byte order mark off it.
    pub(crate) fn begin(&mut self) -> io::Result<()>
        ensures begun { OnOk result (self.new.begun ≡ true) }
        ensures left { OnOk result (Keeps (source_left R.remaining self.old) (source_left R.remaining self.new)) }
    {
        if self.begun {
            return Ok(());
        }
        let mut buffer = new_buffer(self.alloc)?;
        let filled = read_front(&mut self.reader, &mut buffer)?;
        let at = mark_len(&buffer.as_slice()[..filled]);
        self.at = 0;
        self.filled = 0;
        self.buffer = buffer;
        self.filled = filled;
        self.at = at;
        self.begun = true;
        Ok(())
    }

    // The bytes that were read and not taken.
    #[inline(always)]
    pub(crate) fn waiting(&self) -> &[u8]
        ensures { result.now ≡ slice_range self.now.buffer.items self.now.at self.now.filled }
    {
        &self.buffer.as_slice()[self.at..self.filled]
    }

    // Reads more bytes where all were taken, and tells whether there were any.
    pub(crate) fn refill(&mut self) -> io::Result<bool>
        requires begun { self.old.begun ≡ true }
        requires empty { self.old.at ≡ self.old.filled }
        ensures begun { self.new.begun ≡ true }
        ensures left { OnOk result (Keeps (source_left R.remaining self.old) (source_left R.remaining self.new)) }
        ensures end { IfOk result (λ some. some ≡ false → IsAtEnd (source_left R.remaining self.new)) }
    {
        self.at = 0;
        self.filled = 0;
        let count = self.reader.read(&mut self.buffer)?;
        self.filled = count;
        Ok(count != 0)
    }
}
