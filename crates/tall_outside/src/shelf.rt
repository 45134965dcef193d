//! A shelf of files, of which one at a time is open.

ghost use Rattle.std.specs.Prelude.{◌≡◌, ℕ, ◌<◌, Option, List, length, is_err};
ghost use Rattle.std.specs.Io.{ReadsAtMost};
ghost use Rattle.std.specs.Io.KnownBytes.{ReadConsumes};
ghost use Rattle.tall_outside.specs.Count.{RisesIf};
ghost use Rattle.tall_outside.specs.Shelf.{Files, Logs, OpenGives, has_failed, is_missing, came_after};

/// How a call of `Shelf::open` ended.
#[derive(Clone, Copy, PartialEq, Eq, Debug)]
pub enum Opening {
    /// The file is open, at its first byte.
    Opened,
    /// There is no file of this name.
    NoSuch,
    /// The outside refused.
    Failed,
    /// Memory was wanting.
    Memory,
}

/// The outside refused to read.
#[derive(Clone, Copy, PartialEq, Eq, Debug)]
pub struct Failed;

/// A shelf of files that can be opened by name and read.
///
/// A shelf tells what it holds and which names were opened, or neither. No call changes what it holds.
pub trait Shelf {
    /// The files that it holds, each by its name, where it tells them.
    ghost held: { Self → Option Files };
    /// The names that `open` was called with, in order, where it tells them.
    ghost opened: { Self → Option (List (List ℕ)) };
    /// What is left of the open file, where that is known; nothing where no file is open.
    ghost left: { Self → Option (List ℕ) };
    /// How often a name was missing.
    ghost misses: { Self → ℕ };
    /// How often the outside refused.
    ghost faults: { Self → ℕ };
    /// How many bytes came since the last call of `open`.
    ghost came: { Self → ℕ };

    /// Opens the file of this name at its first byte, in place of the one that was open.
    ///
    /// After any answer but `Opened` no file is open. Where the shelf tells what it holds, it answers
    /// `NoSuch` exactly where it holds nothing under the name and neither failed nor lacked memory.
    fn open(&mut self, name: &str) -> Opening
        ensures held { held self.new ≡ held self.old }
        ensures told { Logs (opened self.old) (opened self.new) name.now result }
        ensures answer { OpenGives result (held self.old) name.now (left self.new) }
        ensures faults { RisesIf (has_failed result) (faults self.old) (faults self.new) }
        ensures misses { RisesIf (is_missing result) (misses self.old) (misses self.new) }
        ensures came { came self.new ≡ 0 };

    /// Puts the next bytes of the open file at the front of a buffer, and answers how many they are.
    ///
    /// 0 is the end of the file, or says that no file is open. At an error nothing is lost.
    fn read(&mut self, buf: &mut [u8]) -> Result<usize, Failed>
        requires room { 0 < length buf.old }
        ensures held { held self.new ≡ held self.old }
        ensures told { opened self.new ≡ opened self.old }
        ensures bound { ReadsAtMost result buf.new }
        ensures bytes { ReadConsumes (left self.old) (left self.new) result buf.new }
        ensures faults { RisesIf (is_err result) (faults self.old) (faults self.new) }
        ensures misses { misses self.new ≡ misses self.old }
        ensures came { came self.new ≡ came_after (came self.old) result };
}
