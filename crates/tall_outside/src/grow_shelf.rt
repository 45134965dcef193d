//! A shelf of one file that grows between two openings, beside a script.

ghost use Rattle.std.specs.Prelude.{◌≡◌, ◌+◌, ◌^◌, ◌<◌, [], if◌then◌else◌, is_some, min, length, Ok, Some, IsOkAnd, is_err, false, string_bytes};
ghost use Rattle.std.specs.Str.{bytes_eq};
ghost use Rattle.std.specs.Io.{ReadsAtMost};
ghost use Rattle.std.specs.Io.KnownBytes.{ReadConsumes};
ghost use Rattle.tall_outside.specs.Count.{RisesIf};
ghost use Rattle.tall_outside.specs.Shelf.{Logs, OpenGives, has_failed, is_missing, came_after};
ghost use Rattle.tall_outside.specs.declared.shelf.Opening.TheVariants as o;
ghost use Rattle.tall_outside.specs.GrowShelf.{Gives, bytes_of, given, growth_of, left_of, opened_once, untold_files, untold_names};

use crate::shelf::{Failed, Opening, Shelf};
use std::alloc::{AllocError, Global};

/// What is open of a shelf that grows.
#[derive(Clone, Copy)]
pub enum OpenPart {
    First,
    Later,
    Script,
}

/// A shelf for tests of a file that changes: under its name it gives one text at its first openings and another from some
/// opening on, and under another name a script. It doesn't tell what it holds, and it never fails.
#[derive(Drop)]
pub struct GrowShelf {
    name: String,
    first: Vec<u8>,
    later: Vec<u8>,
    from: u64,
    script: (String, Vec<u8>),
    openings: u64,
    part: Option<OpenPart>,
    at: usize,
    came: u64,
    misses: u64,
}

impl GrowShelf {
    /// A shelf of the file, whose bytes are `first` at openings below `from`, counted from 1, and `later` from there on, and
    /// of the script. No file is open. It takes no memory.
    pub fn new(
        _alloc: Global,
        name: String,
        first: Vec<u8>,
        later: Vec<u8>,
        from: u64,
        script: (String, Vec<u8>),
    ) -> Result<GrowShelf, AllocError>
        requires { bytes_eq (string_bytes name) (string_bytes script.0) ≡ false }
        ensures growth { IsOkAnd result (λ s. growth_of s ≡ record { name = string_bytes name; first = first.items; later = later.items; from = from; script_name = string_bytes script.0; script = script.1.items; openings = 0 }) }
        ensures counts { IsOkAnd result (λ s. (left_of s ≡ []) × (s.misses ≡ 0) × (s.came ≡ 0)) }
    {
        Ok(GrowShelf {
            name,
            first,
            later,
            from,
            script,
            openings: 0,
            part: None,
            at: 0,
            came: 0,
            misses: 0,
        })
    }

    /// The bytes of what is open.
    fn bytes(&self) -> &[u8]
        ensures { result.now ≡ bytes_of (growth_of self.now) self.now.part }
    {
        match self.part {
            Some(OpenPart::First) => self.first.as_slice(),
            Some(OpenPart::Later) => self.later.as_slice(),
            Some(OpenPart::Script) => self.script.1.as_slice(),
            None => &[],
        }
    }

    /// What is left of it.
    fn left(&self) -> &[u8]
        ensures left { result.now ≡ left_of self.now }
        ensures within { 0 < length result.now → self.now.at + length result.now < 2 ^ 64 }
    {
        self.bytes().get(self.at..).unwrap_or(&[])
    }

    /// What the next opening of a name gives, of which it is then one.
    fn next_part(&mut self, name: &str) -> Option<OpenPart>
        ensures part { Gives (given (growth_of self.old) name.now) (if is_some result then o.Opened else o.NoSuch) (bytes_of (growth_of self.old) result) }
        ensures growth { growth_of self.new ≡ opened_once (growth_of self.old) name.now }
        ensures counts { (self.new.misses ≡ self.old.misses) × (self.new.came ≡ self.old.came) }
    {
        if self.name.as_str() == name {
            self.openings = self.openings.saturating_add(1);
            if self.openings < self.from {
                return Some(OpenPart::First);
            }
            return Some(OpenPart::Later);
        }
        if self.script.0.as_str() == name {
            return Some(OpenPart::Script);
        }
        None
    }
}

impl Shelf for GrowShelf {
    ghost held = { λ s. untold_files };

    ghost opened = { λ s. untold_names };

    ghost left = { λ s. Some (left_of s) };

    ghost misses = { λ s. s.misses };

    ghost faults = { λ s. 0 };

    ghost came = { λ s. s.came };

    fn open(&mut self, name: &str) -> Opening
        ensures held { untold_files ≡ untold_files }
        ensures told { Logs untold_names untold_names name.now result }
        ensures answer { OpenGives result untold_files name.now (Some (left_of self.new)) }
        ensures faults { RisesIf (has_failed result) 0 0 }
        ensures misses { RisesIf (is_missing result) self.old.misses self.new.misses }
        ensures came { self.new.came ≡ 0 }
        ensures gives { Gives (given (growth_of self.old) name.now) result (left_of self.new) }
        ensures growth { growth_of self.new ≡ opened_once (growth_of self.old) name.now }
    {
        self.part = self.next_part(name);
        self.at = 0;
        self.came = 0;
        if self.part.is_some() {
            Opening::Opened
        } else {
            self.misses = self.misses.saturating_add(1);
            Opening::NoSuch
        }
    }

    fn read(&mut self, buf: &mut [u8]) -> Result<usize, Failed>
        requires room { 0 < length buf.old }
        ensures held { untold_files ≡ untold_files }
        ensures told { untold_names ≡ untold_names }
        ensures bound { ReadsAtMost result buf.new }
        ensures bytes { ReadConsumes (Some (left_of self.old)) (Some (left_of self.new)) result buf.new }
        ensures faults { RisesIf (is_err result) 0 0 }
        ensures misses { self.new.misses ≡ self.old.misses }
        ensures came { self.new.came ≡ came_after self.old.came result }
        ensures growth { growth_of self.new ≡ growth_of self.old }
        ensures count { result ≡ Ok (min (length (left_of self.old)) (length buf.old)) }
    {
        let left = self.left();
        let count = left.len().min(buf.len());
        buf[..count].copy_from_slice(&left[..count]);
        self.at += count;
        self.came = self.came.saturating_add(count as u64);
        Ok(count)
    }
}
