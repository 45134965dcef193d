//! A shelf over files in memory whose calls never fail.

ghost use Rattle.std.specs.Prelude.{◌≡◌, ◌<◌, min, length, Ok, Some, IsTrue, IsOkAnd, false, is_err};
ghost use Rattle.std.specs.Io.{ReadsAtMost};
ghost use Rattle.std.specs.Io.KnownBytes.{ReadConsumes};
ghost use Rattle.tall_outside.specs.Count.{RisesIf};
ghost use Rattle.tall_outside.specs.Shelf.{Logs, OpenGives, has_failed, is_missing, came_after};
ghost use Rattle.tall_outside.specs.MemShelf.{have_distinct_names, files_in, fresh};
ghost use Rattle.tall_outside.specs.CalmShelf.{state_of};

use crate::mem_shelf::{left_at, note, place_of};
use crate::shelf::{Failed, Opening, Shelf};
use std::alloc::{AllocError, Global};

/// A shelf that is lent its files, tells everything and never fails: its count of faults is the constant 0. The answer
/// `Memory` of `open` is want of memory for the names that were opened.
#[derive(Drop)]
pub struct CalmShelf<'f> {
    files: &'f [(String, Vec<u8>)],
    asked: Vec<String>,
    place: Option<usize>,
    at: usize,
    came: u64,
    misses: u64,
}

impl<'f> CalmShelf<'f> {
    /// A shelf of these files, of which none is open. It takes no memory.
    pub fn new(alloc: Global, files: &'f [(String, Vec<u8>)]) -> Result<CalmShelf<'f>, AllocError>
        requires distinct { IsTrue (have_distinct_names (files_in files.now)) }
        ensures { IsOkAnd result (λ shelf. state_of shelf ≡ fresh (files_in files.now)) }
    {
        Ok(CalmShelf {
            files,
            asked: Vec::new(alloc),
            place: None,
            at: 0,
            came: 0,
            misses: 0,
        })
    }
}

impl<'f> Shelf for CalmShelf<'f> {
    ghost held = { λ s. Some (state_of s).files };

    ghost opened = { λ s. Some (state_of s).opened };

    ghost left = { λ s. Some (state_of s).left };

    ghost misses = { λ s. (state_of s).misses };

    ghost faults = { λ s. 0 };

    ghost came = { λ s. (state_of s).came };

    fn open(&mut self, name: &str) -> Opening
        ensures held { (state_of self.new).files ≡ (state_of self.old).files }
        ensures told { Logs (Some (state_of self.old).opened) (Some (state_of self.new).opened) name.now result }
        ensures answer { OpenGives result (Some (state_of self.old).files) name.now (Some (state_of self.new).left) }
        ensures faults { RisesIf (has_failed result) 0 0 }
        ensures misses { RisesIf (is_missing result) (state_of self.old).misses (state_of self.new).misses }
        ensures came { (state_of self.new).came ≡ 0 }
        ensures calm { has_failed result ≡ false }
    {
        self.place = None;
        self.came = 0;
        if note(&mut self.asked, name).is_err() {
            return Opening::Memory;
        }
        self.place = place_of(self.files, name);
        self.at = 0;
        if self.place.is_some() {
            Opening::Opened
        } else {
            self.misses = self.misses.saturating_add(1);
            Opening::NoSuch
        }
    }

    fn read(&mut self, buf: &mut [u8]) -> Result<usize, Failed>
        requires room { 0 < length buf.old }
        ensures held { (state_of self.new).files ≡ (state_of self.old).files }
        ensures told { (state_of self.new).opened ≡ (state_of self.old).opened }
        ensures bound { ReadsAtMost result buf.new }
        ensures bytes { ReadConsumes (Some (state_of self.old).left) (Some (state_of self.new).left) result buf.new }
        ensures faults { RisesIf (is_err result) 0 0 }
        ensures misses { (state_of self.new).misses ≡ (state_of self.old).misses }
        ensures came { (state_of self.new).came ≡ came_after (state_of self.old).came result }
        ensures count { result ≡ Ok (min (length (state_of self.old).left) (length buf.old)) }
    {
        let left = left_at(self.files, self.place, self.at);
        let count = left.len().min(buf.len());
        buf[..count].copy_from_slice(&left[..count]);
        self.at += count;
        self.came = self.came.saturating_add(count as u64);
        Ok(count)
    }
}
