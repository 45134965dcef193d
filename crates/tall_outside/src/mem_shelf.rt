//! A shelf of files in memory, for tests.

ghost use Rattle.std.specs.Prelude.{◌≡◌, ℕ, ◌+◌, ◌^◌, ◌<◌, min, max, length, ◌++◌, ◌∷◌, [], Some, None, IsTrue, IsOkAnd, IfOk, IfSome, IfNone, OnOk, OnErr, is_err};
ghost use Rattle.std.specs.Io.{ReadsAtMost};
ghost use Rattle.std.specs.Io.KnownBytes.{ReadConsumes};
ghost use Rattle.tall_outside.specs.Count.{raised, RisesIf};
ghost use Rattle.tall_outside.specs.Shelf.{file_in, openings_of, Logs, OpenGives, has_failed, is_missing, came_after};
ghost use Rattle.tall_outside.specs.MemShelf.{have_distinct_names, files_in, file_at, left_in, texts_of, state_of, plan_of, fresh, no_plan, fails_next_open, fails_next_read, FailsIf};

use crate::shelf::{Failed, Opening, Shelf};
use std::alloc::{AllocError, Global};

/// A shelf of files in memory that tells everything, and whose calls fail where a test plans it.
#[derive(Drop)]
pub struct MemShelf {
    files: Vec<(String, Vec<u8>)>,
    asked: Vec<String>,
    place: Option<usize>,
    at: usize,
    at_most: usize,
    came: u64,
    misses: u64,
    faults: u64,
    opens: u64,
    reads: u64,
    failing_opens: Vec<u64>,
    failing_reads: Vec<u64>,
}

/// Whether no two files have one name.
pub fn has_distinct_names(files: &[(String, Vec<u8>)]) -> bool
    ensures { result ≡ have_distinct_names (files_in files.now) }
{
    for (i, file) in files.iter().enumerate() {
        if place_of(&files[i + 1..], file.0.as_str()).is_some() {
            return false;
        }
    }
    true
}

/// The place of the first file of this name.
pub(crate) fn place_of(files: &[(String, Vec<u8>)], name: &str) -> Option<usize>
    ensures found { IfSome result (λ i. file_in (files_in files.now) name.now ≡ Some (left_in (file_at files.now (Some i)) 0)) }
    ensures missing { IfNone result (file_in (files_in files.now) name.now ≡ None) }
{
    for (i, file) in files.iter().enumerate() {
        if file.0.as_str() == name {
            return Some(i);
        }
    }
    None
}

/// What is left of the file at this place, after some of its bytes.
pub(crate) fn left_at(files: &[(String, Vec<u8>)], place: Option<usize>, at: usize) -> &[u8]
    ensures left { result.now ≡ left_in (file_at files.now place) at }
    ensures within { 0 < length result.now → at + length result.now < 2 ^ 64 }
{
    match place.and_then(|i| files.get(i)) {
        Some(file) => file.1.get(at..).unwrap_or(&[]),
        None => &[],
    }
}

impl MemShelf {
    /// A shelf of these files, of which none is open, with no failure planned. It takes no memory.
    pub fn new(alloc: Global, files: Vec<(String, Vec<u8>)>) -> Result<MemShelf, AllocError>
        requires distinct { IsTrue (have_distinct_names (files_in files.items)) }
        ensures state { IsOkAnd result (λ shelf. state_of shelf ≡ fresh (files_in files.items)) }
        ensures plan { IsOkAnd result (λ shelf. plan_of shelf ≡ no_plan) }
    {
        Ok(MemShelf {
            files,
            asked: Vec::new(alloc),
            place: None,
            at: 0,
            at_most: usize::MAX,
            came: 0,
            misses: 0,
            faults: 0,
            opens: 0,
            reads: 0,
            failing_opens: Vec::new(alloc),
            failing_reads: Vec::new(alloc),
        })
    }

    /// Plans that this call of `open` fails, counted from 1 over the shelf's life.
    pub fn fail_open(&mut self, call: u64) -> Result<(), AllocError>
        ensures state { state_of self.new ≡ state_of self.old }
        ensures ok { OnOk result (plan_of self.new ≡ record (plan_of self.old) { failing_opens = (plan_of self.old).failing_opens ++ call ∷ [] }) }
        ensures err { OnErr result (plan_of self.new ≡ plan_of self.old) }
    {
        self.failing_opens.push(call)?;
        Ok(())
    }

    /// Plans that this call of `read` fails, counted from 1 over the shelf's life.
    pub fn fail_read(&mut self, call: u64) -> Result<(), AllocError>
        ensures state { state_of self.new ≡ state_of self.old }
        ensures ok { OnOk result (plan_of self.new ≡ record (plan_of self.old) { failing_reads = (plan_of self.old).failing_reads ++ call ∷ [] }) }
        ensures err { OnErr result (plan_of self.new ≡ plan_of self.old) }
    {
        self.failing_reads.push(call)?;
        Ok(())
    }

    /// From now on a read gives at most this many bytes, and at least one where one is left.
    pub fn give_at_most(&mut self, count: usize)
        ensures state { state_of self.new ≡ state_of self.old }
        ensures plan { plan_of self.new ≡ record (plan_of self.old) { at_most = count } }
    {
        self.at_most = count;
    }

    /// How often `open` was called with this name.
    pub fn opens(&self, name: &str) -> u64
        ensures { result ≡ openings_of name.now (state_of self.now).opened }
    {
        self.asked
            .iter()
            .filter(|asked| asked.as_str() == name)
            .count() as u64
    }

    /// How often `open` or `read` failed.
    pub fn faults(&self) -> u64
        ensures { result ≡ (state_of self.now).faults }
    {
        self.faults
    }

    /// How often `read` was called.
    pub fn reads(&self) -> u64
        ensures { result ≡ (plan_of self.now).reads }
    {
        self.reads
    }
}

impl Shelf for MemShelf {
    ghost held = { λ s. Some (state_of s).files };

    ghost opened = { λ s. Some (state_of s).opened };

    ghost left = { λ s. Some (state_of s).left };

    ghost misses = { λ s. (state_of s).misses };

    ghost faults = { λ s. (state_of s).faults };

    ghost came = { λ s. (state_of s).came };

    fn open(&mut self, name: &str) -> Opening
        ensures held { (state_of self.new).files ≡ (state_of self.old).files }
        ensures told { Logs (Some (state_of self.old).opened) (Some (state_of self.new).opened) name.now result }
        ensures answer { OpenGives result (Some (state_of self.old).files) name.now (Some (state_of self.new).left) }
        ensures faults { RisesIf (has_failed result) (state_of self.old).faults (state_of self.new).faults }
        ensures misses { RisesIf (is_missing result) (state_of self.old).misses (state_of self.new).misses }
        ensures came { (state_of self.new).came ≡ 0 }

        // A call fails exactly where that was planned, unless memory was wanting.
        ensures planned { FailsIf (fails_next_open (plan_of self.old)) result }
        ensures plan { plan_of self.new ≡ record (plan_of self.old) { opens = raised (plan_of self.old).opens } }
    {
        self.place = None;
        self.came = 0;
        self.opens = self.opens.saturating_add(1);
        if note(&mut self.asked, name).is_err() {
            return Opening::Memory;
        }
        if self.failing_opens.contains(&self.opens) {
            self.faults = self.faults.saturating_add(1);
            return Opening::Failed;
        }
        self.place = place_of(&self.files, name);
        self.at = 0;
        if self.place.is_some() {
            Opening::Opened
        } else {
            self.misses = self.misses.saturating_add(1);
            Opening::NoSuch
        }
    }

    fn read(&mut self, buf: &mut [u8]) -> Result<usize, Failed>
        requires room { 0 < length buf.old }
        ensures held { (state_of self.new).files ≡ (state_of self.old).files }
        ensures told { (state_of self.new).opened ≡ (state_of self.old).opened }
        ensures bound { ReadsAtMost result buf.new }
        ensures bytes { ReadConsumes (Some (state_of self.old).left) (Some (state_of self.new).left) result buf.new }
        ensures faults { RisesIf (is_err result) (state_of self.old).faults (state_of self.new).faults }
        ensures misses { (state_of self.new).misses ≡ (state_of self.old).misses }
        ensures came { (state_of self.new).came ≡ came_after (state_of self.old).came result }

        // A call fails exactly where that was planned, and else gives as many bytes as it may.
        ensures planned { is_err result ≡ fails_next_read (plan_of self.old) }
        ensures count { IfOk result (λ n. n ≡ min (min (length (state_of self.old).left) (length buf.old)) (max (plan_of self.old).at_most 1)) }
        ensures plan { plan_of self.new ≡ record (plan_of self.old) { reads = raised (plan_of self.old).reads } }
    {
        self.reads = self.reads.saturating_add(1);
        if self.failing_reads.contains(&self.reads) {
            self.faults = self.faults.saturating_add(1);
            return Err(Failed);
        }
        let left = left_at(&self.files, self.place, self.at);
        let count = left.len().min(buf.len()).min(self.at_most.max(1));
        buf[..count].copy_from_slice(&left[..count]);
        self.at += count;
        self.came = self.came.saturating_add(count as u64);
        Ok(count)
    }
}

/// Adds a name to a list.
#[tactic(auto, using(std::proofs::lemmas::List::map_push))]
pub(crate) fn note(names: &mut Vec<String>, name: &str) -> Result<(), AllocError>
    ensures ok { OnOk result (texts_of names.new.items ≡ texts_of names.old.items ++ name.now ∷ []) }
    ensures err { OnErr result (names.new.items ≡ names.old.items) }
{
    let name = String::from_str(*names.allocator(), name)?;
    names.push(name)?;
    Ok(())
}
