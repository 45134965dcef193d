//! How many records each file of a datastore has.
ghost use Rattle.std.specs.Prelude.{◌≡◌, ◌≢◌, ◌<◌, IfErr, IfOk, None, Some, length, replicate};
ghost use Rattle.tall_pass.specs.Counts.{count_at};
ghost use Rattle.tall_pass.specs.Taken.{IsNoted};

use std::alloc::{AllocError, Global};
use std::marker::Model;

/// The number of records of each file of a datastore, by its place in the list, from 0; none where no pass has counted it.
/// It keeps its allocator.
#[derive(Drop)]
pub struct FileCounts {
    counts: Vec<Option<u64>>,
}

impl Model for FileCounts {
    ghost use Rattle.std.specs.Prelude.{ℕ, List, Option};

    ghost Value = { List (Option ℕ) };

    ghost view = { λ c. c.counts.items };
}

impl FileCounts {
    /// Of so many files, none of which was counted.
    pub fn new(alloc: Global, files: u32) -> Result<FileCounts, AllocError>
        ensures { IfOk result (λ c. c ≡ replicate files None) }
    {
        Ok(FileCounts {
            counts: Vec::from_elem(alloc, None, files as usize)?,
        })
    }

    /// How many records a file has; None exactly where no pass has counted it.
    pub fn get(&self, file: u32) -> Option<u64>
        ensures { result ≡ count_at self.now file }
    {
        match self.counts.get(file as usize) {
            Some(count) => *count,
            None => None,
        }
    }

    /// The same numbers once more.
    pub(crate) fn copy(&self) -> Result<FileCounts, AllocError>
        ensures { IfOk result (λ c. c ≡ self.now) }
    {
        Ok(FileCounts {
            counts: self.counts.clone()?,
        })
    }

    /// Keeps how many records a file has.
    ///
    /// # Errors
    /// The number that was kept before, where it is another.
    pub(crate) fn note(&mut self, file: u32, records: u64) -> Result<(), u64>
        requires { file < length self.old }
        ensures noted { IfOk result (λ _. IsNoted file records self.old self.new) }
        ensures other { IfErr result (λ first. (count_at self.old file ≡ Some first) × (first ≢ records)) }
    {
        match self.get(file) {
            Some(first) if first != records => Err(first),
            _ => {
                self.counts[file as usize] = Some(records);
                Ok(())
            }
        }
    }
}
