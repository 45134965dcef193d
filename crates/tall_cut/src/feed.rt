//! A file of a shelf, opened as a reader of its bytes.

ghost use Rattle.std.specs.Prelude.{◌≡◌, ◌≤◌, ◌<◌, ◌^◌, ℕ, List, Option, Some, true, false};
ghost use Rattle.std.specs.Borrow.{GName};
ghost use Rattle.tall_outside.specs.Count.{Rose};
ghost use Rattle.tall_outside.specs.Shelf.{Files};
ghost use Rattle.tall_cut.specs.Feed.{HasCome, HasCome-prop, Inside, Inside-prop};

use std::io;
use std::io::Read;
use std::marker::{Brand, PhantomData};
use tall_outside::Shelf;

/// One opening of a file, named by what is known when it is asked for.
///
/// `csv` says nothing of the reader under it after a read. So these facts stand in the feed's type,
/// and any feed of the type has them. The caller of the function that opens a file picks them.
pub trait OpenedFile {
    /// The reference to the shelf that reads the file.
    ghost lender: { Option GName };
    /// What the shelf tells that it holds.
    ghost held: { Option Files };
    /// The names that were opened, this one included, where the shelf tells them.
    ghost opened: { Option (List (List ℕ)) };
    /// How often the shelf missed a name before.
    ghost misses: { ℕ };
    /// How often the shelf failed before.
    ghost faults: { ℕ };
    /// How many bytes may come.
    ghost limit: { ℕ };
    /// How many bytes the file has, where that is told.
    ghost size: { Option ℕ };
}

impl OpenedFile for Brand {
    ghost use Rattle.std.specs.Prelude.{None};

    ghost lender = { None };

    ghost held = { None };

    ghost opened = { None };

    ghost misses = { 0 };

    ghost faults = { 0 };

    ghost limit = { 0 };

    ghost size = { None };
}

/// A shelf that is lent whole: the reference that goes in comes back, so its last value is known.
#[derive(Drop)]
pub struct Lent<'s, S> {
    /// The shelf.
    pub shelf: &'s mut S,
}

/// Why a file could not be opened.
#[derive(Clone, Copy, PartialEq, Eq, Debug)]
pub enum FeedFault {
    /// The shelf holds no file of this name.
    NoSuch,
    /// The shelf failed.
    Failed,
    /// Memory was wanting.
    Memory,
}

/// A fault of `open_feed`, with the shelf that it was lent.
#[derive(Drop)]
pub struct Refused<'s, S> {
    /// Why.
    pub fault: FeedFault,
    /// The shelf.
    pub lent: Lent<'s, S>,
}

/// The bytes of the open file of a shelf, of which no more than `limit` may come.
///
/// A read fails where the shelf's read fails, and where more than `limit` bytes came before; then every later
/// read fails too, so a file that is longer never comes to its end. A byte order mark is a part of the bytes.
#[derive(Drop)]
pub struct Feed<'s, S: Shelf, K: OpenedFile> {
    pub(crate) shelf: &'s mut S,
    pub(crate) limit: u64,
    pub(crate) came: u64,
    pub(crate) failed: bool,
    pub(crate) too_large: bool,
    // The last read of the shelf gave no byte, so the file is at its end.
    pub(crate) at_end: bool,
    pub(crate) opening: PhantomData<K>,
    ghost bound: { limit ≡ K.limit },
    ghost files: { S.held shelf.now ≡ K.held },
    ghost names: { (names : List (List ℕ)) → K.opened ≡ Some names → S.opened shelf.now ≡ Some names },
    ghost missed: { S.misses shelf.now ≡ K.misses },
    ghost same: { Some shelf.ghost_name ≡ K.lender },
    ghost later: { K.faults ≤ S.faults shelf.now },
    ghost rose: { failed ≡ true → Rose K.faults (S.faults shelf.now) },
    ghost calm: { failed ≡ false → S.faults shelf.now ≡ K.faults },
    ghost count: { came ≡ S.came shelf.now },
    ghost small: { S.came shelf.now < 2 ^ 64 },
    ghost large: { too_large ≡ true → limit < S.came shelf.now },
    ghost fits: { too_large ≡ false → S.came shelf.now ≤ limit },
    ghost ends: { at_end ≡ true → too_large ≡ false },
    ghost come: { HasCome at_end K.size (S.came shelf.now) } by { HasCome-prop at_end K.size (S.came shelf.now) },
    ghost inside: { Inside K.size (S.came shelf.now) (S.left shelf.now) } by { Inside-prop K.size (S.came shelf.now) (S.left shelf.now) },
}

impl<'s, S: Shelf, K: OpenedFile> Read for Feed<'s, S, K> {
    ghost use Rattle.std.specs.Prelude.{◌⊎◌, IsErr};
    ghost use Rattle.std.specs.Io.{ReadsAtMost};
    ghost use Rattle.std.specs.Io.KnownBytes.{ReadConsumes};
    ghost use Rattle.tall_cut.specs.Left.{feed_left};

    ghost remaining = { λ s. S.left s.shelf.now };

    fn read(&mut self, buf: &mut [u8]) -> io::Result<usize>
        ensures bound { ReadsAtMost result buf.new }
        ensures bytes { ReadConsumes (feed_left self.old) (feed_left self.new) result buf.new }
        ensures failed { self.old.failed ≡ true → IsErr result }
        ensures large { self.old.too_large ≡ true → IsErr result }
        ensures why { IsErr result → (self.new.failed ≡ true) ⊎ (self.new.too_large ≡ true) }
    {
        if self.failed || self.too_large {
            return Err(io::Error::from(io::ErrorKind::Other));
        }
        if buf.is_empty() {
            return Ok(0);
        }
        match self.shelf.read(buf) {
            Ok(count) => {
                self.came = self.came.saturating_add(count as u64);
                self.too_large = self.came > self.limit;
                self.at_end = count == 0;
                Ok(count)
            }
            Err(_) => {
                self.failed = true;
                Err(io::Error::from(io::ErrorKind::Other))
            }
        }
    }
}

impl<'s, S: Shelf, K: OpenedFile> Feed<'s, S, K> {
    ghost use Rattle.tall_cut.specs.Asked.{Returns};

    // Whether a read of the shelf failed.
    pub(crate) fn failed(&self) -> bool
        ensures { result ≡ self.now.failed }
    {
        self.failed
    }

    // Whether more bytes came than the limit.
    pub(crate) fn too_large(&self) -> bool
        ensures { result ≡ self.now.too_large }
    {
        self.too_large
    }

    // Whether the file came to its end: the last read gave no byte.
    pub(crate) fn is_at_end(&self) -> bool
        ensures { result ≡ self.now.at_end }
    {
        self.at_end
    }

    /// The shelf.
    pub fn into_lent(self) -> Lent<'s, S>
        ensures returns { Returns S.Shelf K.OpenedFile result.shelf.ghost_name result.shelf.now }
        ensures same { result.shelf.now ≡ self.entry.shelf.now }
    {
        let Feed { shelf, .. } = self;
        Lent { shelf }
    }
}
