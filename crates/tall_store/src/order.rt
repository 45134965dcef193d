//! The order of reading faults.
ghost use Rattle.std.specs.Prelude.{◌≡◌, Some};
ghost use Rattle.tall_store.specs.ReadingOrder.{earlier_of, kind_rank, precedes, reading_place};

use crate::faults::{ReadingFault, ReadingKind};

// The rank of a kind among faults at one place.
fn rank(kind: ReadingKind) -> u64
    ensures { result ≡ kind_rank kind }
{
    match kind {
        ReadingKind::NoFile => 0,
        ReadingKind::HeaderDiffers => 1,
        ReadingKind::TooManyRows => 2,
        ReadingKind::TooManyFields => 3,
        ReadingKind::BadField => 4,
        ReadingKind::BadText => 5,
        ReadingKind::NotWhole => 6,
        ReadingKind::Inexact => 7,
    }
}

impl ReadingFault {
    // Where the fault stands in the order of faults.
    fn place(self) -> [u64; 4]
        ensures { result ≡ reading_place self }
    {
        [
            self.row,
            self.column as u64,
            self.file as u64,
            rank(self.kind),
        ]
    }

    /// Whether the fault comes before another: by row, then column, then file, then kind.
    pub fn precedes(self, other: ReadingFault) -> bool
        ensures { result ≡ precedes self other }
    {
        self.place() < other.place()
    }
}

/// The earlier of a fault, if there is one, and another.
pub(crate) fn earlier(fault: Option<ReadingFault>, found: ReadingFault) -> ReadingFault
    ensures { Some result ≡ earlier_of fault (Some found) }
{
    match fault {
        None => found,
        Some(fault) => { if found.precedes(fault) { found } else { fault } }
    }
}
