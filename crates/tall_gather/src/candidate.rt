//! The least fault found so far, which bounds the work that is still done.
ghost use Rattle.std.specs.Prelude.{◌≡◌, ◌⊎◌};
ghost use Rattle.tall_semantics.specs.Faults.{earlier, fault_place, precedes};
ghost use Rattle.tall_value.specs.FaultOrder.{row_place};
ghost use Rattle.tall_blocks.specs.PassWork.{is_below};
ghost use Rattle.tall_gather.specs.Candidates.{candidate_seen, seen};

use tall_store::ReadingFault;
use tall_value::Fault;

/// A reading fault of a datastore, with the number and the line of the datastore's call.
#[derive(Clone, Copy)]
pub(crate) struct StoreReading {
    pub store: u32,
    pub number: u32,
    pub line: u32,
    pub fault: ReadingFault,
}

/// A fault of an operation or of a datastore.
#[derive(Clone, Copy)]
pub(crate) enum Candidate {
    Data(Fault),
    Reading(StoreReading),
}

fn row_place(row: Option<u64>) -> u128
    ensures { result ≡ row_place row }
{
    match row {
        None => 0,
        Some(row) => row as u128 + 1,
    }
}

impl Candidate {
    fn number(self) -> u32
        ensures { result ≡ (candidate_seen self).number }
    {
        match self {
            Candidate::Data(fault) => fault.number,
            Candidate::Reading(reading) => reading.number,
        }
    }

    // Where it stands in the order of faults.
    fn place(self) -> [u128; 4]
        ensures { result ≡ fault_place (candidate_seen self) }
    {
        match self {
            Candidate::Data(fault) => [fault.number as u128, row_place(fault.row), 0, 0],
            Candidate::Reading(reading) => [
                reading.number as u128,
                row_place(Some(reading.fault.row)),
                reading.fault.column as u128,
                reading.store as u128,
            ],
        }
    }

    fn precedes(self, other: Candidate) -> bool
        ensures { result ≡ precedes (candidate_seen self) (candidate_seen other) }
    {
        self.place() < other.place()
    }
}

/// The earlier of two faults, and the first where neither comes before the other.
pub(crate) fn earlier(first: Option<Candidate>, other: Option<Candidate>) -> Option<Candidate>
    ensures seen { seen result ≡ earlier (seen first) (seen other) }
    ensures one { (result ≡ first) ⊎ (result ≡ other) }
{
    match first {
        None => other,
        Some(f) => match other {
            None => first,
            Some(g) => { if g.precedes(f) { other } else { first } }
        },
    }
}

/// Whether a number is below the fault's, if there is one.
pub(crate) fn is_below(candidate: Option<Candidate>, number: u32) -> bool
    ensures { result ≡ is_below (seen candidate) number }
{
    match candidate {
        None => true,
        Some(fault) => number < fault.number(),
    }
}
