//! The earlier of two faults of operations.
ghost use Rattle.std.specs.Prelude.{◌≡◌, option_map};
ghost use Rattle.tall_semantics.specs.Faults.{earlier, fault_seen, precedes};

use tall_value::Fault;

/// Whether a fault comes before another: by number, then by row.
fn precedes(fault: &Fault, other: &Fault) -> bool
    ensures { result ≡ precedes (fault_seen fault.now) (fault_seen other.now) }
{
    if fault.number < other.number {
        return true;
    }
    if other.number < fault.number {
        return false;
    }
    match fault.row {
        None => other.row.is_some(),
        Some(row) => match other.row {
            None => false,
            Some(later) => row < later,
        },
    }
}

/// The earlier of two faults, and the first where neither comes before the other.
pub fn earlier(fault: Option<Fault>, other: Option<Fault>) -> Option<Fault>
    ensures { option_map fault_seen result ≡ earlier (option_map fault_seen fault) (option_map fault_seen other) }
{
    match fault {
        None => other,
        Some(found) => match other {
            None => Some(found),
            Some(later) => {
                if precedes(&later, &found) {
                    Some(later)
                } else {
                    Some(found)
                }
            }
        },
    }
}
