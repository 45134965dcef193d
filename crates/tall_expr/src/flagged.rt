//! Parts of a script, or the line of the first expression in them that is higher than it may be.
ghost use Rattle.std.specs.Prelude.{◌≡◌, IfOk};
ghost use Rattle.tall_grammar.specs.Kept as spec;

use crate::kept::Kept;
use sqlite_items::Items;
use std::alloc::AllocError;
use tall_grammar::faults::TooHigh;

/// A part of a script, or the first expression in it that is higher than it may be.
pub type Flagged<T> = Result<T, TooHigh>;

/// An expression on a line.
pub fn settled<T: Drop>(line: u32, kept: Kept<T>) -> Flagged<T>
    ensures { result ≡ spec.settled line kept }
{
    match kept {
        Some((part, _)) => Ok(part),
        None => Err(TooHigh { line }),
    }
}

/// The parts with one more.
pub fn and_last<T: Drop>(
    found: Flagged<Items<T>>,
    last: Flagged<T>,
) -> Result<Flagged<Items<T>>, AllocError>
    ensures { IfOk result (λ all. all ≡ spec.and_last found last) }
{
    match (found, last) {
        (Ok(mut found), Ok(last)) => {
            found.push(last)?;
            Ok(Ok(found))
        }
        (Ok(_), Err(high)) => Ok(Err(high)),
        (Err(high), _) => Ok(Err(high)),
    }
}
