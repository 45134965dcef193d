// Finding blocks of whole records.

ghost use Rattle.std.specs.Prelude.{◌≡◌, ◌+◌, ◌<◌, ◌≤◌, IfOk, [], true};
ghost use Rattle.tall_scan.specs.declared.state.ScanState.TheVariants as s;
ghost use Rattle.tall_scan.specs.Scanning.{begun_in};
ghost use Rattle.tall_scan.specs.Finding.{Adds, Fills, Finds, Waits, source_left};

use crate::raw::RawBlock;
use crate::scanning::{Scan, scan_records};
use crate::source::Source;
use crate::state::ScanState;
use std::alloc::AllocError;
use std::io::Read;

/// What finding the next block gave.
#[derive(Drop)]
pub enum Found {
    /// The next records, at least one.
    Block(RawBlock),
    /// No record is left.
    End,
    /// A read failed, or memory was wanting.
    Stopped,
}

// How the filling of a block ended.
#[derive(Clone, Copy)]
pub(crate) enum Filled {
    // It has as many records as were asked for.
    Most,
    // The bytes came to their end in this state, and so many records ended.
    End(ScanState, u64),
    // A read failed, or memory was wanting.
    Stopped,
}

// What stands in a source's buffer.
#[derive(Clone, Copy)]
pub(crate) enum Waiting {
    // Some bytes.
    Some,
    // None, and none will come.
    End,
    // None, and a read failed.
    Failed,
}

// Reads on where the buffer is empty.
fn wait<R: Read>(source: &mut Source<R>) -> Waiting
    requires { source.old.begun ≡ true }
    ensures begun { source.new.begun ≡ true }
    ensures left { Waits result (source_left R.remaining source.old) (source_left R.remaining source.new) }
{
    if source.at < source.filled {
        return Waiting::Some;
    }
    match source.refill() {
        Ok(true) => return Waiting::Some,
        Ok(false) => return Waiting::End,
        Err(_) => return Waiting::Failed,
    }
}

// Takes bytes that stand in the buffer, up to the end of the last record that is asked for.
fn take_some<R: Read>(
    source: &mut Source<R>,
    bytes: &mut Vec<u8>,
    delimiter: u8,
    state: ScanState,
    most: u64,
) -> Result<Scan, AllocError>
    requires begun { source.old.begun ≡ true }
    requires most { 0 < most }
    ensures begun { source.new.begun ≡ true }
    ensures adds { IfOk result (λ scan. Adds delimiter state bytes.old.items bytes.new.items (source_left R.remaining source.old) (source_left R.remaining source.new) scan) }
    ensures most { IfOk result (λ scan. scan.ended ≤ most) }
    ensures full { IfOk result (λ scan. scan.ended ≡ most → scan.state ≡ s.Between) }
{
    let waiting = source.waiting();
    let scan = scan_records(delimiter, state, waiting, most);
    bytes.extend_from_slice(&waiting[..scan.taken])?;
    source.at += scan.taken;
    Ok(scan)
}

// Fills a block with the bytes of the next records.
#[tactic(auto, using(crate::proofs::Fills::scanned_none, crate::proofs::Fills::scanned_more, crate::proofs::Fills::scanned_kept))]
fn fill<R: Read>(source: &mut Source<R>, bytes: &mut Vec<u8>, delimiter: u8, most: u64) -> Filled
    requires begun { source.old.begun ≡ true }
    requires most { 0 < most }
    requires none { bytes.old.items ≡ [] }
    ensures { Fills delimiter most result bytes.new.items (source_left R.remaining source.old) (source_left R.remaining source.new) }
{
    let mut state = ScanState::Between;
    let mut ended = 0;
    for _turn in 0..u64::MAX {
        match wait(source) {
            Waiting::Some => {}
            Waiting::End => return Filled::End(state, ended),
            Waiting::Failed => return Filled::Stopped,
        }
        match take_some(source, bytes, delimiter, state, most - ended) {
            Ok(scan) => {
                state = scan.state;
                ended += scan.ended;
                if ended == most {
                    return Filled::Most;
                }
            }
            Err(_) => return Filled::Stopped,
        }
    }
    Filled::Stopped
}

// How many records bytes have that end in a state, where so many ended before.
fn count_of(state: ScanState, ended: u64, most: u64) -> u64
    requires { ended < most }
    ensures count { result ≡ ended + begun_in state }
    ensures most { result ≤ most }
{
    if state.is_between() { ended } else { ended + 1 }
}

/// Finds the next records, as many as are asked for, fewer only at the end. The memory of `spare` is used for them.
///
/// No field is read. `End` comes exactly where no record is left; `Stopped` where a read failed or memory was wanting, and
/// then what is left is not known.
#[tactic(auto, using(crate::proofs::Fills::scanned_count, crate::proofs::Fills::count_between, crate::proofs::Fills::between_takes, crate::proofs::Fills::end_takes, crate::proofs::Fills::none_found))]
pub fn find_block<R: Read>(
    source: &mut Source<R>,
    spare: Vec<u8>,
    delimiter: u8,
    most: u64,
) -> Found
    requires { 0 < most }
    ensures { Finds delimiter most result (source_left R.remaining source.old) (source_left R.remaining source.new) }
{
    if source.begin().is_err() {
        return Found::Stopped;
    }
    let mut bytes = spare;
    bytes.clear();
    match fill(source, &mut bytes, delimiter, most) {
        Filled::Most => {
            return Found::Block(RawBlock {
                bytes,
                count: most,
                delimiter,
            });
        }
        Filled::End(state, ended) => {
            let count = count_of(state, ended, most);
            if count == 0 {
                return Found::End;
            }
            return Found::Block(RawBlock {
                bytes,
                count,
                delimiter,
            });
        }
        Filled::Stopped => return Found::Stopped,
    }
}
