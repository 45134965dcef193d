// The ends of records in bytes, without fields.

ghost use Rattle.std.specs.Prelude.{◌≡◌, ◌<◌, ◌≤◌, ℕ, length, take, true};
ghost use Rattle.tall_scan.specs.declared.state.ScanState.TheVariants as s;
ghost use Rattle.tall_scan.specs.Scanning.{ends_record, is_plain, scan_after, scan_ended};

use crate::state::ScanState;
use crate::words::{WIDTH, carry_of, scan_words, state_of};

/// How far a scan came.
#[derive(Clone, Copy, PartialEq, Eq, Debug)]
pub struct Scan {
    /// Where it stands.
    pub state: ScanState,
    /// How many bytes it took.
    pub taken: usize,
    /// How many records end in them.
    pub ended: u64,
}

// How many records a byte ends that leads from one state to another.
#[inline(always)]
fn ends_record(before: ScanState, after: ScanState) -> u64
    ensures { result ≡ ends_record before after }
{
    if !before.is_between() && after.is_between() {
        1
    } else {
        0
    }
}

// Whether a byte is neither a quote nor the end of a line.
fn is_plain(byte: u8) -> bool
    ensures { result ≡ is_plain byte }
{
    byte != b'"' && !(byte == b'\r' || byte == b'\n')
}

// Scans byte by byte.
#[tactic(auto, using(crate::proofs::Scans::after_none, crate::proofs::Scans::ended_none, crate::proofs::Scans::after_more, crate::proofs::Scans::ended_more, crate::proofs::Scans::ends_at_most_one))]
fn scan_bytes(delimiter: u8, start: ScanState, bytes: &[u8], most: u64) -> Scan
    requires { 0 < most }
    ensures state { result.state ≡ scan_after delimiter start (take result.taken bytes.now) }
    ensures ended { result.ended ≡ scan_ended delimiter start (take result.taken bytes.now) }
    ensures most { result.ended ≤ most }
    ensures taken { result.taken ≤ length bytes.now }
    ensures whole { result.taken < length bytes.now → result.ended ≡ most }
    ensures full { result.ended ≡ most → result.state ≡ s.Between }
{
    let mut state = start;
    let mut ended = 0;
    for (i, byte) in bytes.iter().enumerate() {
        let next = state.after(delimiter, *byte);
        ended += ends_record(state, next);
        state = next;
        if ended == most {
            return Scan {
                state,
                taken: i + 1,
                ended,
            };
        }
    }
    Scan {
        state,
        taken: bytes.len(),
        ended,
    }
}

// Scans by words as long as they tell, and then 64 bytes one by one.
#[tactic(auto, using(crate::proofs::Scans::after_none, crate::proofs::Scans::ended_none, crate::proofs::Scans::after_piece, crate::proofs::Scans::ended_piece))]
fn scan_some(delimiter: u8, start: ScanState, bytes: &[u8], most: u64) -> Scan
    requires plain { is_plain delimiter ≡ true }
    requires most { 0 < most }
    ensures state { result.state ≡ scan_after delimiter start (take result.taken bytes.now) }
    ensures ended { result.ended ≡ scan_ended delimiter start (take result.taken bytes.now) }
    ensures most { result.ended ≤ most }
    ensures taken { result.taken ≤ length bytes.now }
    ensures some { 0 < length bytes.now → 0 < result.taken }
    ensures full { result.ended ≡ most → result.state ≡ s.Between }
{
    let run = scan_words(delimiter, carry_of(start), bytes, most);
    let state = state_of(run.carry);
    let end = run.taken + (bytes.len() - run.taken).min(WIDTH);
    let rest = scan_bytes(delimiter, state, &bytes[run.taken..end], most - run.ended);
    Scan {
        state: rest.state,
        taken: run.taken + rest.taken,
        ended: run.ended + rest.ended,
    }
}

/// Scans bytes for the ends of records, up to the end of the last record that is asked for.
///
/// A record is one of `csv`: its line ends with a CR or an LF outside quotes. A scan that stops between records leaves
/// bytes whose records are those of a new text.
#[tactic(auto, using(crate::proofs::Scans::after_none, crate::proofs::Scans::ended_none, crate::proofs::Scans::after_piece, crate::proofs::Scans::ended_piece))]
pub fn scan_records(delimiter: u8, start: ScanState, bytes: &[u8], most: u64) -> Scan
    requires { 0 < most }
    ensures state { result.state ≡ scan_after delimiter start (take result.taken bytes.now) }
    ensures ended { result.ended ≡ scan_ended delimiter start (take result.taken bytes.now) }
    ensures most { result.ended ≤ most }
    ensures taken { result.taken ≤ length bytes.now }
    ensures whole { result.taken < length bytes.now → result.ended ≡ most }
    ensures full { result.ended ≡ most → result.state ≡ s.Between }
{
    if !is_plain(delimiter) {
        return scan_bytes(delimiter, start, bytes, most);
    }
    let mut state = start;
    let mut taken = 0;
    let mut ended = 0;
    while taken < bytes.len() {
        let some = scan_some(delimiter, state, &bytes[taken..], most - ended);
        state = some.state;
        taken += some.taken;
        ended += some.ended;
        if ended == most {
            break;
        }
    }
    Scan {
        state,
        taken,
        ended,
    }
}
