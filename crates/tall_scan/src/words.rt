// A scan of 64 bytes at once: bit k of a word tells of byte k.

ghost use Rattle.std.specs.Prelude.{◌≡◌, ◌+◌, ◌-◌, ◌<◌, ◌≤◌, ◌==◌, ℕ, IfSome, length, min, slice_index, take, true};
ghost use Rattle.std.specs.Int.{bit_at};
ghost use Rattle.tall_scan.specs.declared.state.ScanState.{ScanState};
ghost use Rattle.tall_scan.specs.Scanning.{is_line_end, is_plain, scan_after, scan_ended};
ghost use Rattle.tall_scan.specs.Words.{Carries, IsToldBy, before, one_if};

use crate::state::ScanState;
use std::simd::prelude::*;

// How many bytes a word tells of.
pub(crate) const WIDTH: usize = 64;

// What the bytes so far tell of those to come, each 0 or 1.
#[derive(Clone, Copy)]
pub(crate) struct Carry {
    // The last byte is between quotes, or opens them.
    pub(crate) inside: u64,
    // A quote behind the last byte opens.
    pub(crate) opens: u64,
    // The last byte ends a line outside quotes.
    pub(crate) line: u64,
}

// What 64 bytes tell.
#[derive(Clone, Copy)]
pub(crate) struct Marked {
    pub(crate) carry: Carry,
    // How many records they end.
    pub(crate) ended: u64,
}

// What a state tells of the bytes to come.
pub(crate) fn carry_of(state: ScanState) -> Carry
    ensures { Carries state result }
{
    let (inside, opens, line) = match state {
        ScanState::Between => (0, 1, 1),
        ScanState::Quotable => (0, 1, 0),
        ScanState::Unquoted => (0, 0, 0),
        ScanState::Quoted => (1, 0, 0),
    };
    Carry {
        inside,
        opens,
        line,
    }
}

// The state that tells this.
pub(crate) fn state_of(carry: Carry) -> ScanState
    ensures { (a : ScanState) → Carries a carry → result ≡ a }
{
    if carry.inside != 0 {
        ScanState::Quoted
    } else if carry.opens == 0 {
        ScanState::Unquoted
    } else if carry.line == 0 {
        ScanState::Quotable
    } else {
        ScanState::Between
    }
}

#[inline(always)]
fn equals(v: u8x64, byte: u8) -> u64
    ensures { (k : ℕ) → k < 64 → bit_at result k ≡ one_if (slice_index v k == byte) }
{
    v.simd_eq(u8x64::splat(byte)).to_bitmask()
}

#[inline(always)]
fn line_ends(v: u8x64) -> u64
    ensures { (k : ℕ) → k < 64 → bit_at result k ≡ one_if (is_line_end (slice_index v k)) }
{
    let carriage = equals(v, b'\r');
    let feed = equals(v, b'\n');
    carriage | feed
}

// Each bit one place on, and the carry in front.
#[inline(always)]
fn after(word: u64, carry: u64) -> u64
    ensures { carry < 2 → (k : ℕ) → k < 64 → bit_at result k ≡ before carry (λ j. bit_at word j) k }
{
    (word << 1) | carry
}

#[inline(always)]
fn without(word: u64, other: u64) -> u64
    ensures { (k : ℕ) → k < 64 → bit_at result k ≡ min (bit_at word k) (1 - bit_at other k) }
{
    word & !other
}

#[inline(always)]
fn last(word: u64) -> u64
    ensures { result ≡ bit_at word 63 }
{
    word >> 63
}

// Which bytes are between quotes: at each place, whether the quotes up to it are odd in number. It has no clause: that
// it is so is tested where it is used.
#[inline(always)]
fn parity(quotes: u64, inside: u64) -> u64 {
    let a = quotes ^ (quotes << 1);
    let b = a ^ (a << 2);
    let c = b ^ (b << 4);
    let d = c ^ (c << 8);
    let e = d ^ (d << 16);
    let f = e ^ (e << 32);
    f ^ 0u64.wrapping_sub(inside)
}

// What 64 bytes tell, unless one of them is a quote that opens nothing.
#[inline(always)]
pub(crate) fn mark(v: u8x64, delimiter: u8, carry: Carry) -> Option<Marked>
    requires { is_plain delimiter ≡ true }
    ensures { IfSome result (λ m. (a : ScanState) → Carries a carry
        → Carries (scan_after delimiter a v) m.carry × (scan_ended delimiter a v ≡ m.ended)) }
{
    let quotes = equals(v, b'"');
    let lines = line_ends(v);
    let delimiters = equals(v, delimiter);
    let inside = parity(quotes, carry.inside);
    let inside_before = after(inside, carry.inside);
    if (inside ^ inside_before) != quotes {
        return None;
    }
    let opens = without(quotes | lines | delimiters, inside);
    let opens_before = after(opens, carry.opens);
    if without(quotes & inside, opens_before) != 0 {
        return None;
    }
    let line = without(lines, inside);
    let line_before = after(line, carry.line);
    let ends = without(line, line_before);
    let carry = Carry {
        inside: last(inside),
        opens: last(opens),
        line: last(line),
    };
    Some(Marked {
        carry,
        ended: ends.count_ones() as u64,
    })
}

// How far a scan by words came.
#[derive(Clone, Copy)]
pub(crate) struct Run {
    pub(crate) carry: Carry,
    pub(crate) taken: usize,
    pub(crate) ended: u64,
}

// Scans 64 bytes at a time, as long as words tell and fewer records end than `most`.
pub(crate) fn scan_words(delimiter: u8, start: Carry, bytes: &[u8], most: u64) -> Run
    requires plain { is_plain delimiter ≡ true }
    requires most { 0 < most }
    ensures taken { result.taken ≤ length bytes.now }
    ensures fewer { result.ended < most }
    ensures scans { (a : ScanState) → Carries a start
        → Carries (scan_after delimiter a (take result.taken bytes.now)) result.carry × (scan_ended delimiter a (take result.taken bytes.now) ≡ result.ended) }
{
    let mut carry = start;
    let mut taken = 0;
    let mut ended = 0;
    while bytes.len() - taken >= WIDTH {
        match mark(u8x64::from_slice(&bytes[taken..]), delimiter, carry) {
            Some(marked) if marked.ended < most - ended => {
                carry = marked.carry;
                ended += marked.ended;
                taken += WIDTH;
            }
            _ => break,
        }
    }
    Run {
        carry,
        taken,
        ended,
    }
}
