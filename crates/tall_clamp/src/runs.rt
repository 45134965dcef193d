//! Rows of one class, folded at once: loops over slices in machine integers.
ghost use Rattle.std.specs.Prelude.{◌≡◌, ◌+◌, ◌^◌, ◌<◌, ◌≤◌, ◌+ℤ◌, ◌≤ℤ◌, pos, negsuc, length, map, Some};
ghost use Rattle.std.specs.List.{fold};
ghost use Rattle.tall_clamp.specs.Clamps.{after, row_clamp};
ghost use Rattle.tall_clamp.specs.Folds.{IsSum, IsTotal};
ghost use Rattle.tall_clamp.specs.Outcomes.{total};

use crate::bounds::Bounds;
use tall_int::{IntClass, sat_add};

/// A shift, and the number of one row more.
fn next_shift<I: IntClass>(shift: i128, v: I) -> i128
    requires least { negsuc 1298074214633706907132624082305023 ≤ℤ shift }
    requires greatest { shift ≤ℤ pos 1298074214633706907132624082305024 }
    ensures value { result ≡ shift +ℤ I.number v }
    ensures input { (I.MIN ≤ℤ I.number v) × (I.number v ≤ℤ I.MAX) }
{
    shift + v.wide()
}

/// What a first row and those after it do to a saturating sum. The ends go along in the class itself, as two sums that
/// begin at its ends.
pub(crate) fn of_run<I: IntClass>(first: I, rest: &[I]) -> Bounds
    requires { length rest.now + 1 < 2 ^ 40 }
    ensures value { result ≡ fold (λ a v. after a (row_clamp I.MIN I.MAX (I.number v))) (row_clamp I.MIN I.MAX (I.number first)) rest.now }
    ensures sum { IsSum result (1 + length rest.now) }
    ensures low { I.MIN ≤ℤ result.low }
    ensures high { result.high ≤ℤ I.MAX }
    ensures input { (I.MIN ≤ℤ I.number first) × (I.number first ≤ℤ I.MAX) }
{
    let mut shift = first.wide();
    let mut low = I::from_wide(I::MIN);
    let mut high = I::from_wide(I::MAX);
    for v in rest {
        shift = next_shift(shift, *v);
        low = sat_add(low, *v);
        high = sat_add(high, *v);
    }
    Bounds {
        shift,
        low: low.wide(),
        high: high.wide(),
    }
}

/// How many numbers of 32 bits a sum of 64 has room for.
const MOST: usize = 1 << 30;

/// The number of a value of a class within 32 bits.
fn word<I: IntClass>(v: I) -> i64
    requires { I.MAX ≤ℤ pos 4294967295 }
    ensures value { result ≡ I.number v }
    ensures low { negsuc 4294967295 ≤ℤ result }
    ensures high { result ≤ℤ pos 4294967295 }
{
    v.wide() as i64
}

/// A sum of 64 bits, and the number of one row more.
fn next_sum<I: IntClass>(sum: i64, v: I) -> i64
    requires class { I.MAX ≤ℤ pos 4294967295 }
    requires least { negsuc 4611686018427387903 ≤ℤ sum }
    requires greatest { sum ≤ℤ pos 4611686018427387904 }
    ensures value { result ≡ sum +ℤ I.number v }
    ensures low { negsuc 4294967295 ≤ℤ I.number v }
    ensures high { I.number v ≤ℤ pos 4294967295 }
{
    sum + word(v)
}

/// A sum, and a number of 64 bits.
pub(crate) fn plus(sum: i128, n: i64) -> i128
    requires least { negsuc 1298074214633706907132624082305023 ≤ℤ sum }
    requires greatest { sum ≤ℤ pos 1298074214633706907132624082305024 }
    ensures { result ≡ sum +ℤ n }
{
    sum + n as i128
}

/// The total of few rows of a class within 32 bits.
fn small_total<I: IntClass>(rows: &[I]) -> i64
    requires class { I.MAX ≤ℤ pos 4294967295 }
    requires few { length rows.now ≤ 2 ^ 30 }
    ensures value { result ≡ total (map I.number rows.now) }
    ensures sum { IsTotal (Some result) (length rows.now) }
{
    let mut sum = 0i64;
    for v in rows {
        sum = next_sum(sum, *v);
    }
    sum
}

/// The total of rows of any class.
fn wide_total<I: IntClass>(rows: &[I]) -> i128
    requires { length rows.now < 2 ^ 40 }
    ensures value { result ≡ total (map I.number rows.now) }
    ensures sum { IsTotal (Some result) (length rows.now) }
{
    let mut sum = 0i128;
    for v in rows {
        sum = next_shift(sum, *v);
    }
    sum
}

/// The total of rows, in sums of 64 bits where the class allows it.
pub(crate) fn total_of<I: IntClass>(rows: &[I]) -> i128
    requires { length rows.now < 2 ^ 40 }
    ensures value { result ≡ total (map I.number rows.now) }
    ensures sum { IsTotal (Some result) (length rows.now) }
{
    if I::MAX > u32::MAX as i128 {
        wide_total(rows)
    } else if rows.len() <= MOST {
        small_total(rows) as i128
    } else {
        let (front, back) = rows.split_at(MOST);
        plus(total_of(back), small_total(front))
    }
}
