//! The clamp function of a block of a saturating sum.
ghost use Rattle.std.specs.Prelude.{◌≡◌, ℤ, ◌≤ℤ◌, ◌+◌, ◌<◌, ◌^◌, ◌∷◌, length, map};
ghost use Rattle.std.specs.List.{flat_map};
ghost use Rattle.tall_clamp.specs.Clamps.{apply, row_clamp, Sums};

use crate::bounds::{Bounds, between};
use crate::join::{one_after, within_reach};
use crate::runs::of_run;
use std::marker::{Model, PhantomData};
use tall_int::{IntClass, clamp};

/// How many rows one loop takes, so that their shift has room.
const MOST: usize = 1 << 39;

/// A function from a number of the class: add a shift, then go to the nearest number from a least to a greatest one.
/// Contracts see it as these three numbers. It is what a block of rows does to a saturating sum.
#[derive(Clone, Copy, Debug)]
pub struct Clamp<I: IntClass> {
    bounds: Bounds,
    class: PhantomData<I>,
}

impl<I: IntClass> Model for Clamp<I> {
    ghost use Rattle.tall_clamp.specs.declared.bounds.Bounds.{Bounds};
    ghost use Rattle.tall_clamp.specs.Clamps.{IsClamp};

    ghost Value = { Bounds };

    ghost view = { λ c. c.bounds };

    ghost invariant = { λ c. IsClamp I.MIN I.MAX c.bounds };

    ghost inverse = { λ b. record { bounds = b; class = record {} } };
}

impl<I: IntClass> Clamp<I> {
    /// What a row with this value does to a saturating sum.
    pub fn of_value(v: I) -> Clamp<I>
        ensures { result ≡ row_clamp I.MIN I.MAX (I.number v) }
    {
        Clamp {
            bounds: Bounds {
                shift: v.wide(),
                low: I::MIN,
                high: I::MAX,
            },
            class: PhantomData,
        }
    }

    /// This function and then the next one, from each number of the class.
    ///
    /// A shift above 2^110 in magnitude is cut to it, which changes no value.
    pub fn then(self, next: Clamp<I>) -> Clamp<I>
        ensures { (x : ℤ) → I.MIN ≤ℤ x → x ≤ℤ I.MAX → apply result x ≡ apply next (apply self x) }
    {
        Clamp {
            bounds: within_reach(one_after(self.bounds, next.bounds)),
            class: PhantomData,
        }
    }

    /// The function's value at x.
    pub fn apply(self, x: I) -> I
        ensures { I.number result ≡ apply self (I.number x) }
    {
        clamp(between(
            self.bounds.low,
            self.bounds.high,
            x.wide() + self.bounds.shift,
        ))
    }

    /// What a first row and those after it do.
    fn of_run(first: I, rest: &[I]) -> Clamp<I>
        requires { length rest.now + 1 < 2 ^ 40 }
        ensures { Sums I.MIN I.MAX (I.number first ∷ map I.number rest.now) result }
    {
        Clamp {
            bounds: of_run(first, rest),
            class: PhantomData,
        }
    }

    /// What a block of rows does to a saturating sum: from each number of the class, the sum saturates row by row.
    pub fn of_rows(rows: &[I]) -> Clamp<I>
        ensures { Sums I.MIN I.MAX (map I.number rows.now) result }
    {
        match rows {
            [] => Clamp::of_value(I::from_wide(0)),
            [first, rest @ ..] => {
                if rest.len() <= MOST {
                    Clamp::of_run(*first, rest)
                } else {
                    let (front, back) = rest.split_at(MOST);
                    Clamp::of_run(*first, front).then(Clamp::of_rows(back))
                }
            }
        }
    }

    /// What consecutive blocks do, joined in order: from each number of the class, the saturating sum of all their
    /// rows, wherever the cuts are.
    pub fn of_blocks(blocks: &[Vec<I>]) -> Clamp<I>
        ensures { Sums I.MIN I.MAX (map I.number (flat_map (λ b. b.items) blocks.now)) result }
    {
        let mut clamp = Clamp::of_value(I::from_wide(0));
        for block in blocks {
            clamp = clamp.then(Clamp::of_rows(block.as_slice()));
        }
        clamp
    }
}
