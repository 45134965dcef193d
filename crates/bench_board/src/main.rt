//! What the board costs: so many places, each with so many steps of work, done by so many workers, so many times over
//! (bench/board.py runs it beside a queue under a lock).
//!
//! The words are the places, the steps of a place, the workers and the turns. It prints the sum of the last turn.
#![tactic(auto)]

ghost use Rattle.std.specs.Prelude.{◌<◌, ◌≤◌, ◌^◌};

use std::alloc::AllocError;
use std::{env, io};
use tall_board::{Right, Task};
use tall_crew::work;
use tall_outside::OpenGate;

/// A number of each place, by so many steps that each wait for the one before.
#[derive(Drop)]
struct Chain {
    steps: u64,
}

impl Right for Chain {
    type Piece = u64;

    ghost right = { λ _ _ _. Unit {0} };
}

impl Task for Chain {
    fn piece(&self, place: u64) -> u64 {
        let mut x = place.wrapping_add(1);
        for _step in 0..self.steps {
            x = (x ^ (x >> 29)).wrapping_mul(0xbf58476d1ce4e5b9);
        }
        x
    }
}

fn number(words: &[String], at: usize) -> u64 {
    match words.get(at) {
        Some(word) => word.as_str().parse().unwrap_or(0),
        None => 0,
    }
}

fn places_of(words: &[String]) -> u64
    ensures { result < 2 ^ 32 }
{
    number(words, 1).min(u32::MAX as u64)
}

fn workers_of(words: &[String]) -> u32
    ensures { 0 < result }
{
    number(words, 3).clamp(1, 64) as u32
}

fn main(rt: HostRuntime) -> io::Result<()> {
    let mut words = Vec::new(rt.alloc());
    for word in env::args(&rt)? {
        words.push(word)?;
    }
    let words = words.as_slice();
    let mut sum = 0u64;
    for _turn in 0..number(words, 4) {
        let task = Chain {
            steps: number(words, 2),
        };
        let Ok(pieces) = work(
            &rt,
            rt.alloc(),
            &OpenGate,
            task,
            places_of(words),
            workers_of(words),
        ) else {
            return Err(AllocError.into());
        };
        sum = pieces.iter().fold(0, |sum, piece| sum.wrapping_add(*piece));
    }
    println!(rt; "{sum}")?;
    Ok(())
}
