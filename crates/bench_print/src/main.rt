//! What it costs to print a column: a column of numbers under a name into one buffer, so many turns (bench/print.py runs it).
//!
//! The words are the number of rows, the number of turns, and a class: `int32` or `double`. It prints the length of the text of
//! the last turn.
#![tactic(auto)]

ghost use Rattle.std.specs.Prelude.{◌≡◌, IfOk};
ghost use Rattle.tall_value.specs.declared.class.Class.TheVariants as class;

use std::alloc::{AllocError, Global};
use std::{env, io};
use tall_column::{Column, Value};
use tall_int::Whole;
use tall_print::print_value;
use tall_value::{Cell, Class};

/// The generator's next number, below 2^31.
fn next(state: u64) -> u64 {
    (state % 2_147_483_648 * 1_103_515_245 + 12_345) % 2_147_483_648
}

/// A number of up to ten digits and of either sign, the shorter ones as often as the longer ones.
fn number_of(state: u64) -> i32 {
    let small = (state % 2_147_483_648) as i32 >> (state / 65_536 % 31);
    if state / 1024 % 2 == 0 {
        small
    } else {
        small.wrapping_neg()
    }
}

/// A column of so many of them.
fn integers(alloc: Global, rows: usize) -> Result<Column, AllocError>
    ensures { IfOk result (λ c. c.class ≡ class.Int32) }
{
    let mut column = Column::new(alloc, Class::Int32);
    let mut state = 1;
    for _row in 0..rows {
        state = next(state);
        column.push(&Cell::I32(number_of(state)))?;
    }
    Ok(column)
}

/// The same as doubles.
fn doubles(alloc: Global, rows: usize) -> Result<Column, AllocError>
    ensures { IfOk result (λ c. c.class ≡ class.Double) }
{
    let mut column = Column::new(alloc, Class::Double);
    let mut state = 1;
    for _row in 0..rows {
        state = next(state);
        let number = Whole::new(number_of(state) as i64).unwrap_or(Whole::nan());
        column.push(&Cell::Double(number))?;
    }
    Ok(column)
}

fn number(words: &[String], at: usize) -> usize {
    match words.get(at) {
        Some(word) => word.as_str().parse().unwrap_or(0),
        None => 0,
    }
}

fn is_double(words: &[String]) -> bool {
    match words.get(3) {
        Some(word) => word.as_str() == "double",
        None => false,
    }
}

fn main(rt: HostRuntime) -> io::Result<()> {
    let alloc = rt.alloc();
    let mut words = Vec::new(alloc);
    for word in env::args(&rt)? {
        words.push(word)?;
    }
    let rows = number(words.as_slice(), 1);
    let column = if is_double(words.as_slice()) {
        doubles(alloc, rows)?
    } else {
        integers(alloc, rows)?
    };
    let value = Value::Column(column);
    let mut text = Vec::new(alloc);
    for _turn in 0..number(words.as_slice(), 2) {
        text.clear();
        print_value(alloc, "x", &value, &mut text)?;
    }
    let len = text.len();
    println!(rt; "{len}")?;
    Ok(())
}
