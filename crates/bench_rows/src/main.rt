//! What operators over rows cost, so many turns (bench/rows_int16.py and bench/operators.py run it).
//!
//! The words are the number of rows and of turns, and then the operator, the class of the column, and what it meets: `-`
//! for one operand, `column` for a column of its class, or a number, which is a double scalar on the right. With no operator
//! it is `x .* 3 + 1` over int16. It prints the number of the last cell of the last turn, or 0.
#![tactic(auto)]

ghost use Rattle.std.specs.Prelude.{◌≡◌, IfOk};
ghost use Rattle.tall_value.specs.declared.class.Class.TheVariants as class;

mod columns;
mod words;

use crate::columns::{first_column, rising, second_column};
use crate::words::{Operator, class_of, number, operator_of, word};
use std::alloc::{AllocError, Global};
use std::{env, io};
use tall_column::{Column, OpFault, map_binary, map_scalar, map_unary};
use tall_int::Whole;
use tall_value::{Binary, Cell, Unary, result_class, unary_class};

fn small(n: i64) -> Whole {
    Whole::new(n).unwrap_or(Whole::nan())
}

/// `x .* 3 + 1`
fn line(alloc: Global, x: &Column) -> Result<Column, OpFault>
    requires { x.now.class ≡ class.Int16 }
{
    let product = map_scalar(alloc, Binary::Mul, x, &Cell::Double(small(3)), false)?;
    map_scalar(alloc, Binary::Add, &product, &Cell::Double(small(1)), false)
}

/// None where the class table refuses.
fn mapped(alloc: Global, op: Unary, a: &Column) -> Option<Result<Column, OpFault>> {
    match unary_class(op, a.class()) {
        Ok(_) => Some(map_unary(alloc, op, a)),
        Err(_) => None,
    }
}

/// None where the class table refuses, or the lengths differ.
fn paired(alloc: Global, op: Binary, a: &Column, b: &Column) -> Option<Result<Column, OpFault>> {
    if a.len() != b.len() {
        return None;
    }
    match result_class(op, a.class(), false, b.class(), false) {
        Ok(_) => Some(map_binary(alloc, op, a, b)),
        Err(_) => None,
    }
}

/// None where the class table refuses.
fn followed(
    alloc: Global,
    op: Binary,
    a: &Column,
    b: &Cell<'_>,
) -> Option<Result<Column, OpFault>> {
    match result_class(op, a.class(), false, b.class(), true) {
        Ok(_) => Some(map_scalar(alloc, op, a, b, false)),
        Err(_) => None,
    }
}

/// The last cell's number, or 0.
fn last(column: &Column) -> i128 {
    match column.len() {
        0 => 0,
        rows => column.get(rows - 1).amount().unwrap_or(0),
    }
}

/// The operator once.
fn once(
    alloc: Global,
    operator: Operator,
    other: &str,
    a: &Column,
    b: &Column,
) -> Option<Result<Column, OpFault>> {
    match operator {
        Operator::One(op) => mapped(alloc, op, a),
        Operator::Two(op) => match other {
            "column" => paired(alloc, op, a, b),
            _ => followed(
                alloc,
                op,
                a,
                &Cell::Double(small(other.parse().unwrap_or(0))),
            ),
        },
    }
}

/// The last cell after so many turns of an operator; none where it has no result.
fn turned(
    alloc: Global,
    operator: Operator,
    other: &str,
    a: &Column,
    b: &Column,
    turns: usize,
) -> Option<i128> {
    let mut found = 0;
    for _turn in 0..turns {
        match once(alloc, operator, other, a, b) {
            Some(Ok(result)) => found = last(&result),
            _ => return None,
        }
    }
    Some(found)
}

/// The last cell after so many turns of `x .* 3 + 1`.
fn lines(alloc: Global, rows: usize, turns: usize) -> Result<i128, AllocError> {
    let column = rising(alloc, rows)?;
    let mut found = 0;
    for _turn in 0..turns {
        match line(alloc, &column) {
            Ok(result) => found = last(&result),
            Err(_) => return Err(AllocError),
        }
    }
    Ok(found)
}

/// The last cell after so many turns of the operator that the words name.
fn named(
    alloc: Global,
    words: &[String],
    rows: usize,
    turns: usize,
) -> Result<Option<i128>, AllocError> {
    let class = class_of(word(words, 4));
    let a = first_column(alloc, class, rows)?;
    let b = second_column(alloc, class, rows)?;
    match operator_of(word(words, 3)) {
        Some(operator) => Ok(turned(alloc, operator, word(words, 5), &a, &b, turns)),
        None => Ok(None),
    }
}

fn main(rt: HostRuntime) -> io::Result<()> {
    let mut words = Vec::new(rt.alloc());
    for word in env::args(&rt)? {
        words.push(word)?;
    }
    let words = words.as_slice();
    let rows = number(words, 1);
    let turns = number(words, 2);
    if words.len() < 4 {
        let found = lines(rt.alloc(), rows, turns)?;
        println!(rt; "{found}")?;
    } else {
        match named(rt.alloc(), words, rows, turns)? {
            Some(found) => println!(rt; "{found}")?,
            None => println!(rt; "no result")?,
        }
    }
    Ok(())
}
