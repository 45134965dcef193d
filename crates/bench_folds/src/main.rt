//! What reductions, scans, groups and distinct values cost, so many turns. It is the program that bench/folds.py times.
//!
//! The words are what is done, the number of rows, the number of turns and the number of keys. `min`, `max`, `any`, `nnz`,
//! `sum`, `native` and `cumsum` are of one column of so many int16, and for `any` of as many false ones; the found number
//! is printed. `groups` sums int16 numbers by a text key, in blocks of 20,000 rows, and `distinct` takes the keys alone; the
//! number of groups is printed, and for `groups` the last sum.
#![tactic(auto)]

mod blocks;
mod columns;
mod folds;
mod groups;

use crate::blocks::blocks;
use crate::columns::{falses, numbers};
use crate::folds::{any_turned, turned};
use crate::groups::{distinct, grouped};
use std::alloc::{AllocError, Global};
use std::{env, io};

/// A word, or the empty one.
fn word(words: &[String], at: usize) -> &str {
    match words.get(at) {
        Some(word) => word.as_str(),
        None => "",
    }
}

/// The number that a word spells, or 0.
fn number(words: &[String], at: usize) -> usize {
    word(words, at).parse().unwrap_or(0)
}

/// What is found of a column of so many rows.
fn of_column(alloc: Global, name: &str, rows: usize, turns: usize) -> Result<i128, AllocError> {
    if name == "any" {
        Ok(any_turned(alloc, &falses(alloc, rows)?, turns))
    } else {
        Ok(turned(alloc, name, &numbers(alloc, rows)?, turns))
    }
}

/// What is found of blocks of so many rows together: the groups, and the last sum.
fn of_blocks(
    alloc: Global,
    name: &str,
    rows: usize,
    turns: usize,
    keys: usize,
) -> Result<(usize, i128), AllocError> {
    let blocks = blocks(alloc, rows, keys)?;
    let mut found = (0, 0);
    for _turn in 0..turns {
        found = if name == "distinct" {
            distinct(alloc, blocks.as_slice())?
        } else {
            grouped(alloc, blocks.as_slice())?
        };
    }
    Ok(found)
}

fn main(rt: HostRuntime) -> io::Result<()> {
    let mut words = Vec::new(rt.alloc());
    for word in env::args(&rt)? {
        words.push(word)?;
    }
    let words = words.as_slice();
    let name = word(words, 1);
    let rows = number(words, 2);
    let turns = number(words, 3);
    if name == "groups" || name == "distinct" {
        match of_blocks(rt.alloc(), name, rows, turns, number(words, 4)) {
            Ok((groups, last)) => println!(rt; "{groups} {last}")?,
            Err(_) => println!(rt; "no result")?,
        }
    } else {
        match of_column(rt.alloc(), name, rows, turns) {
            Ok(found) => println!(rt; "{found}")?,
            Err(_) => println!(rt; "no result")?,
        }
    }
    Ok(())
}
