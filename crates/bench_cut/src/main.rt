//! How many records a CSV file has: as `csv`'s own reader counts them, as the blocks of `tall_cut` have them, as blocks
//! that were found tell without being read, or as these have once they are read. It is the program that bench/cut.py times.
//!
//! The words are how the file is read, its name, and then for blocks how many records one may have:
//! `read NAME`, `csv NAME`, `cut NAME ROWS`, `find NAME ROWS`, `parse NAME ROWS BLOCKS`, where so many blocks are found and
//! read at once. `read` counts no records but the bytes.
#![tactic(auto)]

ghost use Rattle.std.specs.Prelude.{◌<◌, ◌^◌};
ghost use Rattle.std.specs.String.{string_bytes};
ghost use Rattle.tall_cut.specs.Asked.{Asks};

use csv::{ByteRecord, ReaderBuilder};
use std::alloc::Global;
use std::io::{ErrorKind, Read};
use std::marker::Brand;
use std::{env, fs, io};
use tall_cut::{Cutter, Found, Lent, Next, OpenedFile, ReadSize, Records, open_feed};
use tall_outside::{HostShelf, Shelf};

/// More bytes than any file has that is timed.
const LIMIT: u64 = 1 << 50;

/// The bytes of a file, 64 KB a read.
fn count_bytes(rt: &HostRuntime, name: &str) -> io::Result<u64> {
    let mut file = fs::open(rt, name)?;
    let mut buffer = vec![in rt.alloc(); 0u8; 1 << 16]?;
    let mut count = 0u64;
    for _turn in 0..u64::MAX {
        match file.read(&mut buffer)? {
            0 => return Ok(count),
            more => count = count.saturating_add(more as u64),
        }
    }
    Ok(count)
}

/// The records of a file, by `csv`'s own reader.
fn count_alone(rt: &HostRuntime, name: &str) -> io::Result<u64> {
    let file = fs::open(rt, name)?;
    let mut reader = ReaderBuilder::new()
        .has_headers(false)
        .flexible(true)
        .from_reader(rt.alloc(), file);
    let mut row = ByteRecord::new(rt.alloc());
    let mut count = 0u64;
    for _turn in 0..u64::MAX {
        match reader.read_byte_record(&mut row) {
            Ok(true) => count = count.saturating_add(1),
            Ok(false) => return Ok(count),
            Err(_) => return Err(io::Error::from(ErrorKind::Other)),
        }
    }
    Ok(count)
}

/// What is done with the blocks of a cutter.
#[derive(Clone, Copy)]
enum Plan {
    /// Each is found and read by the cutter, and given back.
    Cut,
    /// They are found alone.
    Find,
    /// So many are found at once, and then read.
    Parse(u16),
}

/// The records of all blocks of a cutter, which reads them.
fn count_blocks<'s, S: Shelf, K: OpenedFile>(cutter: &mut Cutter<'s, S, K>) -> io::Result<u64> {
    let mut count = 0u64;
    for _turn in 0..u64::MAX {
        match cutter.next_block() {
            Next::Block(block) => {
                count = count.saturating_add(block.len() as u64);
                cutter.give_back(block);
            }
            Next::End => return Ok(count),
            Next::Stopped => return Err(io::Error::from(ErrorKind::Other)),
        }
    }
    Ok(count)
}

/// The records of all blocks of a cutter, which are not read.
fn count_found<'s, S: Shelf, K: OpenedFile>(cutter: &mut Cutter<'s, S, K>) -> io::Result<u64> {
    let mut count = 0u64;
    for _turn in 0..u64::MAX {
        match cutter.next_raw(1) {
            Found::Block(raw) => {
                count = count.saturating_add(raw.count());
                cutter.give_back_raw(raw);
            }
            Found::End => return Ok(count),
            Found::Stopped => return Err(io::Error::from(ErrorKind::Other)),
        }
    }
    Ok(count)
}

/// The records of all blocks of a cutter, so many found and then read at once.
fn count_read<'s, S: Shelf, K: OpenedFile>(
    alloc: Global,
    cutter: &mut Cutter<'s, S, K>,
    blocks: u16,
) -> io::Result<u64>
    requires { 0 < blocks }
{
    let mut count = 0u64;
    let mut records = Records::new(alloc);
    for _turn in 0..u64::MAX {
        match cutter.next_raw(blocks) {
            Found::Block(raw) => {
                records.parse(alloc, &raw)?;
                count = count.saturating_add(records.len() as u64);
                cutter.give_back_raw(raw);
            }
            Found::End => return Ok(count),
            Found::Stopped => return Err(io::Error::from(ErrorKind::Other)),
        }
    }
    Ok(count)
}

/// The records of a cutter's file.
fn count_planned<'s, S: Shelf, K: OpenedFile>(
    alloc: Global,
    cutter: &mut Cutter<'s, S, K>,
    plan: Plan,
) -> io::Result<u64> {
    match plan {
        Plan::Cut => count_blocks(cutter),
        Plan::Find => count_found(cutter),
        Plan::Parse(blocks) => count_read(alloc, cutter, blocks.max(1)),
    }
}

/// The records of a file of a lent shelf, in blocks; the shelf comes back.
fn count_lent<'s, S: Shelf, K: OpenedFile>(
    alloc: Global,
    lent: Lent<'s, S>,
    name: &String,
    rows: u32,
    plan: Plan,
    count: &mut io::Result<u64>,
) -> Lent<'s, S>
    requires asks { Asks S.Shelf K.OpenedFile lent.shelf.ghost_name lent.shelf.now (string_bytes name.now) (2 ^ 50) }
    requires rows { 0 < rows }
{
    match open_feed::<S, K>(lent, name.as_str(), LIMIT) {
        Ok(feed) => {
            let mut cutter: Cutter<'s, S, K> = Cutter::new(alloc, feed, b',', ReadSize::Rows(rows));
            *count = count_planned(alloc, &mut cutter, plan);
            cutter.into_lent()
        }
        Err(refused) => refused.lent,
    }
}

/// The records of a file of a shelf, in blocks.
fn count_cut<S: Shelf>(
    alloc: Global,
    shelf: &mut S,
    name: &String,
    rows: u32,
    plan: Plan,
) -> io::Result<u64>
    requires { 0 < rows }
{
    let mut count = Err(io::Error::from(ErrorKind::NotFound));
    let _lent = count_lent::<S, Brand>(alloc, Lent { shelf }, name, rows, plan, &mut count);
    count
}

/// A number above 0.
fn number(word: &String) -> u32
    ensures { 0 < result }
{
    match word.as_str().parse::<u32>() {
        Ok(n) => n.max(1),
        Err(_) => 1,
    }
}

/// What words ask for.
fn count(rt: &HostRuntime, words: &[String]) -> io::Result<u64> {
    let (how, name, rows, blocks) = match words {
        [_, how, name] => (how.as_str(), name, 1, 1),
        [_, how, name, rows] => (how.as_str(), name, number(rows), 1),
        [_, how, name, rows, blocks] => (how.as_str(), name, number(rows), number(blocks)),
        _ => return Err(io::Error::from(ErrorKind::InvalidInput)),
    };
    let plan = match how {
        "read" => return count_bytes(rt, name.as_str()),
        "csv" => return count_alone(rt, name.as_str()),
        "find" => Plan::Find,
        "parse" => Plan::Parse(blocks.min(1 << 15) as u16),
        _ => Plan::Cut,
    };
    let mut shelf = HostShelf::new(rt.clone()?);
    count_cut(rt.alloc(), &mut shelf, name, rows.max(1), plan)
}

fn main(rt: HostRuntime) -> io::Result<()> {
    let mut words = Vec::new(rt.alloc());
    for word in env::args(&rt)? {
        words.push(word)?;
    }
    let count = count(&rt, words.as_slice())?;
    println!(rt.stdout(); "{count}")
}
