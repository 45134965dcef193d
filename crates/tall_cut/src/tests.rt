//! What a cutter gives of small files, against records that were written by hand, and of random ones, against `csv`.

ghost use Rattle.std.specs.Prelude.{◌<◌};
ghost use Rattle.std.specs.String.{string_bytes};
ghost use Rattle.tall_cut.specs.Asked.{Asks};
ghost use Rattle.tall_cut.specs.Cuts.{rows_of};

use crate::{
    Cause, Cutter, FeedFault, Found, Lent, Next, OpenedFile, RawBlock, ReadSize, Records, open_feed,
};
use csv::{ByteRecord, ReaderBuilder};
use std::alloc::{AllocError, Global};
use std::marker::Brand;
use std::process::Abort;
use std::test::Fail;
use std::thread::{Threads, join};
use tall_outside::{MemShelf, Shelf, has_distinct_names};

/// When and where a test reads the records of blocks.
#[derive(Clone, Copy, Debug, PartialEq, Eq)]
enum Reading {
    AtOnce,
    /// Blocks are found first, two at a time, and then read.
    Found,
    /// The same, each read on another thread than the one that found it.
    FoundElsewhere,
}

/// How a test reads its file.
#[derive(Clone, Copy, Debug)]
struct Plan {
    limit: u64,
    size: ReadSize,
    reading: Reading,
}

/// Writes each record as a line of its fields in brackets.
fn write_records(text: &mut Vec<u8>, block: &Records) -> Result<(), AllocError> {
    for i in 0..block.len() {
        for k in 0..block.width(i) {
            text.push(b'[')?;
            text.extend_from_slice(block.field(i, k))?;
            text.push(b']')?;
        }
        text.push(b';')?;
    }
    Ok(())
}

/// Writes why a cutter stopped.
fn write_cause(text: &mut Vec<u8>, cause: Cause) -> Result<(), AllocError> {
    match cause {
        Cause::Failed => text.extend_from_slice(b"failed"),
        Cause::TooLarge => text.extend_from_slice(b"too large"),
        Cause::Memory => text.extend_from_slice(b"memory"),
    }
}

/// Writes the next block, or the answer's word. Tells whether there may be more.
fn write_next<'s, S: Shelf, K: OpenedFile>(
    text: &mut Vec<u8>,
    cutter: &mut Cutter<'s, S, K>,
) -> Result<bool, AllocError> {
    match cutter.next_block() {
        Next::Block(block) => {
            write_records(text, &block)?;
            cutter.give_back(block);
            return Ok(true);
        }
        Next::End => text.extend_from_slice(b"end")?,
        Next::Stopped => write_cause(text, cutter.cause())?,
    }
    Ok(false)
}

/// Reads the records of a block, on another thread where `elsewhere` says so.
fn read_block(
    rt: &impl Threads,
    alloc: Global,
    records: &mut Records,
    raw: &RawBlock,
    elsewhere: bool,
) -> Result<(), AllocError> {
    if elsewhere {
        let (read, ()) = join(rt, || records.parse(alloc, raw), || ());
        read
    } else {
        records.parse(alloc, raw)
    }
}

/// The same of blocks that are found first.
fn write_raw<'s, S: Shelf, K: OpenedFile>(
    rt: &impl Threads,
    alloc: Global,
    text: &mut Vec<u8>,
    records: &mut Records,
    cutter: &mut Cutter<'s, S, K>,
    elsewhere: bool,
) -> Result<bool, AllocError> {
    match cutter.next_raw(2) {
        Found::Block(raw) => {
            read_block(rt, alloc, records, &raw, elsewhere)?;
            write_records(text, records)?;
            cutter.give_back_raw(raw);
            return Ok(true);
        }
        Found::End => text.extend_from_slice(b"end")?,
        Found::Stopped => write_cause(text, cutter.cause())?,
    }
    Ok(false)
}

/// Writes all that a cutter gives, its first record by itself.
fn write_all<'s, S: Shelf, K: OpenedFile>(
    rt: &impl Threads,
    alloc: Global,
    text: &mut Vec<u8>,
    cutter: &mut Cutter<'s, S, K>,
    reading: Reading,
) -> Result<(), AllocError> {
    let mut records = Records::new(alloc);
    if let Next::Block(block) = cutter.first_record() {
        write_records(text, &block)?;
        cutter.give_back(block);
    }
    for _turn in 0..1000u32 {
        let more = match reading {
            Reading::AtOnce => write_next(text, cutter)?,
            Reading::Found => write_raw(rt, alloc, text, &mut records, cutter, false)?,
            Reading::FoundElsewhere => write_raw(rt, alloc, text, &mut records, cutter, true)?,
        };
        if !more {
            break;
        }
    }
    Ok(())
}

/// Writes all records of a file, or why it could not be opened.
fn write_file<'s, S: Shelf, K: OpenedFile>(
    rt: &impl Threads,
    alloc: Global,
    lent: Lent<'s, S>,
    name: &String,
    limit: u64,
    plan: Plan,
    text: &mut Vec<u8>,
) -> Lent<'s, S>
    requires asks { Asks S.Shelf K.OpenedFile lent.shelf.ghost_name lent.shelf.now (string_bytes name.now) limit }
    requires rows { 0 < rows_of plan.size }
{
    match open_feed::<S, K>(lent, name.as_str(), limit) {
        Ok(feed) => {
            let mut cutter: Cutter<'s, S, K> = Cutter::new(alloc, feed, b',', plan.size);
            let _ = write_all(rt, alloc, text, &mut cutter, plan.reading);
            cutter.into_lent()
        }
        Err(refused) => {
            let word = match refused.fault {
                FeedFault::NoSuch => "no such file",
                FeedFault::Failed => "failed to open",
                FeedFault::Memory => "no memory to open",
            };
            let _ = text.extend_from_slice(word.as_bytes());
            refused.lent
        }
    }
}

/// A size of at least one row.
fn some_rows(size: ReadSize) -> ReadSize
    ensures { 0 < rows_of result }
{
    match size {
        ReadSize::Rows(rows) => ReadSize::Rows(rows.max(1)),
        ReadSize::File => ReadSize::File,
    }
}

/// The records of a file of this shelf, as text.
fn text_of<S: Shelf>(
    rt: &impl Threads,
    alloc: Global,
    shelf: &mut S,
    name: &String,
    plan: Plan,
) -> Vec<u8> {
    let mut text = Vec::new(alloc);
    let plan = Plan {
        size: some_rows(plan.size),
        ..plan
    };
    let _lent = write_file::<S, Brand>(
        rt,
        alloc,
        Lent { shelf },
        name,
        plan.limit,
        plan,
        &mut text,
    );
    text
}

/// A shelf of one file `a.csv`, of which a read gives at most so many bytes.
fn shelf_of(
    rt: &impl Abort,
    alloc: Global,
    bytes: &[u8],
    at_most: usize,
) -> Result<MemShelf, AllocError> {
    let name = String::from_str(alloc, "a.csv")?;
    let files = vec![in alloc; (name, bytes.to_vec(alloc)?)]?;
    assert!(rt; has_distinct_names(files.as_slice()));
    let mut shelf = MemShelf::new(alloc, files)?;
    shelf.give_at_most(at_most);
    Ok(shelf)
}

const READINGS: [Reading; 3] = [Reading::AtOnce, Reading::Found, Reading::FoundElsewhere];

const SIZES: [ReadSize; 4] = [
    ReadSize::Rows(1),
    ReadSize::Rows(2),
    ReadSize::Rows(5),
    ReadSize::File,
];

/// Asserts that blocks of each size, found by reads of several lengths, have these records.
fn assert_cut<R: Abort + Threads>(
    rt: &R,
    alloc: Global,
    bytes: &[u8],
    records: &[u8],
    readings: &[Reading],
) -> Result<(), AllocError> {
    let name = String::from_str(alloc, "a.csv")?;
    let mut wanted = records.to_vec(alloc)?;
    wanted.extend_from_slice(b"end")?;
    for size in SIZES {
        for reading in readings {
            for at_most in [1, 7, usize::MAX] {
                let mut shelf = shelf_of(rt, alloc, bytes, at_most)?;
                let plan = Plan {
                    limit: 1 << 50,
                    size,
                    reading: *reading,
                };
                let text = text_of(rt, alloc, &mut shelf, &name, plan);
                assert!(rt;
                    text.as_slice() == wanted.as_slice(),
                    "{bytes:?}, {plan:?}, {at_most} a read"
                );
            }
        }
    }
    Ok(())
}

/// Small files, each with its records.
const FILES: [(&[u8], &[u8]); 12] = [
    (b"", b""),
    (b"x\n1\n2\n", b"[x];[1];[2];"),
    (b"x,y\r\n1,2\r\n", b"[x][y];[1][2];"),
    (b"a\rb\rc", b"[a];[b];[c];"),
    (b"\n\r\na\n\n\nb\n\n", b"[a];[b];"),
    (b"\xEF\xBB\xBF\"a\n\"\nb", b"[a\n];[b];"),
    (b"\"a,b\",\"\"\"\"\n", b"[a,b][\"];"),
    (b"a\"b,c\"\"d\n5\"\n", b"[a\"b][c\"\"d];[5\"];"),
    (b"\"a\"b\"c\nd\"\n", b"[ab\"c];[d\"];"),
    (b"a\n\"b,c\nd", b"[a];[b,c\nd];"),
    (b",\n,,\na,", b"[][];[][][];[a][];"),
    (
        b"1\n\xEF\xBB\xBF2\n\xEF\xBB\xBF3\n",
        b"[1];[\xEF\xBB\xBF2];[\xEF\xBB\xBF3];",
    ),
];

#[test]
fn blocks_joined_are_the_records(rt: HostRuntime) -> Result<(), Fail> {
    for (bytes, records) in FILES {
        assert_cut(&rt, rt.alloc(), bytes, records, &READINGS)?;
    }
    Ok(())
}

/// The records of a text, as `csv`'s own reader gives them.
fn records_alone(alloc: Global, bytes: &[u8]) -> Result<Vec<u8>, AllocError> {
    let mut reader = ReaderBuilder::new()
        .has_headers(false)
        .flexible(true)
        .from_reader(alloc, bytes);
    let mut row = ByteRecord::new(alloc);
    let mut text = Vec::new(alloc);
    for _turn in 0..1000u32 {
        match reader.read_byte_record(&mut row) {
            Ok(true) => {
                for field in row.iter() {
                    text.push(b'[')?;
                    text.extend_from_slice(field)?;
                    text.push(b']')?;
                }
                text.push(b';')?;
            }
            _ => break,
        }
    }
    Ok(text)
}

/// The bytes on which reading depends, and one more.
const ALPHABET: [u8; 8] = [b',', b'"', b'\r', b'\n', b'x', 0xEF, 0xBB, 0xBF];

/// Random bytes of the alphabet.
fn random_text(alloc: Global, seed: u64) -> Result<Vec<u8>, AllocError> {
    let mut state = seed;
    let mut bytes = Vec::new(alloc);
    for _byte in 0..seed % 150 {
        state = state
            .wrapping_mul(6364136223846793005)
            .wrapping_add(1442695040888963407);
        bytes.push(ALPHABET[(state >> 61) as usize])?;
    }
    Ok(bytes)
}

#[test]
fn random_files_are_read_as_csv_reads_them(rt: HostRuntime) -> Result<(), Fail> {
    for seed in 0..150u64 {
        let bytes = random_text(rt.alloc(), seed)?;
        let records = records_alone(rt.alloc(), bytes.as_slice())?;
        assert_cut(
            &rt,
            rt.alloc(),
            bytes.as_slice(),
            records.as_slice(),
            &[Reading::AtOnce, Reading::Found],
        )?;
    }
    Ok(())
}

#[test]
fn a_cutter_that_stops_tells_why(rt: HostRuntime) -> Result<(), Fail> {
    let alloc = rt.alloc();
    let name = String::from_str(alloc, "a.csv")?;
    for reading in READINGS {
        let plan = Plan {
            limit: 3,
            size: ReadSize::Rows(1),
            reading,
        };
        let mut shelf = shelf_of(&rt, alloc, b"x\n1\n", 1)?;
        let text = text_of(&rt, alloc, &mut shelf, &name, plan);
        // The byte that went beyond the limit is still given, and ends a record: all that was asked for, or one of two.
        let came = match reading {
            Reading::AtOnce => "[x];[1];too large",
            Reading::Found | Reading::FoundElsewhere => "[x];too large",
        };
        assert!(rt; text.as_slice() == came.as_bytes());
        let mut shelf = shelf_of(&rt, alloc, b"x\n1\n", 1)?;
        shelf.fail_read(4)?;
        let text = text_of(&rt, alloc, &mut shelf, &name, Plan { limit: 4, ..plan });
        assert!(rt; text.as_slice() == b"[x];failed".as_slice());
        shelf.fail_open(2)?;
        let text = text_of(&rt, alloc, &mut shelf, &name, plan);
        assert!(rt; text.as_slice() == b"failed to open".as_slice());
    }
    Ok(())
}
