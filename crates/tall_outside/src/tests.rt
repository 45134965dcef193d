//! What a shelf answers to a row of calls.
use crate::calm_shelf::CalmShelf;
use crate::calm_sink::CalmSink;
use crate::gate::{Gate, OpenGate};
use crate::grow_shelf::GrowShelf;
use crate::mem_shelf::{MemShelf, has_distinct_names};
use crate::mem_sink::MemSink;
use crate::shelf::{Opening, Shelf};
use crate::sink::Sink;
use std::alloc::{AllocError, Global};
use std::fmt::Write;
use std::process::Abort;
use std::str::from_utf8;
use std::test::Fail;

/// The answers to these calls in order: a name is opened, and at an empty text four bytes are read.
pub fn answers<S: Shelf>(
    alloc: Global,
    shelf: &mut S,
    calls: &[&str],
) -> Result<String, AllocError> {
    let mut text = String::new(alloc);
    for call in calls {
        if call.is_empty() {
            let mut buf = [0u8; 4];
            match shelf.read(&mut buf) {
                Ok(count) => write!(text, "{:?} ", from_utf8(&buf[..count]).unwrap_or("?"))?,
                Err(fault) => write!(text, "{fault:?} ")?,
            }
        } else {
            write!(text, "{:?} ", shelf.open(call))?;
        }
    }
    Ok(text)
}

fn file(alloc: Global, name: &str, text: &str) -> Result<(String, Vec<u8>), AllocError> {
    let name = String::from_str(alloc, name)?;
    Ok((name, text.as_bytes().to_vec(alloc)?))
}

/// A shelf of `a.csv` with six bytes and an empty `b.csv`.
fn two_files(rt: &impl Abort, alloc: Global) -> Result<MemShelf, AllocError> {
    let files = vec![in alloc; file(alloc, "a.csv", "x,1,2,")?, file(alloc, "b.csv", "")?]?;
    assert!(rt; has_distinct_names(files.as_slice()));
    MemShelf::new(alloc, files)
}

#[test]
fn reads_each_opened_file_from_its_first_byte(rt: HostRuntime) -> Result<(), Fail> {
    let mut shelf = two_files(&rt, rt.alloc())?;
    let calls = ["a.csv", "", "", "", "b.csv", "", "a.csv", ""];
    let text = answers(rt.alloc(), &mut shelf, &calls)?;
    assert_eq!(rt;
        text.as_str(),
        r#"Opened "x,1," "2," "" Opened "" Opened "x,1," "#
    );
    assert_eq!(rt; (shelf.opens("a.csv"), shelf.opens("b.csv")), (2, 1));
    assert_eq!(rt; (shelf.reads(), shelf.faults()), (5, 0));
    Ok(())
}

#[test]
fn fails_the_planned_calls_and_loses_nothing(rt: HostRuntime) -> Result<(), Fail> {
    let mut shelf = two_files(&rt, rt.alloc())?;
    shelf.fail_open(2)?;
    shelf.fail_read(2)?;
    let calls = ["a.csv", "", "", "", "a.csv", "", "a.csv"];
    let text = answers(rt.alloc(), &mut shelf, &calls)?;
    assert_eq!(rt;
        text.as_str(),
        r#"Opened "x,1," Failed "2," Failed "" Opened "#
    );
    assert_eq!(rt;
        (shelf.opens("a.csv"), shelf.reads(), shelf.faults()),
        (3, 4, 2)
    );
    Ok(())
}

/// Copies the first bytes of a file to a sink, past a gate, and answers how many.
fn copy_front<S: Shelf, O: Sink, G: Gate>(
    shelf: &mut S,
    name: &str,
    out: &mut O,
    gate: &G,
) -> Option<usize> {
    let mut buf = [0u8; 4];
    if shelf.open(name) != Opening::Opened {
        return None;
    }
    let count = shelf.read(&mut buf).ok()?;
    gate.between(0);
    out.write(&buf[..count]).ok()
}

#[test]
fn copies_from_a_shelf_to_a_sink_past_a_gate(rt: HostRuntime) -> Result<(), Fail> {
    let mut shelf = two_files(&rt, rt.alloc())?;
    let mut sink = MemSink::new(rt.alloc());
    assert_eq!(rt;
        copy_front(&mut shelf, "a.csv", &mut sink, &OpenGate),
        Some(4)
    );
    assert_eq!(rt; sink.bytes(), b"x,1,".as_slice());
    Ok(())
}

#[test]
fn a_calm_shelf_reads_lent_files_into_a_calm_sink(rt: HostRuntime) -> Result<(), Fail> {
    let alloc = rt.alloc();
    let files = vec![in alloc; file(alloc, "a.csv", "x,1,2,")?, file(alloc, "b.csv", "")?]?;
    assert!(rt; has_distinct_names(files.as_slice()));
    let mut shelf = CalmShelf::new(alloc, files.as_slice())?;
    let mut sink = CalmSink::new(alloc);
    assert_eq!(rt;
        copy_front(&mut shelf, "a.csv", &mut sink, &OpenGate),
        Some(4)
    );
    assert_eq!(rt; sink.bytes(), b"x,1,".as_slice());
    let text = answers(alloc, &mut shelf, &["b.csv", "", "c.csv", ""])?;
    assert_eq!(rt; text.as_str(), r#"Opened "" NoSuch "" "#);
    Ok(())
}

#[test]
fn a_file_grows_at_its_second_opening(rt: HostRuntime) -> Result<(), Fail> {
    let alloc = rt.alloc();
    let name = String::from_str(alloc, "a.csv")?;
    let script = file(alloc, "a.m", "s")?;
    let first = b"x".as_slice().to_vec(alloc)?;
    let later = b"xyz".as_slice().to_vec(alloc)?;
    assert!(rt; name.as_str() != script.0.as_str());
    let mut shelf = GrowShelf::new(alloc, name, first, later, 2, script)?;
    let calls = ["a.m", "", "a.csv", "", "a.csv", "", "", "b"];
    let text = answers(alloc, &mut shelf, &calls)?;
    assert_eq!(rt;
        text.as_str(),
        r#"Opened "s" Opened "x" Opened "xyz" "" NoSuch "#
    );
    Ok(())
}
