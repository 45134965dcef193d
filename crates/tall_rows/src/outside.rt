//! What a run does with the outside: how often it opens a file, what it shows where a read fails or a file grows, and that
//! blocks are worked on while others wait, or before a file is read to its end.

use crate::tests::{GO, shelf_of, words_of};
use std::alloc::Global;
use std::process::Abort;
use std::test::Fail;
use std::thread::Threads;
use tall_outside::{Gate, GrowShelf, HoldGate, MemShelf, MemSink, OpenGate, Shelf};
use tall_run::{Status, run};

/// What a run has to come to.
#[derive(Drop)]
struct Want {
    status: Status,
    text: &'static str,
    line: &'static str,
}

/// Runs words over a shelf, and compares all that is shown.
fn check<R: Threads + Sync + Abort, S: Shelf + Send, G: Gate + Sync>(
    rt: &R,
    alloc: Global,
    words: &[&str],
    gate: &G,
    shelf: &mut S,
    want: &Want,
) -> Result<(), Fail> {
    let words = words_of(alloc, words)?;
    let mut out = MemSink::new(alloc);
    let mut err = MemSink::new(alloc);
    let status = run(rt, alloc, &words, gate, shelf, &mut out, &mut err);
    let line = want.line;
    assert_eq!(rt; status, want.status, "{line}");
    assert_eq!(rt; out.bytes(), want.text.as_bytes(), "{line}");
    assert_eq!(rt; err.bytes(), line.as_bytes(), "{line}");
    Ok(())
}

/// A script over a.csv, and how often it opens that file.
struct Openings {
    script: &'static str,
    data: &'static str,
    count: u64,
    want: Want,
}

const TWO_PASSES: &str =
    "ds = tabularTextDatastore('a.csv', 'TextscanFormats', {'%f'});\nT = tall(ds);\nm = max(T.x);\ns = sum(T.x - m);\n[m, s] = gather(m, s)\n";

const OPENINGS: &[Openings] = &[
    Openings {
        script: "ds = tabularTextDatastore('a.csv', 'TextscanFormats', {'%d16', '%d32'});\nT = tall(ds);\nz = T.x + T.y;\n",
        data: "x,y\n1,2\n",
        count: 1,
        want: Want {
            status: Status::Fault,
            text: "",
            line: "tallrun: line 3: Integers can only be combined with integers of the same class, or scalar doubles.\n",
        },
    },
    Openings {
        script: TWO_PASSES,
        data: "x\n3\n5\n",
        count: 3,
        want: Want {
            status: Status::Done,
            text: "m = double 5\ns = double -2\n",
            line: "",
        },
    },
    Openings {
        script: "ds = tabularTextDatastore('a.csv', 'TextscanFormats', {'%f'});\nT = tall(ds);\ns = gather(sum(T.x - max(T.x - min(T.x))))\n",
        data: "x\n3\n5\n",
        count: 4,
        want: Want {
            status: Status::Done,
            text: "s = double 4\n",
            line: "",
        },
    },
];

#[test]
fn a_file_is_opened_once_for_each_pass(rt: HostRuntime) -> Result<(), Fail> {
    for row in OPENINGS {
        let files = [("s.m", row.script), ("a.csv", row.data)];
        let mut shelf = shelf_of(&rt, rt.alloc(), &files)?;
        check(&rt, rt.alloc(), GO, &OpenGate, &mut shelf, &row.want)?;
        assert_eq!(rt; shelf.opens("a.csv"), row.count);
    }
    Ok(())
}

const CANNOT_READ: Want = Want {
    status: Status::Read,
    text: "",
    line: "tallrun: cannot read a.csv\n",
};

/// The last read of a run is that of the second pass.
#[test]
fn a_read_fails_in_the_second_pass(rt: HostRuntime) -> Result<(), Fail> {
    let files = [("s.m", TWO_PASSES), ("a.csv", "x\n3\n5\n")];
    let mut whole = shelf_of(&rt, rt.alloc(), &files)?;
    check(
        &rt,
        rt.alloc(),
        GO,
        &OpenGate,
        &mut whole,
        &OPENINGS[1].want,
    )?;
    let mut failing = shelf_of(&rt, rt.alloc(), &files)?;
    failing.fail_read(whole.reads())?;
    check(&rt, rt.alloc(), GO, &OpenGate, &mut failing, &CANNOT_READ)?;
    assert_eq!(rt; failing.opens("a.csv"), 3);
    Ok(())
}

#[test]
fn a_file_grows_between_two_passes(rt: HostRuntime) -> Result<(), Fail> {
    let alloc = rt.alloc();
    let name = String::from_str(alloc, "a.csv")?;
    let first = b"x\n3\n5\n".as_slice().to_vec(alloc)?;
    let later = b"x\n3\n5\n6\n".as_slice().to_vec(alloc)?;
    let script = (
        String::from_str(alloc, "s.m")?,
        TWO_PASSES.as_bytes().to_vec(alloc)?,
    );
    assert!(rt; name.as_str() != script.0.as_str());
    let mut shelf = GrowShelf::new(alloc, name, first, later, 3, script)?;
    let want = Want {
        status: Status::Read,
        text: "",
        line: "tallrun: file a.csv changed: 2 rows, then 3\n",
    };
    check(&rt, alloc, GO, &OpenGate, &mut shelf, &want)
}

/// The worker of the first block waits until other workers have come for three blocks behind it.
#[test]
fn two_workers_take_blocks_side_by_side(rt: HostRuntime) -> Result<(), Fail> {
    let script =
        "ds = tabularTextDatastore('a.csv', 'TextscanFormats', {'%d8'}, 'ReadSize', 1);\nT = tall(ds);\n[h, c, s] = gather(head(T.x, 2), cumsum(T.x), sum(T.x, 'native'))\n";
    let files = [("s.m", script), ("a.csv", "x\n100\n100\n-100\n100\n-50\n")];
    let mut shelf = shelf_of(&rt, rt.alloc(), &files)?;
    let gate = HoldGate::new(0, 3, 100_000_000);
    let want = Want {
        status: Status::Done,
        text: "h = int8 2x1\n    100\n    100\nc = int8 5x1\n    100\n    127\n    27\n    127\n    77\ns = int8 77\n",
        line: "",
    };
    let words = ["tallrun", "--workers", "2", "s.m"];
    check(&rt, rt.alloc(), &words, &gate, &mut shelf, &want)?;
    assert!(rt; !gate.spent());
    Ok(())
}

/// The header, and a hundred thousand rows.
fn many_rows(alloc: Global) -> Result<String, Fail> {
    let mut rows = String::from_str(alloc, "x\n")?;
    for _ in 0..100_000u32 {
        rows.push_str("1\n")?;
    }
    Ok(rows)
}

/// Where the last read of a long file fails, most of its blocks were worked on before.
#[test]
fn blocks_are_worked_on_before_their_file_is_read(rt: HostRuntime) -> Result<(), Fail> {
    let script =
        "ds = tabularTextDatastore('a.csv', 'TextscanFormats', {'%d8'}, 'ReadSize', 1000);\nT = tall(ds);\ns = gather(sum(T.x))\n";
    let rows = many_rows(rt.alloc())?;
    let files = [("s.m", script), ("a.csv", rows.as_str())];
    let words = ["tallrun", "--workers", "1", "s.m"];
    let mut whole = shelf_of(&rt, rt.alloc(), &files)?;
    let want = Want {
        status: Status::Done,
        text: "s = double 100000\n",
        line: "",
    };
    let gate = HoldGate::new(0, 0, 1);
    check(&rt, rt.alloc(), &words, &gate, &mut whole, &want)?;
    let mut failing = shelf_of(&rt, rt.alloc(), &files)?;
    failing.fail_read(whole.reads())?;
    let gate = HoldGate::new(0, 0, 1);
    check(&rt, rt.alloc(), &words, &gate, &mut failing, &CANNOT_READ)?;
    assert!(rt; gate.calls() >= 50);
    Ok(())
}
