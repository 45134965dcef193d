//! Worked runs, each with its words and files, and the status, text and line that it gives.

use std::alloc::Global;
use std::process::Abort;
use std::test::Fail;
use std::thread::Threads;
use tall_outside::{MemShelf, MemSink, OpenGate, has_distinct_names};
use tall_run::{Status, run};

const SCRIPT: &str =
    "ds = tabularTextDatastore('a.csv', 'TextscanFormats', {'%d16'});\nT = tall(ds);\ns = sum(T.x, 'native');\ns = gather(s)\n";

/// The same statements from line 3 on, in another spelling.
const SPREAD: &str =
    "% the sum of a column\n\n ds=(tabularTextDatastore(\"a.csv\",...\n'TextscanFormats',{'%d16'}));T = tall(ds); % all of it\n\n;\n s = sum(T.x, 'native'); s = gather ( s ),";

const USAGE: &str = "tallrun: usage: tallrun [--workers N] SCRIPT\n";

/// A run that is given, and what it has to come to.
struct Row {
    name: &'static str,
    words: &'static [&'static str],
    files: &'static [(&'static str, &'static str)],
    status: Status,
    text: &'static str,
    line: &'static str,
}

pub(crate) fn words_of(alloc: Global, words: &[&str]) -> Result<Vec<String>, Fail> {
    let mut all = Vec::new(alloc);
    for word in words {
        all.push(String::from_str(alloc, word)?)?;
    }
    Ok(all)
}

pub(crate) fn shelf_of<R: Abort>(
    rt: &R,
    alloc: Global,
    files: &[(&str, &str)],
) -> Result<MemShelf, Fail> {
    let mut all = Vec::new(alloc);
    for (name, text) in files {
        all.push((
            String::from_str(alloc, name)?,
            text.as_bytes().to_vec(alloc)?,
        ))?;
    }
    assert!(rt; has_distinct_names(&all));
    Ok(MemShelf::new(alloc, all)?)
}

/// The status, and what the two sinks have.
fn ending<R: Threads + Sync>(
    rt: &R,
    alloc: Global,
    words: &[&str],
    shelf: &mut MemShelf,
    out: &mut MemSink,
    err: &mut MemSink,
) -> Result<Status, Fail> {
    let words = words_of(alloc, words)?;
    Ok(run(rt, alloc, &words, &OpenGate, shelf, out, err))
}

/// Runs a row over fakes, and compares all that it shows.
fn check_row<R: Threads + Sync + Abort>(rt: &R, alloc: Global, row: &Row) -> Result<(), Fail> {
    let mut shelf = shelf_of(rt, alloc, row.files)?;
    let mut out = MemSink::new(alloc);
    let mut err = MemSink::new(alloc);
    let status = ending(rt, alloc, row.words, &mut shelf, &mut out, &mut err)?;
    let name = row.name;
    assert_eq!(rt; status, row.status, "{name}");
    assert_eq!(rt; out.bytes(), row.text.as_bytes(), "{name}");
    assert_eq!(rt; err.bytes(), row.line.as_bytes(), "{name}");
    Ok(())
}

pub(crate) const GO: &[&str] = &["tallrun", "s.m"];

/// What the script prints.
const SUMS: &[Row] = &[
    Row {
        name: "a saturated sum goes on from the end of the class",
        words: GO,
        files: &[("s.m", SCRIPT), ("a.csv", "x\n30000\n5000\n-1000\n")],
        status: Status::Done,
        text: "s = int16 31767\n",
        line: "",
    },
    Row {
        name: "a sum below zero",
        words: GO,
        files: &[("s.m", SCRIPT), ("a.csv", "x\n30000\n30000\n-32768\n")],
        status: Status::Done,
        text: "s = int16 -1\n",
        line: "",
    },
    Row {
        name: "other spellings of the same numbers",
        words: GO,
        files: &[("s.m", SCRIPT), ("a.csv", "x\n3e4\n 5000\n-1000.0\n")],
        status: Status::Done,
        text: "s = int16 31767\n",
        line: "",
    },
    Row {
        name: "fields are rounded and go to the nearest number of the class",
        words: GO,
        files: &[
            ("s.m", SCRIPT),
            ("a.csv", "x\n2.5\n+.5E+1\n-Inf\nNaN\n40000\n"),
        ],
        status: Status::Done,
        text: "s = int16 7\n",
        line: "",
    },
    Row {
        name: "a missing field is 0",
        words: GO,
        files: &[
            ("s.m", SCRIPT),
            ("a.csv", "\u{feff}x\r\n 5 \r\n2.5\r\n\"\"\r\n"),
        ],
        status: Status::Done,
        text: "s = int16 8\n",
        line: "",
    },
    Row {
        name: "no rows",
        words: GO,
        files: &[("s.m", SCRIPT), ("a.csv", "x\n")],
        status: Status::Done,
        text: "s = int16 0\n",
        line: "",
    },
    Row {
        name: "a mark at the front, other line ends, and none at the end",
        words: GO,
        files: &[("s.m", SCRIPT), ("a.csv", "\u{feff}x\r\n1\r\n\r\n-3")],
        status: Status::Done,
        text: "s = int16 -2\n",
        line: "",
    },
];

/// What is refused, with its line.
const REFUSALS: &[Row] = &[
    Row {
        name: "no word",
        words: &["tallrun"],
        files: &[],
        status: Status::Usage,
        text: "",
        line: USAGE,
    },
    Row {
        name: "a word too many",
        words: &["tallrun", "s.m", "t.m"],
        files: &[],
        status: Status::Usage,
        text: "",
        line: USAGE,
    },
    Row {
        name: "no script",
        words: &["tallrun", "none.m"],
        files: &[],
        status: Status::Fault,
        text: "",
        line: "tallrun: no file none.m\n",
    },
    Row {
        name: "no data",
        words: GO,
        files: &[("s.m", SCRIPT)],
        status: Status::Fault,
        text: "",
        line: "tallrun: line 1: no file a.csv\n",
    },
    Row {
        name: "data without a record",
        words: GO,
        files: &[("s.m", SCRIPT), ("a.csv", "\u{feff}\n\n")],
        status: Status::Fault,
        text: "",
        line: "tallrun: line 1: no header in a.csv\n",
    },
    Row {
        name: "one format for two variables",
        words: GO,
        files: &[("s.m", SCRIPT), ("a.csv", "x,y\n1,2\n")],
        status: Status::Fault,
        text: "",
        line: "tallrun: line 1: argument not accepted\n",
    },
    Row {
        name: "a header without the variable",
        words: GO,
        files: &[("s.m", SCRIPT), ("a.csv", "y\nz\n")],
        status: Status::Fault,
        text: "",
        line: "tallrun: line 3: undefined x\n",
    },
    Row {
        name: "a record of too many fields, and a bad field behind it",
        words: GO,
        files: &[("s.m", SCRIPT), ("a.csv", "x\n1\n1,2\nz\n")],
        status: Status::Fault,
        text: "",
        line: "tallrun: line 1: row 2: too many fields\n",
    },
    Row {
        name: "a field that spells no number",
        words: GO,
        files: &[("s.m", SCRIPT), ("a.csv", "x\n1\n5.\n\"\"\n")],
        status: Status::Fault,
        text: "",
        line: "tallrun: line 1: row 2: variable x: not a number\n",
    },
];

#[test]
fn scripts_print_their_sums(rt: HostRuntime) -> Result<(), Fail> {
    for row in SUMS {
        check_row(&rt, rt.alloc(), row)?;
    }
    Ok(())
}

#[test]
fn refusals_give_their_lines(rt: HostRuntime) -> Result<(), Fail> {
    for row in REFUSALS {
        check_row(&rt, rt.alloc(), row)?;
    }
    Ok(())
}

/// What scripts in the language ask for, whatever their spelling.
const SPELLINGS: &[Row] = &[
    Row {
        name: "an empty script",
        words: GO,
        files: &[("s.m", "")],
        status: Status::Done,
        text: "",
        line: "",
    },
    Row {
        name: "comments and separators alone",
        words: GO,
        files: &[("s.m", "% one\n\n  ;, % two")],
        status: Status::Done,
        text: "",
        line: "",
    },
    Row {
        name: "functions alone",
        words: GO,
        files: &[(
            "s.m",
            "function m(data, ~, store)\n  add(store, 'k', data.x);\nend\n",
        )],
        status: Status::Done,
        text: "",
        line: "",
    },
    Row {
        name: "a function behind the statements",
        words: GO,
        files: &[
            (
                "s.m",
                "ds = tabularTextDatastore('a.csv', 'TextscanFormats', {'%d16'});\nT = tall(ds);\ns = sum(T.x, 'native');\ns = gather(s)\nfunction m(data, ~, store)\n  add(store, 'k', data.x);\nend\n",
            ),
            ("a.csv", "x\n1\n"),
        ],
        status: Status::Done,
        text: "s = int16 1\n",
        line: "",
    },
    Row {
        name: "no line feed at the end",
        words: GO,
        files: &[
            (
                "s.m",
                "ds = tabularTextDatastore('a.csv', 'TextscanFormats', {'%d16'});\nT = tall(ds);\ns = sum(T.x, 'native');\ns = gather(s)",
            ),
            ("a.csv", "x\n1\n"),
        ],
        status: Status::Done,
        text: "s = int16 1\n",
        line: "",
    },
    Row {
        name: "comments, joined lines, empty lines, and commas that keep what is shown",
        words: GO,
        files: &[("s.m", SPREAD), ("a.csv", "x\n30000\n5000\n-1000\n")],
        status: Status::Done,
        text: "s = int16 31767\n",
        line: "",
    },
    Row {
        name: "the last statement not shown",
        words: GO,
        files: &[
            (
                "s.m",
                "ds = tabularTextDatastore('a.csv', 'TextscanFormats', {'%d16'});\nT = tall(ds);\ns = sum(T.x, 'native');\ns = gather(s);\n",
            ),
            ("a.csv", "x\n1\n"),
        ],
        status: Status::Done,
        text: "",
        line: "",
    },
    Row {
        name: "a name alone",
        words: GO,
        files: &[
            (
                "s.m",
                "ds = tabularTextDatastore('a.csv', 'TextscanFormats', {'%d16'});\nT = tall(ds);\ns = sum(T.x, 'native');\ns = gather(s)\ns\n",
            ),
            ("a.csv", "x\n1\n"),
        ],
        status: Status::Done,
        text: "s = int16 1\ns = int16 1\n",
        line: "",
    },
    Row {
        name: "a field that spells no number, at the line of the datastore",
        words: GO,
        files: &[("s.m", SPREAD), ("a.csv", "x\n1\nz\n")],
        status: Status::Fault,
        text: "",
        line: "tallrun: line 3: row 2: variable x: not a number\n",
    },
    Row {
        name: "a header without the variable, at the line of the variable",
        words: GO,
        files: &[("s.m", SPREAD), ("a.csv", "y\n1\n")],
        status: Status::Fault,
        text: "",
        line: "tallrun: line 7: undefined x\n",
    },
    Row {
        name: "a token that no rule has",
        words: GO,
        files: &[("s.m", "x = 5 $ 3")],
        status: Status::Fault,
        text: "",
        line: "tallrun: line 1: bad token at 7\n",
    },
    Row {
        name: "a parenthesis left open: no statement before it is run",
        words: GO,
        files: &[("s.m", "a = 1\nx = (1 + 2;")],
        status: Status::Fault,
        text: "",
        line: "tallrun: line 2: syntax\n",
    },
];

/// A script made of texts, each so many times, and the status and line that it gives; nothing is printed.
struct Made {
    name: &'static str,
    parts: &'static [(&'static str, u32)],
    status: Status,
    line: &'static str,
}

const TOO_DEEP: &str = "tallrun: line 1: nested above 64\n";

/// Scripts at the limits of the language.
const LIMITS: &[Made] = &[
    Made {
        name: "65 parentheses open",
        parts: &[("(", 65)],
        status: Status::Fault,
        line: TOO_DEEP,
    },
    Made {
        name: "64 parentheses round a number",
        parts: &[("x = ", 1), ("(", 64), ("1", 1), (")", 64), (";", 1)],
        status: Status::Done,
        line: "",
    },
    Made {
        name: "64 signs before a number",
        parts: &[("x = ", 1), ("-", 64), ("1", 1)],
        status: Status::Fault,
        line: TOO_DEEP,
    },
    Made {
        name: "63 signs before a number",
        parts: &[("x = ", 1), ("-", 63), ("1;", 1)],
        status: Status::Done,
        line: "",
    },
    Made {
        name: "the longest script",
        parts: &[(" ", 1_048_576)],
        status: Status::Done,
        line: "",
    },
    Made {
        name: "a byte more",
        parts: &[(" ", 1_048_577)],
        status: Status::Fault,
        line: "tallrun: script above 1048576 bytes\n",
    },
];

/// The texts one after the other, each so many times.
fn made_of(alloc: Global, parts: &[(&str, u32)]) -> Result<String, Fail> {
    let mut made = String::new(alloc);
    for (text, times) in parts {
        for _ in 0..*times {
            made.push_str(text)?;
        }
    }
    Ok(made)
}

/// Runs a script that is made, and compares all that it shows.
fn check_made<R: Threads + Sync + Abort>(rt: &R, alloc: Global, made: &Made) -> Result<(), Fail> {
    let script = made_of(alloc, made.parts)?;
    let mut shelf = shelf_of(rt, alloc, &[("s.m", script.as_str())])?;
    let mut out = MemSink::new(alloc);
    let mut err = MemSink::new(alloc);
    let status = ending(rt, alloc, GO, &mut shelf, &mut out, &mut err)?;
    let name = made.name;
    assert_eq!(rt; status, made.status, "{name}");
    assert!(rt; out.bytes().is_empty(), "{name}");
    assert_eq!(rt; err.bytes(), made.line.as_bytes(), "{name}");
    Ok(())
}

#[test]
fn scripts_are_read_as_the_language_has_them(rt: HostRuntime) -> Result<(), Fail> {
    for row in SPELLINGS {
        check_row(&rt, rt.alloc(), row)?;
    }
    Ok(())
}

#[test]
fn scripts_have_limits(rt: HostRuntime) -> Result<(), Fail> {
    for made in LIMITS {
        check_made(&rt, rt.alloc(), made)?;
    }
    Ok(())
}

/// Where a call of the outside is made to fail.
#[derive(Clone, Copy)]
enum Failing {
    Open(u64),
    Read(u64),
    WriteOut,
    WriteErr,
}

/// One call fails: what is shown of it.
#[test]
fn a_failing_call_has_its_line(rt: HostRuntime) -> Result<(), Fail> {
    let cannot_read = "tallrun: cannot read a.csv\n";
    let cannot_read_script = "tallrun: cannot read s.m\n";
    for (failing, data, want, text, line) in [
        (
            Failing::Open(1),
            "x\n1\n",
            Status::Read,
            "",
            cannot_read_script,
        ),
        (
            Failing::Read(1),
            "x\n1\n",
            Status::Read,
            "",
            cannot_read_script,
        ),
        (Failing::Open(2), "x\n1\n", Status::Read, "", cannot_read),
        (Failing::Open(3), "x\n1\n", Status::Read, "", cannot_read),
        (Failing::Read(3), "x\n1\n", Status::Read, "", cannot_read),
        (
            Failing::WriteOut,
            "x\n1\n",
            Status::Write,
            "",
            "tallrun: cannot write\n",
        ),
        (Failing::WriteErr, "y\n1\n", Status::Write, "", ""),
    ] {
        let mut shelf = shelf_of(&rt, rt.alloc(), &[("s.m", SCRIPT), ("a.csv", data)])?;
        let mut out = MemSink::new(rt.alloc());
        let mut err = MemSink::new(rt.alloc());
        match failing {
            Failing::Open(call) => shelf.fail_open(call)?,
            Failing::Read(call) => shelf.fail_read(call)?,
            Failing::WriteOut => out.fail_at(1)?,
            Failing::WriteErr => err.fail_at(1)?,
        }
        let status = ending(&rt, rt.alloc(), GO, &mut shelf, &mut out, &mut err)?;
        assert_eq!(rt; status, want, "{line}");
        assert_eq!(rt; out.bytes(), text.as_bytes(), "{line}");
        assert_eq!(rt; err.bytes(), line.as_bytes(), "{line}");
    }
    Ok(())
}
