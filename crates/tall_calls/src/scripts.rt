//! Scripts and refusals, against values that were written by hand, and scripts of the greatest length.
use std::alloc::{AllocError, Global};
use std::process::Abort;
use std::test::Fail;
use tall_grammar::ParseFault;
use tall_parse::parse;

/// The longest script that is read.
const LONGEST: usize = 1_048_576;

const SCRIPT: &str = "x = 'it''s' % it
[a, b] = gather(x, y)
function f(data, info, out)
  if x > 1
    add(out, 'a', x);
  else
    y = 2; z = 3;
  end
  while hasnext(x)
    z = getnext(x);
  end
end
";

/// The text is refused with this fault.
fn is_refused(rt: &impl Abort, alloc: Global, text: &[u8], fault: ParseFault) {
    assert_eq!(rt; parse(alloc, text).err(), Some(fault), "{text:?}");
}

/// The texts are refused with a syntax fault in these lines.
fn are_no_scripts(rt: &impl Abort, alloc: Global, rows: &[(&str, u32)]) {
    for (text, line) in rows {
        is_refused(
            rt,
            alloc,
            text.as_bytes(),
            ParseFault::Syntax { line: *line },
        );
    }
}

/// The text is a script of so many statements and functions.
fn is_script(rt: &impl Abort, alloc: Global, text: &[u8], counts: (usize, usize)) {
    match parse(alloc, text) {
        Ok(script) => assert_eq!(rt;
            (script.statements.len(), script.functions.len()),
            counts,
            "{text:?}"
        ),
        Err(fault) => assert!(rt; false, "{fault:?}: {text:?}"),
    }
}

/// So many signs before a number, in so many brackets.
fn signs(alloc: Global, brackets: usize, count: usize) -> Result<Vec<u8>, AllocError> {
    let mut text = Vec::new(alloc);
    text.extend_from_slice(b"x = ")?;
    for _bracket in 0..brackets {
        text.push(b'(')?;
    }
    for _sign in 0..count {
        text.push(b'-')?;
    }
    text.push(b'1')?;
    for _bracket in 0..brackets {
        text.push(b')')?;
    }
    Ok(text)
}

#[test]
fn texts_are_scripts_or_refused(rt: HostRuntime) {
    is_script(&rt, rt.alloc(), b"", (0, 0));
    is_script(&rt, rt.alloc(), SCRIPT.as_bytes(), (2, 1));
    are_no_scripts(&rt, rt.alloc(), &[("y = 1\nx = (1 + 2;", 2), ("x = ", 1)]);
    let bad = ParseFault::BadToken { line: 2, place: 5 };
    is_refused(&rt, rt.alloc(), b"x = 1;\ny = \"abc", bad);
}

/// Scripts of the greatest length, and one byte more.
#[test]
fn long_scripts_are_read(rt: HostRuntime) -> Result<(), Fail> {
    let deep = ParseFault::TooDeep { line: 1 };
    is_refused(
        &rt,
        rt.alloc(),
        signs(rt.alloc(), 0, LONGEST - 5)?.as_slice(),
        deep,
    );
    is_refused(
        &rt,
        rt.alloc(),
        signs(rt.alloc(), 64, LONGEST - 133)?.as_slice(),
        deep,
    );
    let mut blanks = Vec::new(rt.alloc());
    for _blank in 0..LONGEST {
        blanks.push(b' ')?;
    }
    is_script(&rt, rt.alloc(), blanks.as_slice(), (0, 0));
    blanks.push(b' ')?;
    is_refused(&rt, rt.alloc(), blanks.as_slice(), ParseFault::TooLong);
    Ok(())
}
