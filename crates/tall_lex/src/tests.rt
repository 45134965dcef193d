use super::*;
use std::process::Abort;

/// The longest script that is read.
const LONGEST: usize = 1_048_576;

/// A script is refused at this line and place.
fn is_refused(
    rt: &impl Abort,
    outcome: Result<Vec<Token>, LexFault>,
    want: (u32, u32),
    script: &[u8],
) {
    match outcome {
        Err(LexFault::BadToken { line, place }) => assert_eq!(rt;
            (line, place),
            want,
            "{script:?}"
        ),
        _ => assert!(rt; false, "read: {script:?}"),
    }
}

/// Each kind of bad token, by its line and its place in the line.
#[test]
fn each_bad_token_has_its_line_and_place(rt: HostRuntime) {
    let rows = [
        // numbers
        ("x = 1.5", (1, 5)),
        ("x = 1.5y", (1, 5)),
        ("x = 9007199254740993", (1, 5)),
        ("x = 1e400", (1, 5)),
        ("x = 15e-1", (1, 5)),
        ("x = 12ab", (1, 7)),
        ("x = 1e", (1, 6)),
        ("x = 1e+", (1, 6)),
        ("x = 1e5e5", (1, 8)),
        // names and words
        (
            "abcdefghijklmnopqrstuvwxyzabcdefghijklmnopqrstuvwxyz012345678901",
            (1, 1),
        ),
        ("x = _y", (1, 5)),
        // texts
        ("x = 'abc", (1, 5)),
        ("x = 'abc\n'", (1, 5)),
        ("x = 'abc''", (1, 5)),
        ("x = \"abc'", (1, 5)),
        ("x = 'ab\rc'", (1, 8)),
        ("x = 'ab\rc", (1, 5)),
        ("x = y'", (1, 6)),
        ("x = 5'", (1, 6)),
        ("x = \"a\"'b'", (1, 8)),
        ("x = (y)'", (1, 8)),
        ("x = []'", (1, 7)),
        ("x = {}'", (1, 7)),
        // carriage returns
        ("x\ry", (1, 2)),
        ("x \r", (1, 3)),
        ("x % a\rb", (1, 6)),
        ("x % a\r", (1, 6)),
        ("x ... a\rb", (1, 8)),
        // comments
        ("x;\n  %{  \r\n", (2, 3)),
        ("%{", (1, 1)),
        ("x = ...\n%{\n", (2, 1)),
        // signs
        ("a && b", (1, 3)),
        ("a || b", (1, 3)),
        ("a ! b", (1, 3)),
        ("a = b^2", (1, 6)),
        ("x = 'é' é", (1, 10)),
        ("\u{feff}x", (1, 1)),
        // the first of several
        ("x = 1;\r\n\ty = !a && 'b", (2, 6)),
    ];
    for (script, want) in rows {
        assert!(rt; script.len() <= LONGEST);
        is_refused(&rt, lex(rt.alloc(), script), want, script.as_bytes());
    }
}

/// A byte that isn't UTF-8, and what stands before it.
#[test]
fn bytes_that_are_no_text_have_their_place(rt: HostRuntime) {
    let rows: [(&[u8], (u32, u32)); 5] = [
        (b"x = \xff", (1, 5)),
        (b"x\n\xe2\x82 y", (2, 1)),
        (b"x = 'a\xff'", (1, 5)),
        (b"% \xc3\xa9\xc3", (1, 5)),
        (b"a\r\xff", (1, 2)),
    ];
    for (script, want) in rows {
        assert!(rt; script.len() <= LONGEST);
        is_refused(&rt, lex_bytes(rt.alloc(), script), want, script);
    }
}

/// The kinds, lines and spans of a script's tokens.
#[test]
fn tokens_have_their_spans(rt: HostRuntime) {
    let script = "% totals\r\ns = sum(T.v, 'it''s') ... the sum\n  .* 5..*2; end'x'\n";
    assert!(rt; script.len() <= LONGEST);
    let rows = [
        (TokenKind::LineEnd, 1, 9, 10),
        (TokenKind::Name, 2, 10, 11),
        (TokenKind::Sign, 2, 12, 13),
        (TokenKind::Name, 2, 14, 17),
        (TokenKind::Sign, 2, 17, 18),
        (TokenKind::Name, 2, 18, 19),
        (TokenKind::Sign, 2, 19, 20),
        (TokenKind::Name, 2, 20, 21),
        (TokenKind::Sign, 2, 21, 22),
        (TokenKind::Text, 2, 23, 30),
        (TokenKind::Sign, 2, 30, 31),
        (TokenKind::Sign, 3, 46, 48),
        (TokenKind::Number, 3, 49, 50),
        (TokenKind::Sign, 3, 50, 51),
        (TokenKind::Sign, 3, 51, 53),
        (TokenKind::Number, 3, 53, 54),
        (TokenKind::Sign, 3, 54, 55),
        (TokenKind::Word, 3, 56, 59),
        (TokenKind::Text, 3, 59, 62),
        (TokenKind::LineEnd, 3, 62, 63),
    ];
    match lex(rt.alloc(), script) {
        Ok(tokens) => {
            assert_eq!(rt; tokens.len(), rows.len());
            for (token, (kind, line, from, to)) in tokens.iter().zip(rows) {
                assert_eq!(rt;
                    *token,
                    Token {
                        kind,
                        line,
                        from,
                        to
                    }
                );
            }
        }
        Err(_) => assert!(rt; false, "refused"),
    }
}
