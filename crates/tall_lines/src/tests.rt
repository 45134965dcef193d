//! A line of each kind.
use crate::{Refusal, bad_token_line, changed_line, stop_line};
use tall_value::FaultKind;

#[test]
fn lines_name_their_parts(rt: HostRuntime) {
    let alloc = rt.alloc();
    let line = stop_line(
        alloc,
        6,
        Refusal::Data {
            row: Some(1),
            kind: FaultKind::NotWhole,
        },
    )
    .expect(&rt, "line");
    assert!(rt;
        line.as_slice() == "tallrun: line 6: row 1: result is not a whole number\n".as_bytes()
    );
    let line = stop_line(
        alloc,
        1,
        Refusal::BadField {
            row: 12,
            variable: "x",
        },
    )
    .expect(&rt, "line");
    assert!(rt;
        line.as_slice() == "tallrun: line 1: row 12: variable x: not a number\n".as_bytes()
    );
    let line = bad_token_line(alloc, 1, 7).expect(&rt, "line");
    assert!(rt; line.as_slice() == "tallrun: line 1: bad token at 7\n".as_bytes());
    let line = changed_line(alloc, "a.csv", 2, 3).expect(&rt, "line");
    assert!(rt; line.as_slice() == "tallrun: file a.csv changed: 2 rows, then 3\n".as_bytes());
}
