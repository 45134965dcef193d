use super::*;
use std::alloc::Global;
use std::process::Abort;
use std::test::Fail;
use tall_value::Cell;

/// One pair, on a line.
fn one(alloc: Global, line: u32, key: &Cell<'_>, value: &Cell<'_>) -> Result<Pairs, PairFault> {
    let mut pairs = Pairs::new(alloc);
    pairs.add(line, key, value)?;
    Ok(pairs)
}

fn is_fault(outcome: Result<(), PairFault>, fault: PairFault) -> bool {
    match outcome {
        Ok(()) => false,
        Err(found) => found == fault,
    }
}

fn key_is(rt: &impl Abort, groups: &Groups, i: usize, key: &Cell<'_>, values: usize) {
    if i < groups.len() {
        assert!(rt; groups.key(i) == *key);
        assert_eq!(rt; groups.values(i).len(), values);
    } else {
        assert!(rt; false, "no such key");
    }
}

#[test]
fn calls(rt: HostRuntime) -> Result<(), Fail> {
    let alloc = rt.alloc();
    let mut pairs = Pairs::new(alloc);
    let (a, b) = (Cell::Text("a"), Cell::Text("b"));
    assert!(rt; pairs.add(1, &b, &Cell::I8(7)).is_ok());
    assert!(rt;
        is_fault(
            pairs.add(2, &Cell::I8(7), &b),
            PairFault::KeyClass { line: 2 }
        )
    );
    assert!(rt; is_fault(pairs.add(3, &a, &b), PairFault::ValueClass { line: 3 }));
    for line in 4..6 {
        let cell = if line == 4 { &a } else { &b };
        match one(alloc, line, cell, &Cell::I8(8)) {
            Ok(later) => assert!(rt; pairs.append(later).is_ok()),
            Err(_) => assert!(rt; false, "refused"),
        }
    }
    assert_eq!(rt; pairs.len(), 3);
    let groups = pairs.group()?;
    assert_eq!(rt; groups.len(), 2);
    key_is(&rt, &groups, 0, &b, 2);
    key_is(&rt, &groups, 1, &a, 1);
    Ok(())
}
