use super::*;
use std::process::Abort;
use std::test::Fail;
use tall_int::Whole;

fn double<'a>(n: i64) -> Cell<'a> {
    Cell::Double(Whole::new(n).unwrap_or(Whole::nan()))
}

fn nan<'a>() -> Cell<'a> {
    Cell::Double(Whole::nan())
}

fn all_give(rt: &impl Abort, rows: &[(Binary, Cell<'_>, Cell<'_>, Cell<'_>)]) {
    for (op, a, b, want) in rows {
        match binary(*op, a, b) {
            Ok(c) => assert!(rt; c == *want, "{op:?} {a:?} {b:?} gives {c:?}"),
            Err(e) => assert!(rt; false, "{op:?} {a:?} {b:?} is refused: {e:?}"),
        }
    }
}

fn all_refuse(rt: &impl Abort, rows: &[(Binary, Cell<'_>, Cell<'_>, CellFault)]) {
    for (op, a, b, want) in rows {
        match binary(*op, a, b) {
            Ok(c) => assert!(rt; false, "{op:?} {a:?} {b:?} gives {c:?}"),
            Err(e) => assert_eq!(rt; e, *want, "{op:?} {a:?} {b:?}"),
        }
    }
}

fn all_make(rt: &impl Abort, rows: &[(Unary, Cell<'_>, Cell<'_>)]) {
    for (op, a, want) in rows {
        match unary(*op, a) {
            Ok(c) => assert!(rt; c == *want, "{op:?} {a:?} gives {c:?}"),
            Err(e) => assert!(rt; false, "{op:?} {a:?} is refused: {e:?}"),
        }
    }
}

fn all_fail(rt: &impl Abort, rows: &[(Unary, Cell<'_>, CellFault)]) {
    for (op, a, want) in rows {
        match unary(*op, a) {
            Ok(c) => assert!(rt; false, "{op:?} {a:?} gives {c:?}"),
            Err(e) => assert_eq!(rt; e, *want, "{op:?} {a:?}"),
        }
    }
}

#[test]
fn calls(rt: HostRuntime) -> Result<(), Fail> {
    all_give(
        &rt,
        &[
            (Binary::Add, Cell::I8(100), double(100), Cell::I8(127)),
            (Binary::Add, nan(), double(1), nan()),
            (
                Binary::Lt,
                Cell::Text("z"),
                Cell::Text("é"),
                Cell::Logical(true),
            ),
        ],
    );
    all_refuse(
        &rt,
        &[
            (Binary::Div, double(7), double(2), CellFault::NotWhole),
            (
                Binary::And,
                Cell::Logical(false),
                nan(),
                CellFault::NanLogical,
            ),
        ],
    );
    all_make(&rt, &[(Unary::ToUint8, Cell::I8(-5), Cell::U8(0))]);
    all_fail(
        &rt,
        &[(
            Unary::ToDouble,
            Cell::I64(9007199254740993),
            CellFault::Inexact,
        )],
    );
    assert_eq!(rt;
        result_class(Binary::Add, Class::Int8, true, Class::Double, false),
        Err(ClassFault::MixedClass)
    );
    assert_eq!(rt;
        unary_class(Unary::Abs, Class::Text),
        Err(ClassFault::BadClass)
    );
    assert_eq!(rt; order(&nan(), &double(1)), std::cmp::Ordering::Greater);
    let text = Owned::of(rt.alloc(), &Cell::Text("Zürich"))?;
    assert!(rt; text.cell() == Cell::Text("Zürich"));
    assert_eq!(rt; Name::of(rt.alloc(), "ds")?.as_str(), "ds");
    Ok(())
}
