use super::*;
use std::process::Abort;
use tall_int::{IntClass, WholeFault};

fn class_of<I: IntClass>(bytes: &[u8]) -> Option<i128> {
    match read_field(bytes) {
        Ok(field) => Some(to_class::<I>(field).wide()),
        Err(NotNumber) => None,
    }
}

fn classes_are<I: IntClass>(rt: &impl Abort, rows: &[(&str, Option<i128>)]) {
    for (text, want) in rows {
        assert_eq!(rt;
            class_of::<I>(text.as_bytes()),
            *want,
            "{} {text}",
            I::name()
        );
    }
}

#[test]
fn values_in_a_class(rt: HostRuntime) {
    let rows = [
        ("2.5", Some(3)),
        (" -2.5\t", Some(-3)),
        ("+17", Some(17)),
        ("1e400", Some(127)),
        ("-iNf", Some(-128)),
        ("NAN", Some(0)),
        ("5.", None),
        ("1 0", None),
    ];
    classes_are::<i8>(&rt, &rows);
}

fn double_of(bytes: &[u8]) -> Option<Result<Option<i64>, WholeFault>> {
    match read_field(bytes) {
        Ok(field) => Some(match to_whole(field) {
            Ok(whole) => Ok(whole.get()),
            Err(fault) => Err(fault),
        }),
        Err(NotNumber) => None,
    }
}

#[test]
fn doubles(rt: HostRuntime) {
    for (text, want) in [
        ("9007199254740992", Ok(Some(9007199254740992))),
        ("9007199254740993", Err(WholeFault::Inexact)),
        ("9007199254740993.5", Err(WholeFault::NotWhole)),
        ("-12.5e1", Ok(Some(-125))),
        ("nan", Ok(None)),
    ] {
        assert_eq!(rt; double_of(text.as_bytes()), Some(want), "{text}");
    }
}

#[test]
fn blanks_are_trimmed(rt: HostRuntime) {
    assert_eq!(rt; trim_blanks(b" \tNA ").len(), 2);
    fields_follow_the_grammar();
}
