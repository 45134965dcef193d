use super::*;
use std::process::Abort;

/// The public calls of two operands.
#[derive(Clone, Copy, Debug)]
enum Call {
    Sum,
    Difference,
    Product,
    Quotient,
    Rounded(Rounding),
    Rest,
    Both,
    Either,
    One,
    Turned,
    Size,
    Mixed(Arith),
}

fn called<I: IntClass>(call: Call, a: I, b: I) -> I {
    match call {
        Call::Sum => sat_add(a, b),
        Call::Difference => sat_sub(a, b),
        Call::Product => sat_mul(a, b),
        Call::Quotient => div_round(a, b),
        Call::Rounded(how) => idivide(a, b, how),
        Call::Rest => modulo(a, b),
        Call::Both => bit_and(a, b),
        Call::Either => bit_or(a, b),
        Call::One => bit_xor(a, b),
        Call::Turned => neg(a),
        Call::Size => abs(a),
        Call::Mixed(op) => mixed(op, a.wide(), b.wide()),
    }
}

fn holds<I: IntClass>(rt: &impl Abort, rows: &[(Call, i128, i128, i128)]) {
    for (call, a, b, want) in rows {
        let result: I = called(*call, clamp(*a), clamp(*b));
        assert_eq!(rt; result.wide(), *want, "{} {call:?} {a} {b}", I::name());
    }
}

#[test]
fn each_operator(rt: HostRuntime) {
    let rows = [
        (Call::Sum, 100, 100, 127),
        (Call::Difference, -100, 100, -128),
        (Call::Product, -100, 100, -128),
        (Call::Quotient, -5, 2, -3),
        (Call::Rounded(Rounding::Ceil), -7, 2, -3),
        (Call::Rest, -7, 3, 2),
        (Call::Both, -6, 7, 2),
        (Call::Either, -6, 5, -1),
        (Call::One, -6, -1, 5),
        (Call::Turned, -128, 0, 127),
        (Call::Size, -128, 0, 127),
        (Call::Mixed(Arith::Idivide(Rounding::Fix)), -1, 0, -128),
    ];
    holds::<i8>(&rt, &rows);
}

#[test]
fn products_above_the_greatest_int64(rt: HostRuntime) {
    let rows = [(
        Call::Product,
        4_294_967_296,
        2_147_483_649,
        9_223_372_041_149_743_104,
    )];
    holds::<u64>(&rt, &rows);
}

#[test]
fn each_call_of_doubles(rt: HostRuntime) {
    let top = 9_007_199_254_740_992;
    let seven = Whole::of_small(7);
    let two = Whole::of_small(2);
    assert_eq!(rt; seven.add(two), Ok(Whole::of_small(9)));
    assert_eq!(rt; two.sub(seven), Ok(Whole::of_small(-5)));
    assert_eq!(rt; seven.mul(two), Ok(Whole::of_small(14)));
    assert_eq!(rt; seven.div(two), Err(WholeFault::NotWhole));
    assert_eq!(rt; seven.modulo(two.neg()), Whole::of_small(-1));
    assert_eq!(rt; Whole::nan().abs().get(), None);
    assert_eq!(rt; Whole::of_number(top + 1), Err(WholeFault::Inexact));
    assert_eq!(rt;
        Whole::new(-9_007_199_254_740_992).and_then(Whole::get),
        Some(-9_007_199_254_740_992)
    );
    assert!(rt; Whole::of_small(5) < Whole::nan());
}

#[test]
fn classes_have_their_names(rt: HostRuntime) {
    let names = [
        <i8 as IntClass>::name(),
        <i16 as IntClass>::name(),
        <i32 as IntClass>::name(),
        <i64 as IntClass>::name(),
        <u8 as IntClass>::name(),
        <u16 as IntClass>::name(),
        <u32 as IntClass>::name(),
        <u64 as IntClass>::name(),
    ];
    let expected = [
        "int8", "int16", "int32", "int64", "uint8", "uint16", "uint32", "uint64",
    ];
    for (name, want) in names.iter().zip(expected.iter()) {
        assert_eq!(rt; *name, *want);
    }
}

#[test]
fn laws_are_called(_rt: HostRuntime) {
    quotients_are_rounded();
    bits_are_twos_complement();
}
