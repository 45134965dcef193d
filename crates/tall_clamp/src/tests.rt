use super::*;
use std::alloc::{AllocError, Global};
use std::process::Abort;
use std::test::Fail;
use tall_int::Whole;

/// What few rows give that are cut behind the first; none for many rows.
fn cut<F: Fold>(alloc: Global, rows: &[F::Input]) -> Result<Option<F::Output>, AllocError> {
    if rows.len() > 100 {
        return Ok(None);
    }
    let (first, second) = rows.split_at(rows.len().min(1));
    let blocks = [
        Vec::from_slice(alloc, first)?,
        Vec::from_slice(alloc, second)?,
    ];
    Ok(Some(outcome::<F>(&blocks)))
}

/// int8: 100, 100, -100 from 0 is 27, and from -128 is -28.
#[test]
fn sums_saturate_row_by_row(rt: HostRuntime) -> Result<(), Fail> {
    let alloc = rt.alloc();
    let rows = [100i8, 100, -100];
    assert_eq!(rt; cut::<ClampSum<i8>>(alloc, &rows)?, Some(27));
    assert_eq!(rt; ClampSum::of_slice(&rows).sum_from(-128), -28);
    assert_eq!(rt; Clamp::of_rows(&rows).apply(-128), -28);
    let up = Clamp::of_value(100i8);
    assert_eq!(rt; up.then(up.then(Clamp::of_value(-100))).apply(0), 27);
    let blocks = [
        Vec::from_slice(alloc, &rows)?,
        Vec::from_slice(alloc, &[-100i8])?,
    ];
    assert_eq!(rt; Clamp::of_blocks(&blocks).apply(0), -73);
    Ok(())
}

fn double(n: i32) -> Term {
    Term::of_whole(Whole::of_small(n))
}

/// The number of a total.
fn seen(total: Option<Whole>) -> Option<Option<i64>> {
    total.map(|w| w.get())
}

#[test]
fn doubles_are_summed_and_compared(rt: HostRuntime) -> Result<(), Fail> {
    let alloc = rt.alloc();
    let rows = [double(3), Term::of_int(-5i8), Term::of_bool(true)];
    let total = cut::<ExactSum>(alloc, &rows)?.ok_or("too many rows")?;
    assert_eq!(rt; seen(total), Some(Some(-1)));
    let nan = [double(3), Term::of_whole(Whole::nan())];
    assert_eq!(rt; cut::<Least>(alloc, &nan)?, Some(Some(3)));
    assert_eq!(rt; cut::<Greatest>(alloc, &nan)?, Some(Some(3)));
    assert_eq!(rt;
        seen(ExactSum::of_ints(&[200u8, 100]).finish()),
        Some(Some(300))
    );
    let wholes = [Whole::of_small(3), Whole::nan()];
    assert_eq!(rt; seen(ExactSum::of_wholes(&wholes).finish()), Some(None));
    Ok(())
}

#[test]
fn truths_are_folded(rt: HostRuntime) -> Result<(), Fail> {
    let alloc = rt.alloc();
    let rows = [true, false, true];
    assert_eq!(rt; cut::<AnyTrue>(alloc, &rows)?, Some(true));
    assert_eq!(rt; cut::<AllTrue>(alloc, &rows)?, Some(false));
    assert_eq!(rt; cut::<Count>(alloc, &rows)?, Some(2));
    assert_eq!(rt; fold_rows::<AllTrue>(&rows).finish(), false);
    Ok(())
}
