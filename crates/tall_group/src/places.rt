//! States of groups by their places.
ghost use Rattle.std.specs.Prelude.{◌≡◌, ◌<◌, ◌≤◌, ◌+◌, ◌++◌, ◌^◌, ℕ, ℤ, [], ◌∷◌, IfOk, List, Option, ◌==◌, get_or, if◌then◌else◌, length, map, vec_capacity};
ghost use Rattle.std.specs.List.{All};
ghost use Rattle.tall_value.specs.Cells.{seen, seen_kind};
ghost use Rattle.tall_value.specs.Classes.{greatest, kind_of, least};
ghost use Rattle.tall_value.specs.Columns.{HasKind};
ghost use Rattle.tall_group.specs.Keys.{Begins};
ghost use Rattle.tall_group.specs.Places.{AreOf, Data, if_here, parts_at, rows_at, singles};
ghost use Rattle.tall_group.specs.States.{IsRange, IsWithin, datum, high_of, low_of};

use crate::states::GroupState;
use std::alloc::AllocError;
use tall_column::Column;
use tall_int::IntClass;
use tall_value::{Cell, IntKind, Kind};

/// The datum of a cell: none for NaN.
pub(crate) fn datum_of(cell: &Cell<'_>) -> Option<i128>
    ensures value { result ≡ datum (seen cell.now) }
    ensures within { IsWithin (low_of (seen_kind (seen cell.now))) (high_of (seen_kind (seen cell.now))) result }
{
    match *cell {
        Cell::I8(n) => Some(n as i128),
        Cell::I16(n) => Some(n as i128),
        Cell::I32(n) => Some(n as i128),
        Cell::I64(n) => Some(n as i128),
        Cell::U8(n) => Some(n as i128),
        Cell::U16(n) => Some(n as i128),
        Cell::U32(n) => Some(n as i128),
        Cell::U64(n) => Some(n as i128),
        Cell::Logical(b) => Some(if b { 1 } else { 0 }),
        Cell::Double(d) => match d.get() {
            Some(n) => Some(n as i128),
            None => None,
        },
        Cell::Text(_) => Some(0),
    }
}

/// The least number of the data of a kind.
fn low_of(kind: Kind) -> i128
    ensures { result ≡ low_of kind }
{
    match kind {
        Kind::Integer(IntKind::Int8) => i8::MIN as i128,
        Kind::Integer(IntKind::Int16) => i16::MIN as i128,
        Kind::Integer(IntKind::Int32) => i32::MIN as i128,
        Kind::Integer(IntKind::Int64) => i64::MIN as i128,
        Kind::Integer(_) => 0,
        Kind::Double => -(1 << 53),
        _ => -(1 << 64),
    }
}

/// The greatest number of the data of a kind.
fn high_of(kind: Kind) -> i128
    ensures { result ≡ high_of kind }
{
    match kind {
        Kind::Integer(IntKind::Int8) => i8::MAX as i128,
        Kind::Integer(IntKind::Int16) => i16::MAX as i128,
        Kind::Integer(IntKind::Int32) => i32::MAX as i128,
        Kind::Integer(IntKind::Int64) => i64::MAX as i128,
        Kind::Integer(IntKind::Uint8) => u8::MAX as i128,
        Kind::Integer(IntKind::Uint16) => u16::MAX as i128,
        Kind::Integer(IntKind::Uint32) => u32::MAX as i128,
        Kind::Integer(IntKind::Uint64) => u64::MAX as i128,
        Kind::Double => 1 << 53,
        _ => 1 << 64,
    }
}

/// States without data for the places from the number of states on.
pub(crate) fn extend<S: GroupState>(states: &mut Vec<S>, len: usize) -> Result<(), AllocError>
    requires { length states.old.items ≤ len }
    ensures begins { Begins states.old.items states.new.items }
    ensures long { IfOk result (λ _. length states.new.items ≡ len) }
    ensures data { (low high : ℤ) (at : ℕ → Data) → IsRange low high → AreOf (S.of low high) at states.old.items → ((p : ℕ) → length states.old.items ≤ p → at p ≡ []) → IfOk result (λ _. AreOf (S.of low high) at states.new.items) }
{
    while states.len() < len {
        states.push(S::none())?;
    }
    Ok(())
}

/// States without data for the places from the number of states on, of which there is at most one, with room for it.
pub(crate) fn fill<S: GroupState>(states: &mut Vec<S>, len: usize)
    requires low { length states.old.items ≤ len }
    requires high { len ≤ length states.old.items + 1 }
    requires room { length states.old.items < vec_capacity states.old }
    ensures long { length states.new.items ≡ len }
    ensures data { (low high : ℤ) (at : ℕ → Data) → IsRange low high → AreOf (S.of low high) at states.old.items → ((p : ℕ) → length states.old.items ≤ p → at p ≡ []) → AreOf (S.of low high) at states.new.items }
{
    if states.len() < len {
        states.push_reserved(S::none());
    }
}

/// One datum more at a place.
fn step_at<S: GroupState>(
    states: &mut Vec<S>,
    place: usize,
    low: i128,
    high: i128,
    datum: Option<i128>,
)
    requires within { place < length states.old.items }
    requires range { IsRange low high }
    requires datum { IsWithin low high datum }
    requires few { (p : ℕ) (d : S) → p < length states.old.items → S.rows (get_or states.old.items p d) + 1 < 2 ^ 40 }
    ensures long { length states.new.items ≡ length states.old.items }
    ensures rows { (p : ℕ) (d : S) → p < length states.old.items → S.rows (get_or states.new.items p d) ≤ S.rows (get_or states.old.items p d) + 1 }
    ensures data { (at : ℕ → Data) → AreOf (S.of low high) at states.old.items → AreOf (S.of low high) (λ p. at p ++ if_here p place (datum ∷ [])) states.new.items }
{
    let state = states[place];
    states[place] = state.step(low, high, datum);
}

/// One datum of a kind more at a place.
pub(crate) fn step_in<S: GroupState>(
    states: &mut Vec<S>,
    place: usize,
    kind: Kind,
    datum: Option<i128>,
)
    requires within { place < length states.old.items }
    requires datum { IsWithin (low_of kind) (high_of kind) datum }
    requires few { (p : ℕ) (d : S) → p < length states.old.items → S.rows (get_or states.old.items p d) + 1 < 2 ^ 40 }
    ensures long { length states.new.items ≡ length states.old.items }
    ensures rows { (p : ℕ) (d : S) → p < length states.old.items → S.rows (get_or states.new.items p d) ≤ S.rows (get_or states.old.items p d) + 1 }
    ensures data { (at : ℕ → Data) → AreOf (S.of (low_of kind) (high_of kind)) at states.old.items → AreOf (S.of (low_of kind) (high_of kind)) (λ p. at p ++ if_here p place (datum ∷ [])) states.new.items }
{
    step_at(states, place, low_of(kind), high_of(kind), datum);
}

/// The data of later rows behind those at a place.
fn join_at<S: GroupState>(states: &mut Vec<S>, place: usize, later: S)
    requires within { place < length states.old.items }
    requires few { (d : S) → S.rows (get_or states.old.items place d) + S.rows later < 2 ^ 40 }
    ensures long { length states.new.items ≡ length states.old.items }
    ensures rows { (p : ℕ) (d : S) → p < length states.old.items → S.rows (get_or states.new.items p d) ≡ S.rows (get_or states.old.items p d) + (if place == p then S.rows later else 0) }
    ensures data { (low high : ℤ) (at : ℕ → Data) (ds : Data) → IsRange low high → AreOf (S.of low high) at states.old.items → S.of low high ds later → AreOf (S.of low high) (λ p. at p ++ if_here p place ds) states.new.items }
{
    let state = states[place];
    states[place] = state.join(later);
}

/// The data of a column, each at its place.
pub(crate) fn step_rows<S: GroupState>(states: &mut Vec<S>, places: &[usize], values: &Column)
    requires even { length places.now ≡ length values.now.cells }
    requires within { (i : ℕ) (d : ℕ) → i < length places.now → get_or places.now i d < length states.old.items }
    requires few { (p : ℕ) (d : S) → p < length states.old.items → S.rows (get_or states.old.items p d) + length places.now < 2 ^ 40 }
    ensures long { length states.new.items ≡ length states.old.items }
    ensures kinds { All (HasKind (kind_of values.now.class)) values.now.cells }
    ensures data { (at : ℕ → Data) → AreOf (S.of (low_of (kind_of values.now.class)) (high_of (kind_of values.now.class))) at states.old.items → AreOf (S.of (low_of (kind_of values.now.class)) (high_of (kind_of values.now.class))) (λ p. at p ++ parts_at p places.now (singles values.now.cells)) states.new.items }
{
    let kind = values.class().kind();
    for row in 0..places.len() {
        step_in(states, places[row], kind, datum_of(&values.get(row)));
    }
}

/// The data of later groups, each at its place.
pub(crate) fn join_all<S: GroupState>(states: &mut Vec<S>, places: &[usize], later: &[S])
    requires even { length places.now ≡ length later.now }
    requires within { (i : ℕ) (d : ℕ) → i < length places.now → get_or places.now i d < length states.old.items }
    requires few { (p : ℕ) (d : S) → p < length states.old.items → S.rows (get_or states.old.items p d) + rows_at S.rows p places.now later.now < 2 ^ 40 }
    ensures long { length states.new.items ≡ length states.old.items }
    ensures data { (low high : ℤ) (at : ℕ → Data) (parts : List Data) → IsRange low high → length parts ≡ length later.now → ((i : ℕ) (ds : Data) (d : S) → i < length later.now → S.of low high (get_or parts i ds) (get_or later.now i d)) → AreOf (S.of low high) at states.old.items → AreOf (S.of low high) (λ p. at p ++ parts_at p places.now parts) states.new.items }
{
    for i in 0..places.len() {
        join_at(states, places[i], later[i]);
    }
}
