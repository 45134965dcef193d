//! Values inside a function.
ghost use Rattle.std.specs.Prelude.{◌≡◌, IfOk, IfSome, Ok, Result, Some, option_map};
ghost use Rattle.std.specs.Option.{is_some};
ghost use Rattle.tall_local.specs.Locals as locals;
ghost use Rattle.tall_local.specs.Locals.{Held, is_held_scalar, held, memory_of};
ghost use Rattle.tall_local.specs.Memory as memory;
ghost use Rattle.tall_local.specs.Memory.{Memory, scalar};
ghost use Rattle.tall_value.specs.Cells.{seen};
ghost use Rattle.tall_local.specs.Refusals.{Refusal, undefined};
ghost use Rattle.tall_memory.specs.Values.{Gives, ref_seen, value_seen};
ghost use Rattle.tall_fun.specs.Failures.{memory_refusal};
ghost use Rattle.tall_fun.specs.Values.{AnswersAt, GivesHeld, held_seen};

use crate::failures::{Failure, Refused};
use std::alloc::{AllocError, Global};
use tall_column::{Column, Table, Texts};
use tall_memory::{MemoryFault, MemoryRef, MemoryValue, memory_end};
use tall_value::{Cell, Name};

/// A value of a function's name or expression: in memory, kept or lent, or the store or the iterator of the call, or none, as of the
/// second parameter of a map function. Scalars are kept: they are small.
#[derive(Drop)]
pub(crate) enum LocalValue<'n> {
    Kept(MemoryValue),
    Column(&'n Column),
    Table(&'n Table),
    Texts(&'n Texts),
    Store,
    Iterator,
    NoValue,
}

/// A scalar, kept.
pub(crate) fn kept_scalar<'n>(alloc: Global, c: &Cell<'_>) -> Result<LocalValue<'n>, MemoryFault>
    ensures { GivesHeld (Ok (locals.value (scalar (seen c.now)))) result }
{
    kept(MemoryValue::scalar(alloc, c))
}

/// A value in memory that is kept, lent; a scalar is copied.
fn lent<'n>(alloc: Global, v: &'n MemoryValue) -> Result<LocalValue<'n>, MemoryFault>
    ensures { GivesHeld (Ok (locals.value (value_seen v.now))) result }
{
    match v.lend() {
        MemoryRef::Scalar(c) => kept_scalar(alloc, &c),
        MemoryRef::Column(x) => Ok(LocalValue::Column(x)),
        MemoryRef::Table(t) => Ok(LocalValue::Table(t)),
        MemoryRef::Texts(texts) => Ok(LocalValue::Texts(texts)),
    }
}

/// The scalar that is kept, if it is one.
fn scalar_in(v: &MemoryValue) -> Option<Cell<'_>>
    ensures { IfSome result (λ c. value_seen v.now ≡ scalar (seen c)) }
{
    match v.lend() {
        MemoryRef::Scalar(c) => Some(c),
        MemoryRef::Column(_) => None,
        MemoryRef::Table(_) => None,
        MemoryRef::Texts(_) => None,
    }
}

/// The column that is kept, if it is one.
fn column_in(v: &MemoryValue) -> Option<&Column>
    ensures { IfSome result (λ x. value_seen v.now ≡ memory.column x.now) }
{
    match v.lend() {
        MemoryRef::Column(x) => Some(x),
        MemoryRef::Scalar(_) => None,
        MemoryRef::Table(_) => None,
        MemoryRef::Texts(_) => None,
    }
}

fn is_kept_scalar(v: &MemoryValue) -> bool
    ensures { result ≡ is_held_scalar (locals.value (value_seen v.now)) }
{
    match v.lend() {
        MemoryRef::Scalar(_) => true,
        MemoryRef::Column(_) => false,
        MemoryRef::Table(_) => false,
        MemoryRef::Texts(_) => false,
    }
}

impl<'n> LocalValue<'n> {
    /// The same value, lent.
    pub(crate) fn lend(&self, alloc: Global) -> Result<LocalValue<'_>, MemoryFault>
        ensures { GivesHeld (Ok (held_seen self.now)) result }
    {
        match self {
            LocalValue::Kept(v) => lent(alloc, v),
            LocalValue::Column(x) => Ok(LocalValue::Column(x)),
            LocalValue::Table(t) => Ok(LocalValue::Table(t)),
            LocalValue::Texts(texts) => Ok(LocalValue::Texts(texts)),
            LocalValue::Store => Ok(LocalValue::Store),
            LocalValue::Iterator => Ok(LocalValue::Iterator),
            LocalValue::NoValue => Ok(LocalValue::NoValue),
        }
    }

    /// The scalar, if the value is one.
    pub(crate) fn scalar(&self) -> Option<Cell<'_>>
        ensures { IfSome result (λ c. held_seen self.now ≡ locals.value (scalar (seen c))) }
    {
        match self {
            LocalValue::Kept(v) => scalar_in(v),
            LocalValue::Column(_) => None,
            LocalValue::Table(_) => None,
            LocalValue::Texts(_) => None,
            LocalValue::Store => None,
            LocalValue::Iterator => None,
            LocalValue::NoValue => None,
        }
    }

    /// The column, if the value is one.
    pub(crate) fn column(&self) -> Option<&Column>
        ensures { IfSome result (λ x. held_seen self.now ≡ locals.value (memory.column x.now)) }
    {
        match self {
            LocalValue::Kept(v) => column_in(v),
            LocalValue::Column(x) => Some(x),
            LocalValue::Table(_) => None,
            LocalValue::Texts(_) => None,
            LocalValue::Store => None,
            LocalValue::Iterator => None,
            LocalValue::NoValue => None,
        }
    }

    /// The value in memory, if it is one.
    pub(crate) fn memory(&self) -> Option<MemoryRef<'_>>
        ensures { option_map ref_seen result ≡ memory_of (held_seen self.now) }
    {
        match self {
            LocalValue::Kept(v) => Some(v.lend()),
            LocalValue::Column(x) => Some(MemoryRef::Column(x)),
            LocalValue::Table(t) => Some(MemoryRef::Table(t)),
            LocalValue::Texts(texts) => Some(MemoryRef::Texts(texts)),
            LocalValue::Store => None,
            LocalValue::Iterator => None,
            LocalValue::NoValue => None,
        }
    }

    /// The value is in memory.
    pub(crate) fn is_memory(&self) -> bool
        ensures { result ≡ is_some (memory_of (held_seen self.now)) }
    {
        match self {
            LocalValue::Kept(_) => true,
            LocalValue::Column(_) => true,
            LocalValue::Table(_) => true,
            LocalValue::Texts(_) => true,
            LocalValue::Store => false,
            LocalValue::Iterator => false,
            LocalValue::NoValue => false,
        }
    }

    /// The value in memory, lent; of another value it says nothing.
    pub(crate) fn as_memory(&self) -> MemoryRef<'_>
        ensures { (v : Memory) → memory_of (held_seen self.now) ≡ Some v → ref_seen result ≡ v }
    {
        match self {
            LocalValue::Kept(v) => v.lend(),
            LocalValue::Column(x) => MemoryRef::Column(x),
            LocalValue::Table(t) => MemoryRef::Table(t),
            LocalValue::Texts(texts) => MemoryRef::Texts(texts),
            LocalValue::Store => MemoryRef::Scalar(Cell::Logical(false)),
            LocalValue::Iterator => MemoryRef::Scalar(Cell::Logical(false)),
            LocalValue::NoValue => MemoryRef::Scalar(Cell::Logical(false)),
        }
    }

    /// The value is a scalar in memory.
    pub(crate) fn is_scalar(&self) -> bool
        ensures { result ≡ is_held_scalar (held_seen self.now) }
    {
        match self {
            LocalValue::Kept(v) => is_kept_scalar(v),
            LocalValue::Column(_) => false,
            LocalValue::Table(_) => false,
            LocalValue::Texts(_) => false,
            LocalValue::Store => false,
            LocalValue::Iterator => false,
            LocalValue::NoValue => false,
        }
    }
}

#[tactic(auto, using(crate::proofs::ValueLemmas::held_refused))]
/// A value that was computed, as a value of a function.
pub(crate) fn kept<'n>(
    answer: Result<MemoryValue, MemoryFault>,
) -> Result<LocalValue<'n>, MemoryFault>
    ensures { (want : Result Memory Refusal) → Gives want answer → GivesHeld (held want) result }
{
    match answer {
        Ok(v) => Ok(LocalValue::Kept(v)),
        Err(fault) => Err(fault),
    }
}

#[tactic(auto, using(crate::proofs::ValueLemmas::answers_at))]
/// An answer on a line.
pub(crate) fn at_line<'n>(
    line: u32,
    answer: Result<LocalValue<'n>, MemoryFault>,
) -> Result<LocalValue<'n>, Failure>
    ensures { (want : Result Held Refusal) → GivesHeld want answer.entry → AnswersAt line want result }
{
    match answer {
        Ok(v) => Ok(v),
        Err(fault) => Err(Failure {
            line,
            refused: Refused::Value(fault),
        }),
    }
}

/// The name that stands for nothing; want of memory where it cannot be kept.
pub(crate) fn undefined_fault(alloc: Global, name: &str) -> MemoryFault
    ensures { (r : Refusal) → memory_refusal result ≡ Some r → r ≡ undefined name.now }
{
    match Name::of(alloc, name) {
        Ok(name) => MemoryFault::Undefined(name),
        Err(_) => MemoryFault::Memory,
    }
}

#[tactic(auto, using(crate::proofs::ValueLemmas::same_texts))]
fn copied_texts(alloc: Global, texts: &Texts) -> Result<Texts, AllocError>
    ensures { IfOk result (λ t. t ≡ texts.now) }
{
    let mut copy = Texts::new(alloc);
    copy.add_all(texts)?;
    Ok(copy)
}

#[tactic(auto, using(crate::proofs::ValueLemmas::all_rows))]
/// A copy of a value in memory.
pub(crate) fn copied(alloc: Global, v: &MemoryRef<'_>) -> Result<MemoryValue, MemoryFault>
    ensures { Gives (Ok (ref_seen v.now)) result }
{
    match v {
        MemoryRef::Scalar(c) => MemoryValue::scalar(alloc, c),
        MemoryRef::Column(x) => Ok(MemoryValue::column(x.copy()?)),
        MemoryRef::Table(t) => memory_end(alloc, v, false, t.height() as u64),
        MemoryRef::Texts(texts) => Ok(MemoryValue::Texts(copied_texts(alloc, texts)?)),
    }
}
