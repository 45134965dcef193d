//! What a call of a function of values applies to which operands, from the number and the form of its arguments
//! (docs/LANGUAGE.md, order of checks).
ghost use Rattle.std.specs.Prelude.{◌≡◌, ◌∷◌, [], if◌then◌else◌, map, option_and_then, option_map};
ghost use Rattle.tall_value.specs.Cells.{seen, whole};
ghost use Rattle.tall_value.specs.Classes.{greatest, least};
ghost use Rattle.tall_local.specs.Applications as definition;
ghost use Rattle.tall_local.specs.Applications.{application, groups_by, groups_of, sum_of, text_of, to_one, to_two};
ghost use Rattle.tall_local.specs.Functions.{methods, roundings};
ghost use Rattle.tall_local.specs.Memory.{scalar_in};
ghost use Rattle.tall_local.specs.declared.functions.ValueFunction.TheVariants as function;
ghost use Rattle.tall_value.specs.declared.operators.Binary.TheVariants.{Idivide};
ghost use Rattle.tall_memory.specs.Shapes.{application_seen, both, ends_of, four, limit, only, operation_seen, sum_with_two, three};
ghost use Rattle.tall_memory.specs.Values.{ref_seen};

use crate::arguments::{count_of, integer_class, method, rounding, sum_option, text_of};
use crate::values::MemoryRef;
use tall_int::Rounding;
use tall_local::{SumOption, ValueFunction};
use tall_value::{Binary, Cell, IntKind, Method, Reduction, Scan, Unary};

/// What is made of one operand.
#[derive(Clone, Copy)]
pub enum Operation<'a> {
    Reduce(Reduction),
    Height,
    Scan(Scan),
    Head(u64),
    Tail(u64),
    /// `unique`
    Distinct,
    /// `groupsummary` by a key; with the method `Count` the value is not there
    Groups {
        key: &'a str,
        method: Method,
        value: &'a str,
    },
    Unary(Unary),
}

/// A cell, or an operation on one operand or on two.
#[derive(Clone, Copy)]
pub enum Application<'b, 'a> {
    Constant(Cell<'a>),
    ToOne(Operation<'a>, &'b MemoryRef<'a>),
    ToTwo(Binary, &'b MemoryRef<'a>, &'b MemoryRef<'a>),
}

/// The only argument.
fn only<'b, 'a>(args: &'b [MemoryRef<'a>]) -> Option<&'b MemoryRef<'a>>
    ensures { option_map (λ v. ref_seen v.now) result ≡ only (map ref_seen args.now) }
{
    if args.len() == 1 {
        Some(&args[0])
    } else {
        None
    }
}

/// Two arguments, and no more.
fn both<'b, 'a>(args: &'b [MemoryRef<'a>]) -> Option<(&'b MemoryRef<'a>, &'b MemoryRef<'a>)>
    ensures { option_map (λ p. (ref_seen p.0.now, ref_seen p.1.now)) result ≡ both (map ref_seen args.now) }
{
    if args.len() == 2 {
        Some((&args[0], &args[1]))
    } else {
        None
    }
}

type Three<'b, 'a> = (&'b MemoryRef<'a>, &'b MemoryRef<'a>, &'b MemoryRef<'a>);

/// Three arguments, and no more.
fn three<'b, 'a>(args: &'b [MemoryRef<'a>]) -> Option<Three<'b, 'a>>
    ensures { option_map (λ p. (ref_seen p.0.now, ref_seen p.1.now, ref_seen p.2.now)) result ≡ three (map ref_seen args.now) }
{
    if args.len() == 3 {
        Some((&args[0], &args[1], &args[2]))
    } else {
        None
    }
}

type Four<'b, 'a> = (
    &'b MemoryRef<'a>,
    &'b MemoryRef<'a>,
    &'b MemoryRef<'a>,
    &'b MemoryRef<'a>,
);

/// Four arguments, and no more.
fn four<'b, 'a>(args: &'b [MemoryRef<'a>]) -> Option<Four<'b, 'a>>
    ensures { option_map (λ p. (ref_seen p.0.now, ref_seen p.1.now, ref_seen p.2.now, ref_seen p.3.now)) result ≡ four (map ref_seen args.now) }
{
    if args.len() == 4 {
        Some((&args[0], &args[1], &args[2], &args[3]))
    } else {
        None
    }
}

/// An operation on one operand.
fn on_one<'b, 'a>(op: Operation<'a>, args: &'b [MemoryRef<'a>]) -> Option<Application<'b, 'a>>
    ensures { option_map application_seen result ≡ option_map (λ v. to_one (operation_seen op.entry) v) (only (map ref_seen args.now)) }
{
    match only(args) {
        Some(v) => Some(Application::ToOne(op, v)),
        None => None,
    }
}

/// An operator on two operands.
fn on_two<'b, 'a>(op: Binary, args: &'b [MemoryRef<'a>]) -> Option<Application<'b, 'a>>
    ensures { option_map application_seen result ≡ option_map (λ p. to_two op p.0 p.1) (both (map ref_seen args.now)) }
{
    match both(args) {
        Some((v, w)) => Some(Application::ToTwo(op, v, w)),
        None => None,
    }
}

/// The number of rows that `head` and `tail` give by default.
const DEFAULT_ROWS: u64 = 8;

/// `head` or `tail` of so many rows.
fn end_of<'a>(last: bool, k: u64) -> Operation<'a>
    ensures { operation_seen result ≡ (if last then definition.tail k else definition.head k) }
{
    if last {
        Operation::Tail(k)
    } else {
        Operation::Head(k)
    }
}

/// `head(x, k)`.
fn end_by<'b, 'a>(
    last: bool,
    v: &'b MemoryRef<'a>,
    k: &MemoryRef<'_>,
) -> Option<Application<'b, 'a>>
    ensures { option_map application_seen result ≡ option_map (λ n. to_one (if last then definition.tail n else definition.head n) (ref_seen v.now)) (definition.count_of (scalar_in (ref_seen k.now))) }
{
    match count_of(k) {
        Some(n) => Some(Application::ToOne(end_of(last, n), v)),
        None => None,
    }
}

/// `head(x)` and `head(x, k)`, `tail(x)` and `tail(x, k)`.
fn ends<'b, 'a>(last: bool, args: &'b [MemoryRef<'a>]) -> Option<Application<'b, 'a>>
    ensures { option_map application_seen result ≡ ends_of last (map ref_seen args.now) }
{
    match both(args) {
        Some((v, k)) => end_by(last, v, k),
        None => on_one(end_of(last, DEFAULT_ROWS), args),
    }
}

/// The greatest number of a class.
fn greatest(kind: IntKind) -> Cell<'static>
    ensures { seen result ≡ whole kind (greatest kind) }
{
    match kind {
        IntKind::Int8 => Cell::I8(i8::MAX),
        IntKind::Int16 => Cell::I16(i16::MAX),
        IntKind::Int32 => Cell::I32(i32::MAX),
        IntKind::Int64 => Cell::I64(i64::MAX),
        IntKind::Uint8 => Cell::U8(u8::MAX),
        IntKind::Uint16 => Cell::U16(u16::MAX),
        IntKind::Uint32 => Cell::U32(u32::MAX),
        IntKind::Uint64 => Cell::U64(u64::MAX),
    }
}

/// The least number of a class.
fn least(kind: IntKind) -> Cell<'static>
    ensures { seen result ≡ whole kind (least kind) }
{
    match kind {
        IntKind::Int8 => Cell::I8(i8::MIN),
        IntKind::Int16 => Cell::I16(i16::MIN),
        IntKind::Int32 => Cell::I32(i32::MIN),
        IntKind::Int64 => Cell::I64(i64::MIN),
        IntKind::Uint8 => Cell::U8(u8::MIN),
        IntKind::Uint16 => Cell::U16(u16::MIN),
        IntKind::Uint32 => Cell::U32(u32::MIN),
        IntKind::Uint64 => Cell::U64(u64::MIN),
    }
}

/// `intmax` and `intmin` of a class.
fn end_of_class(greatest_one: bool, kind: IntKind) -> Cell<'static>
    ensures { seen result ≡ (if greatest_one then whole kind (greatest kind) else whole kind (least kind)) }
{
    if greatest_one {
        greatest(kind)
    } else {
        least(kind)
    }
}

fn limit_of(greatest_one: bool, c: &MemoryRef<'_>) -> Option<Cell<'static>>
    ensures { option_map (λ c. definition.constant (seen c)) result ≡ limit greatest_one (ref_seen c.now) }
{
    match integer_class(c) {
        Some(kind) => Some(end_of_class(greatest_one, kind)),
        None => None,
    }
}

/// `intmax(c)` and `intmin(c)`.
fn limits(greatest_one: bool, args: &[MemoryRef<'_>]) -> Option<Cell<'static>>
    ensures { option_map (λ c. definition.constant (seen c)) result ≡ option_and_then (limit greatest_one) (only (map ref_seen args.now)) }
{
    match only(args) {
        Some(c) => limit_of(greatest_one, c),
        None => None,
    }
}

fn limit_application<'b, 'a>(
    greatest_one: bool,
    args: &'b [MemoryRef<'a>],
) -> Option<Application<'b, 'a>>
    ensures { option_map application_seen result ≡ option_and_then (limit greatest_one) (only (map ref_seen args.now)) }
{
    match limits(greatest_one, args) {
        Some(c) => Some(Application::Constant(c)),
        None => None,
    }
}

fn quotient<'b, 'a>(
    a: &'b MemoryRef<'a>,
    b: &'b MemoryRef<'a>,
    how: &MemoryRef<'_>,
) -> Option<Application<'b, 'a>>
    ensures { option_map application_seen result ≡ option_map (λ r. to_two (Idivide r) (ref_seen a.now) (ref_seen b.now)) (definition.choice_of roundings (scalar_in (ref_seen how.now))) }
{
    match rounding(how) {
        Some(how) => Some(Application::ToTwo(Binary::Idivide(how), a, b)),
        None => None,
    }
}

/// `idivide(a, b)` and `idivide(a, b, how)`.
fn quotients<'b, 'a>(args: &'b [MemoryRef<'a>]) -> Option<Application<'b, 'a>>
    ensures { option_map application_seen result ≡ application scalar_in function.Idivide (map ref_seen args.now) }
{
    match three(args) {
        Some((a, b, how)) => quotient(a, b, how),
        None => on_two(Binary::Idivide(Rounding::Fix), args),
    }
}

/// A reduction by its options: each once, in either order.
fn sum_with(first: Option<SumOption>, second: Option<SumOption>) -> Option<Reduction>
    ensures { result ≡ sum_with_two first second }
{
    match (first, second) {
        (Some(SumOption::Native), Some(SumOption::OmitNan)) => Some(Reduction::Sum {
            native: true,
            omitnan: true,
        }),
        (Some(SumOption::OmitNan), Some(SumOption::Native)) => Some(Reduction::Sum {
            native: true,
            omitnan: true,
        }),
        _ => None,
    }
}

fn sum_by<'b, 'a>(v: &'b MemoryRef<'a>, option: &MemoryRef<'_>) -> Option<Application<'b, 'a>>
    ensures { option_map application_seen result ≡ sum_of scalar_in (ref_seen v.now) (ref_seen option.now ∷ []) }
{
    match sum_option(option) {
        Some(SumOption::Native) => Some(Application::ToOne(
            Operation::Reduce(Reduction::Sum {
                native: true,
                omitnan: false,
            }),
            v,
        )),
        Some(SumOption::OmitNan) => Some(Application::ToOne(
            Operation::Reduce(Reduction::Sum {
                native: false,
                omitnan: true,
            }),
            v,
        )),
        None => None,
    }
}

fn sum_by_both<'b, 'a>(
    v: &'b MemoryRef<'a>,
    first: &MemoryRef<'_>,
    second: &MemoryRef<'_>,
) -> Option<Application<'b, 'a>>
    ensures { option_map application_seen result ≡ sum_of scalar_in (ref_seen v.now) (ref_seen first.now ∷ ref_seen second.now ∷ []) }
{
    match sum_with(sum_option(first), sum_option(second)) {
        Some(r) => Some(Application::ToOne(Operation::Reduce(r), v)),
        None => None,
    }
}

/// `sum(x)` with its options.
fn sums<'b, 'a>(args: &'b [MemoryRef<'a>]) -> Option<Application<'b, 'a>>
    ensures { option_map application_seen result ≡ application scalar_in function.Sum (map ref_seen args.now) }
{
    match three(args) {
        Some((v, first, second)) => sum_by_both(v, first, second),
        None => match both(args) {
            Some((v, option)) => sum_by(v, option),
            None => on_one(
                Operation::Reduce(Reduction::Sum {
                    native: false,
                    omitnan: false,
                }),
                args,
            ),
        },
    }
}

/// `groupsummary(T, g)`.
fn groups_of<'b, 'a>(t: &'b MemoryRef<'a>, key: &MemoryRef<'a>) -> Option<Application<'b, 'a>>
    ensures { option_map application_seen result ≡ groups_of scalar_in (ref_seen t.now) (text_of (scalar_in (ref_seen key.now))) }
{
    match text_of(key) {
        Some(key) => Some(Application::ToOne(
            Operation::Groups {
                key,
                method: Method::Count,
                value: "",
            },
            t,
        )),
        None => None,
    }
}

/// `groupsummary(T, g, m, v)`.
fn groups_by<'b, 'a>(
    t: &'b MemoryRef<'a>,
    key: &MemoryRef<'a>,
    how: &MemoryRef<'_>,
    value: &MemoryRef<'a>,
) -> Option<Application<'b, 'a>>
    ensures { option_map application_seen result ≡ groups_by scalar_in (ref_seen t.now) (text_of (scalar_in (ref_seen key.now))) (definition.choice_of methods (scalar_in (ref_seen how.now))) (text_of (scalar_in (ref_seen value.now))) }
{
    match (text_of(key), method(how), text_of(value)) {
        (Some(key), Some(method), Some(value)) => Some(Application::ToOne(
            Operation::Groups { key, method, value },
            t,
        )),
        _ => None,
    }
}

/// `groupsummary` with a method or without.
fn groups<'b, 'a>(args: &'b [MemoryRef<'a>]) -> Option<Application<'b, 'a>>
    ensures { option_map application_seen result ≡ application scalar_in function.GroupSummary (map ref_seen args.now) }
{
    match four(args) {
        Some((t, key, how, value)) => groups_by(t, key, how, value),
        None => match both(args) {
            Some((t, key)) => groups_of(t, key),
            None => None,
        },
    }
}

#[tactic(auto, using(crate::proofs::FormLemmas::reduction_form, crate::proofs::FormLemmas::height_form, crate::proofs::FormLemmas::scan_form, crate::proofs::FormLemmas::unique_form, crate::proofs::FormLemmas::unary_form, crate::proofs::FormLemmas::binary_form, crate::proofs::FormLemmas::greatest_form, crate::proofs::FormLemmas::least_form))]
/// The operation of a call on its operands; none where the number or the form of the arguments is another.
pub fn application_of<'b, 'a>(
    f: ValueFunction,
    args: &'b [MemoryRef<'a>],
) -> Option<Application<'b, 'a>>
    ensures { option_map application_seen result ≡ application scalar_in f (map ref_seen args.now) }
{
    match f {
        ValueFunction::Sum => sums(args),
        ValueFunction::Reduction(r) => on_one(Operation::Reduce(r), args),
        ValueFunction::Height => on_one(Operation::Height, args),
        ValueFunction::Scan(s) => on_one(Operation::Scan(s), args),
        ValueFunction::Head => ends(false, args),
        ValueFunction::Tail => ends(true, args),
        ValueFunction::Unique => on_one(Operation::Distinct, args),
        ValueFunction::GroupSummary => groups(args),
        ValueFunction::IntMax => limit_application(true, args),
        ValueFunction::IntMin => limit_application(false, args),
        ValueFunction::Idivide => quotients(args),
        ValueFunction::Binary(op) => on_two(op, args),
        ValueFunction::Unary(op) => on_one(Operation::Unary(op), args),
    }
}
