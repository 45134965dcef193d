//! `mapreduce` in a script (docs/LANGUAGE.md, mapreduce).
ghost use Rattle.std.specs.Prelude.{◌≡◌, ◌<◌, ◌≤◌, ℕ, Err, IfErr, Result, Some, length, map, option_map, slice_get};
ghost use Rattle.tall_outside.specs.Shelf.{Files};
ghost use Rattle.tall_outside.specs.ShelfCounts.{shelf_counts};
ghost use Rattle.tall_grammar.specs.Views.{routine_of};
ghost use Rattle.tall_semantics.specs.Talls.{Tall};
ghost use Rattle.tall_evaluate.specs.Senses.{ArgumentsFit, argument_seen};
ghost use Rattle.tall_local.specs.Arguments.{given};
ghost use Rattle.tall_local.specs.Memory.{Memory};
ghost use Rattle.tall_local.specs.Refusals.{Stop, bad_argument, stop_at};
ghost use Rattle.tall_fun.specs.Faults.{refusal_at};
ghost use Rattle.tall_mapred.specs.Answers.{IsExplained, IsLonger, IsPlaced, NamesOne, OpensFiles, Tells};
ghost use Rattle.tall_script.specs.MapReduce.{map_reduced};
ghost use Rattle.tall_script.specs.ScriptLanguage.{function_in, mapreduce_with, reduce_store, reduced_arguments};
ghost use Rattle.tall_script.specs.States.{Store};
ghost use Rattle.tall_deferred.specs.Values.{IsValue, at_seen, value_at};
ghost use Rattle.tall_environment.specs.Environments.{IsNext};
ghost use Rattle.tall_environment.specs.Expressions.{Evaluates, setting_in};
ghost use Rattle.tall_environment.specs.Failures.{Blames, IsInside, IsWithin, refusal_seen, stop_of};
ghost use Rattle.tall_environment.specs.Values.{arguments_at};
ghost use Rattle.tall_script_calls.specs.Reductions.{Accepts, IsRead, IsTooLarge, Reduces, StopsWith, both_names, last_name, reduced_by};

use crate::faults::reading_failure;
use std::alloc::Global;
use std::thread::Threads;
use tall_deferred::{At, ScriptValue};
use tall_environment::{Environment, Failure, Refusal};
use tall_evaluate::Argument;
use tall_fun::FunKind;
use tall_grammar::Function;
use tall_mapred::{MapFault, mapreduce};
use tall_memory::MemoryValue;
use tall_outside::{Gate, Shelf};
use tall_store::Datastore;
use tall_value::{FaultKind, Name, Text};

// ---- arguments

/// The names of the map and the reduce function.
#[derive(Clone, Copy)]
struct Names<'a> {
    map: &'a Name,
    reduce: &'a Name,
}

/// What a call is given: a datastore by its place, and the names of the map and the reduce function.
#[derive(Clone, Copy)]
pub(crate) struct Reduced<'a> {
    place: usize,
    map: &'a Name,
    reduce: &'a Name,
}

/// The name of a function, where this is the only argument.
fn last_name<'a>(args: &[Argument<'a, ScriptValue>]) -> Option<&'a Name>
    ensures { (f : ℕ → Tall) → option_map (λ n. n.now) result ≡ last_name (arguments_at f args.now) }
{
    match args {
        [] => None,
        [first, rest @ ..] => match first {
            Argument::Function(name) => match rest {
                [] => Some(*name),
                [_, ..] => None,
            },
            Argument::Given(_) => None,
            Argument::Colon => None,
        },
    }
}

/// The names of two functions, where these are all arguments.
fn both_names<'a>(args: &[Argument<'a, ScriptValue>]) -> Option<Names<'a>>
    ensures { (f : ℕ → Tall) → option_map (λ n. (n.map.now, n.reduce.now)) result ≡ both_names (arguments_at f args.now) }
{
    match args {
        [] => None,
        [first, rest @ ..] => match first {
            Argument::Function(map) => match last_name(rest) {
                Some(reduce) => Some(Names { map: *map, reduce }),
                None => None,
            },
            Argument::Given(_) => None,
            Argument::Colon => None,
        },
    }
}

/// A value before the names of two functions.
fn reduced_value<'a>(
    value: &ScriptValue,
    map: &'a Name,
    reduce: &'a Name,
) -> Result<Reduced<'a>, Refusal>
    ensures accepts { (f : ℕ → Tall) → Accepts (reduced_by (given (value_at f value.now)) (Some (map.now, reduce.now))) result }
    ensures within { IfErr result IsWithin }
{
    match value {
        ScriptValue::Datastore(place) => Ok(Reduced {
            place: *place,
            map,
            reduce,
        }),
        ScriptValue::Table(_) => Err(Refusal::BadClass),
        ScriptValue::Tall(_) => Err(Refusal::BadClass),
        ScriptValue::Memory(_) => Err(Refusal::BadClass),
    }
}

/// An argument before the names of two functions.
fn reduced_by<'a>(
    first: &Argument<'_, ScriptValue>,
    map: &'a Name,
    reduce: &'a Name,
) -> Result<Reduced<'a>, Refusal>
    ensures accepts { (f : ℕ → Tall) → Accepts (reduced_by (argument_seen (value_at f) first.now) (Some (map.now, reduce.now))) result }
    ensures within { IfErr result IsWithin }
{
    match first {
        Argument::Given(value) => reduced_value(value, map, reduce),
        Argument::Colon => Err(Refusal::BadArgument),
        Argument::Function(_) => Err(Refusal::BadArgument),
    }
}

/// The arguments of a call.
fn accepted<'a>(args: &[Argument<'a, ScriptValue>]) -> Result<Reduced<'a>, Refusal>
    ensures accepts { (f : ℕ → Tall) → Accepts (reduced_arguments (arguments_at f args.now)) result }
    ensures within { IfErr result IsWithin }
{
    match args {
        [] => Err(Refusal::BadArgument),
        [first, rest @ ..] => match both_names(rest) {
            Some(names) => reduced_by(first, names.map, names.reduce),
            None => Err(Refusal::BadArgument),
        },
    }
}

/// The function of a name that the script has.
fn function_of<'f>(functions: &'f [Function], name: &str) -> Option<&'f Function>
    ensures { option_map (λ f. routine_of f.now) result ≡ function_in (map routine_of functions.now) name.now }
{
    for function in functions {
        if function.name.as_str() == name {
            return Some(function);
        }
    }
    None
}

// ---- faults

/// What is wrong in a function, as a refusal; a row is of data alone.
fn refusal_of(row: Option<u64>, kind: FunKind) -> Refusal
    ensures seen { refusal_seen result ≡ refusal_at row kind }
    ensures within { IsWithin result }
{
    match kind {
        FunKind::Undefined(name) => Refusal::Undefined(name),
        FunKind::MixedClass => Refusal::MixedClass,
        FunKind::BadClass => Refusal::BadClass,
        FunKind::BadSize => Refusal::BadSize,
        FunKind::BadArgument => Refusal::BadArgument,
        FunKind::BadIndex => Refusal::BadIndex,
        FunKind::Inexact => Refusal::Data {
            row,
            kind: FaultKind::Inexact,
        },
        FunKind::NotWhole => Refusal::Data {
            row,
            kind: FaultKind::NotWhole,
        },
        FunKind::NanLogical => Refusal::Data {
            row,
            kind: FaultKind::NanLogical,
        },
        FunKind::NoRows => Refusal::Data {
            row,
            kind: FaultKind::NoRows,
        },
        FunKind::EndOfValues => Refusal::NoValueLeft,
        FunKind::NoProgress => Refusal::NoProgress,
        FunKind::TooManyTurns => Refusal::TooManyTurns,
        FunKind::KeyClass => Refusal::BadKey,
        FunKind::ValueClass => Refusal::BadValue,
        FunKind::TooManyRows => Refusal::TooManyRows,
    }
}

/// The shelf failed at a file.
fn not_read(alloc: Global, name: &str) -> Failure
    ensures { IsRead name.now result }
{
    match Text::of(alloc, name) {
        Ok(file) => Failure::Read { file },
        Err(_) => Failure::Memory,
    }
}

/// More bytes came of a file than may.
fn too_large(alloc: Global, name: &str) -> Failure
    ensures { IsTooLarge name.now result }
{
    match Text::of(alloc, name) {
        Ok(file) => Failure::TooLarge { file },
        Err(_) => Failure::Memory,
    }
}

/// Arguments that are not accepted.
fn bad_argument(line: u32) -> Failure
    ensures names { stop_of result ≡ Some (stop_at line bad_argument) }
    ensures inside { IsInside result }
{
    Failure::Refused {
        line,
        refusal: Refusal::BadArgument,
    }
}

/// Why there is no table, as a failure of the script; that of reading is on the line of the datastore's call.
fn map_failure<S: Shelf>(alloc: Global, store: &Datastore, line: u32, fault: MapFault) -> Failure
    requires placed { IsPlaced store.now (Err fault) }
    requires named { NamesOne (Err fault) (length store.now.files) }
    ensures stops { (d : Store) (want : Result Memory Stop) → d.store ≡ store.now → d.at.line ≡ line → Tells d want (Err fault) → StopsWith want result }
    ensures blames { (before now : S) → IsExplained (Err fault) (shelf_counts S.Shelf before) (shelf_counts S.Shelf now) → OpensFiles store.now.files (Err fault) (S.opened before) (S.opened now) → ((files : Files) → S.held before ≡ Some files → IsLonger store.now files (Err fault)) → Blames S.Shelf result before now }
{
    match fault {
        MapFault::At { line, row, kind } => Failure::Refused {
            line,
            refusal: refusal_of(row, kind),
        },
        MapFault::Reading(fault) => reading_failure(alloc, store, line, fault),
        MapFault::Read { file } => not_read(alloc, store.file_name(file)),
        MapFault::TooLarge { file } => too_large(alloc, store.file_name(file)),
        MapFault::Memory => Failure::Memory,
    }
}

// ---- the call

/// The table of a datastore whose call stands on a line.
fn reduced_table<R: Threads + Sync, S: Shelf + Send, G: Gate + Sync>(
    rt: &R,
    alloc: Global,
    gate: &G,
    shelf: &mut S,
    store: &Datastore,
    line: u32,
    map: &Function,
    reduce: &Function,
    workers: u32,
) -> Result<ScriptValue, Failure>
    requires some { 0 < workers }
    requires few { workers ≤ 64 }
    ensures { (d : Store) → d.store ≡ store.now → d.at.line ≡ line → Reduces S.Shelf d (λ files. map_reduced files d (routine_of map.now) (routine_of reduce.now)) shelf.old shelf.new result }
{
    match mapreduce(rt, alloc, gate, shelf, store, map, reduce, workers) {
        Ok(table) => match ScriptValue::in_memory(alloc, MemoryValue::table(table)) {
            Ok(value) => Ok(value),
            Err(_) => Err(Failure::Memory),
        },
        Err(fault) => Err(map_failure::<S>(alloc, store, line, fault)),
    }
}

/// `mapreduce` of a datastore that is there, with two functions that are.
fn reduce_with<R: Threads + Sync, S: Shelf + Send, G: Gate + Sync>(
    rt: &R,
    alloc: Global,
    gate: &G,
    shelf: &mut S,
    environment: &mut Environment,
    workers: u32,
    at: At,
    place: usize,
    map: &Function,
    reduce: &Function,
) -> Result<ScriptValue, Failure>
    requires some { 0 < workers }
    requires few { workers ≤ 64 }
    requires next { IsNext at.number environment.old }
    requires place { place < length environment.old.stores }
    ensures { Evaluates S.Shelf at.number (λ files f s. reduce_store files (at_seen at) (slice_get s.stores place) (Some (routine_of map.now)) (Some (routine_of reduce.now)) s) environment.old environment.new shelf.old shelf.new result }
{
    let line = environment.call(place).line;
    let store = &environment.stores()[place];
    let answer = reduced_table(rt, alloc, gate, shelf, store, line, map, reduce, workers);
    environment.allow(&place);
    answer
}

/// `mapreduce` by the names of functions.
fn reduce_named<R: Threads + Sync, S: Shelf + Send, G: Gate + Sync>(
    rt: &R,
    alloc: Global,
    gate: &G,
    shelf: &mut S,
    environment: &mut Environment,
    functions: &[Function],
    workers: u32,
    at: At,
    place: usize,
    map_name: &Name,
    reduce_name: &Name,
) -> Result<ScriptValue, Failure>
    requires some { 0 < workers }
    requires few { workers ≤ 64 }
    requires next { IsNext at.number environment.old }
    ensures { Evaluates S.Shelf at.number (λ files f s. reduce_store files (at_seen at) (slice_get s.stores place) (function_in (map routine_of functions.now) map_name.now) (function_in (map routine_of functions.now) reduce_name.now) s) environment.old environment.new shelf.old shelf.new result }
{
    if place >= environment.store_count() {
        return Err(bad_argument(at.line));
    }
    match function_of(functions, map_name.as_str()) {
        Some(map) => match function_of(functions, reduce_name.as_str()) {
            Some(reduce) => reduce_with(
                rt,
                alloc,
                gate,
                shelf,
                environment,
                workers,
                at,
                place,
                map,
                reduce,
            ),
            None => Err(bad_argument(at.line)),
        },
        None => Err(bad_argument(at.line)),
    }
}

/// `mapreduce(ds, @m, @r)`: the table of the keys and values that the reduce function adds. Each file is opened at most once.
///
/// # Errors
/// A stop of the definitions; `Read` and `TooLarge` of a file, by the counts of the shelf; `Memory`.
pub fn map_reduce<R: Threads + Sync, S: Shelf + Send, G: Gate + Sync>(
    rt: &R,
    alloc: Global,
    gate: &G,
    shelf: &mut S,
    environment: &mut Environment,
    functions: &[Function],
    workers: u32,
    at: At,
    args: &[Argument<'_, ScriptValue>],
) -> Result<ScriptValue, Failure>
    requires some { 0 < workers }
    requires few { workers ≤ 64 }
    requires next { IsNext at.number environment.old }
    requires arguments { ArgumentsFit (IsValue (length environment.old.graph)) args.now }
    ensures { Evaluates S.Shelf at.number (λ files f s. mapreduce_with (setting_in files functions.now) (at_seen at) (reduced_arguments (arguments_at f args.now)) s) environment.old environment.new shelf.old shelf.new result }
{
    match accepted(args) {
        Ok(reduced) => reduce_named(
            rt,
            alloc,
            gate,
            shelf,
            environment,
            functions,
            workers,
            at,
            reduced.place,
            reduced.map,
            reduced.reduce,
        ),
        Err(refusal) => Err(Failure::Refused {
            line: at.line,
            refusal,
        }),
    }
}
