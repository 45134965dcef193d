//! Gathers of a script (docs/LANGUAGE.md, functions).
ghost use Rattle.std.specs.Prelude.{◌≡◌, ◌<◌, ◌≤◌, ◌++◌, ◌∷◌, [], ℕ, Err, IfErr, IfNone, IfOk, IfSome, List, None, OnOk, Some, length, map, option_map, true};
ghost use Rattle.std.specs.List.{All, flat_map, list_all};
ghost use Rattle.std.specs.Result.{result_map_both};
ghost use Rattle.std.specs.Vec.Iter.{into_iter_items};
ghost use Rattle.tall_outside.specs.Shelf.{Files};
ghost use Rattle.tall_column.specs.Columns.{SeenColumn};
ghost use Rattle.tall_column.specs.Tables.{FitsHeight, column_named};
ghost use Rattle.tall_semantics.specs.Deferred.{AllBelow, least_in};
ghost use Rattle.tall_semantics.specs.Talls.{Columns, Tall};
ghost use Rattle.tall_local.specs.Memory.{Memory};
ghost use Rattle.tall_local.specs.Refusals.{Stop};
ghost use Rattle.tall_memory.specs.Values.{value_seen};
ghost use Rattle.tall_local.specs.Expressions.{gives, go_on};
ghost use Rattle.tall_local.specs.Values.{in_memory};
ghost use Rattle.tall_script.specs.Gathers.{gather_all, gather_call, gather_value};
ghost use Rattle.tall_script.specs.ReadingFaults.{stop_of_fault};
ghost use Rattle.tall_evaluate.specs.Senses.{ArgumentsFit};
ghost use Rattle.tall_deferred.specs.Values.{IsValue, at_seen, shared_seen, value_at};
ghost use Rattle.tall_sources.specs.Sources.{store_in};
ghost use Rattle.tall_gather.specs.Gathered.{AreRootColumns, TellsGather};
ghost use Rattle.tall_gather.specs.Going.{IsCaused};
ghost use Rattle.tall_environment.specs.Environments.{IsNext};
ghost use Rattle.tall_environment.specs.Expressions.{Evaluates, IsSense, Tells, memories_at, values_at};
ghost use Rattle.tall_environment.specs.Failures.{Blames, stop_of};
ghost use Rattle.tall_environment.specs.Moves.{Moves};
ghost use Rattle.tall_environment.specs.Values.{arguments_at};
ghost use Rattle.tall_script_calls.specs.GatherFailures.{HasFile, HasReading, IsFailureOf, IsNameOf, IsNamed, MayBeTold};
ghost use Rattle.tall_script_calls.specs.ReadingFailures.{IsOfReading};
ghost use Rattle.tall_script_calls.specs.GatheredValues.{is_no_list, may_gather, memories_by, memory_by, node_in, nodes_in, only_given, openings_by, root_memory, single_in, variable_by};

use crate::faults::reading_failure;
use std::alloc::{AllocError, Global};
use std::rc::Rc;
use std::thread::Threads;
use std::vec::IntoIter;
use tall_column::{Column, Table};
use tall_deferred::{At, ScriptValue, Variable};
use tall_environment::{Environment, Failure, Refusal};
use tall_evaluate::Argument;
use tall_gather::{GatherFault, gather};
use tall_graph::{Graph, NodeId};
use tall_memory::MemoryValue;
use tall_outside::{Gate, Shelf};
use tall_store::{Datastore, ReadingFault};
use tall_value::Text;

fn is_no_list(value: &MemoryValue) -> bool
    ensures { result ≡ is_no_list value.now }
{
    match value {
        MemoryValue::Value(_) => true,
        MemoryValue::Texts(_) => false,
    }
}

fn may_gather(value: &ScriptValue) -> bool
    ensures { result ≡ may_gather value.now }
{
    match value {
        ScriptValue::Datastore(_) => false,
        ScriptValue::Table(_) => true,
        ScriptValue::Tall(_) => true,
        ScriptValue::Memory(value) => is_no_list(&**value),
    }
}

/// Whether the classes of all are accepted.
fn may_gather_all(values: &[ScriptValue]) -> bool
    ensures { result ≡ list_all may_gather values.now }
{
    values.iter().all(|v| may_gather(v))
}

/// Adds the nodes of variables.
fn add_variables(nodes: &mut Vec<NodeId>, variables: &[Variable]) -> Result<(), AllocError>
    ensures { OnOk result (nodes.new.items ≡ nodes.old.items ++ map node_in variables.now) }
{
    for variable in variables {
        nodes.push(variable.node)?;
    }
    Ok(())
}

/// Adds the nodes of a value.
fn add_nodes(nodes: &mut Vec<NodeId>, value: &ScriptValue) -> Result<(), AllocError>
    ensures { OnOk result (nodes.new.items ≡ nodes.old.items ++ nodes_in value.now) }
{
    match value {
        ScriptValue::Datastore(_) => Ok(()),
        ScriptValue::Table(variables) => add_variables(nodes, variables.as_slice()),
        ScriptValue::Tall(node) => Ok(nodes.push(*node)?),
        ScriptValue::Memory(_) => Ok(()),
    }
}

/// The tall nodes of all values, in order.
fn roots_of(alloc: Global, values: &[ScriptValue]) -> Result<Vec<NodeId>, AllocError>
    ensures { IfOk result (λ v. v.items ≡ flat_map nodes_in values.now) }
{
    let mut nodes = Vec::new(alloc);
    for value in values {
        add_nodes(&mut nodes, value)?;
    }
    Ok(nodes)
}

/// The next column, where there is one.
fn next_column(columns: &mut IntoIter<Column>) -> Option<Column>
    ensures some { IfSome result (λ x. into_iter_items columns.old ≡ x ∷ into_iter_items columns.new) }
    ensures none { IfNone result (into_iter_items columns.old ≡ []) }
{
    columns.next()
}

/// The next value, where there is one.
fn next_value(values: &mut IntoIter<ScriptValue>) -> Option<ScriptValue>
    ensures some { IfSome result (λ x. into_iter_items values.old ≡ x ∷ into_iter_items values.new) }
    ensures none { IfNone result (into_iter_items values.old ≡ []) }
{
    values.next()
}

/// Whether the table takes the column under the name.
fn fits(table: &Table, name: &str, column: &Column) -> bool
    ensures new_name { result ≡ true → column_named name.now table.now ≡ None }
    ensures same_height { result ≡ true → FitsHeight (length column.now.cells) table.now }
{
    table.column(name).is_none() && (table.width() == 0 || table.height() == column.len())
}

/// Adds a column at the end.
fn added(table: &mut Table, name: &str, column: Column) -> bool
    ensures { result ≡ true → table.new ≡ table.old ++ (name.now, column) ∷ [] }
{
    fits(table, name, &column) && table.add(name, column).is_ok()
}

/// A table of the next columns. Want of memory alone refuses it, since the variables of a table have one space.
fn table_of(
    alloc: Global,
    variables: &[Variable],
    columns: &mut IntoIter<Column>,
) -> Result<Table, AllocError>
    ensures { (g : ℕ → SeenColumn) (rest : List SeenColumn) → into_iter_items columns.old ≡ map g (map node_in variables.now) ++ rest → IfOk result (λ t. (t ≡ map (variable_by g) variables.now) × (into_iter_items columns.new ≡ rest)) }
{
    let mut table = Table::new(alloc);
    for variable in variables {
        let Some(column) = next_column(columns) else {
            return Err(AllocError);
        };
        if !added(&mut table, variable.name.as_str(), column) {
            return Err(AllocError);
        }
    }
    Ok(table)
}

/// The first cell of a column that has one.
fn scalar_of(alloc: Global, column: &Column) -> Result<MemoryValue, AllocError>
    ensures { IfOk result (λ m. value_seen m ≡ root_memory true column.now) }
{
    if column.len() == 0 {
        return Err(AllocError);
    }
    match MemoryValue::scalar(alloc, &column.get(0)) {
        Ok(value) => Ok(value),
        Err(_) => Err(AllocError),
    }
}

/// The value of a root that has the column.
fn root_value(alloc: Global, is_scalar: bool, column: Column) -> Result<MemoryValue, AllocError>
    ensures { IfOk result (λ m. value_seen m ≡ root_memory is_scalar column) }
{
    if is_scalar {
        scalar_of(alloc, &column)
    } else {
        Ok(MemoryValue::column(column))
    }
}

/// A value in memory that may be shared.
fn shared(alloc: Global, value: MemoryValue) -> Result<Rc<MemoryValue>, AllocError>
    ensures { IfOk result (λ m. shared_seen m ≡ value_seen value) }
{
    match Rc::new(alloc, value) {
        Ok(value) => Ok(value),
        Err(_) => Err(AllocError),
    }
}

/// The value of a node, of the next column.
fn node_value(
    alloc: Global,
    is_scalar: bool,
    columns: &mut IntoIter<Column>,
) -> Result<MemoryValue, AllocError>
    ensures { (x : SeenColumn) (rest : List SeenColumn) → into_iter_items columns.old ≡ x ∷ rest → IfOk result (λ m. (value_seen m ≡ root_memory is_scalar x) × (into_iter_items columns.new ≡ rest)) }
{
    match next_column(columns) {
        Some(column) => root_value(alloc, is_scalar, column),
        None => Err(AllocError),
    }
}

/// A value that may be gathered, of the next columns; one in memory is its own.
fn value_of(
    alloc: Global,
    graph: &Graph,
    value: ScriptValue,
    columns: &mut IntoIter<Column>,
) -> Result<Rc<MemoryValue>, AllocError>
    requires { IsValue (length graph.now) value }
    ensures { (g : ℕ → SeenColumn) (rest : List SeenColumn) → into_iter_items columns.old ≡ map g (nodes_in value) ++ rest → IfOk result (λ m. (shared_seen m ≡ memory_by (single_in graph.now) g value) × (into_iter_items columns.new ≡ rest)) }
{
    match value {
        ScriptValue::Datastore(_) => Err(AllocError),
        ScriptValue::Table(variables) => {
            let table = table_of(alloc, variables.as_slice(), columns)?;
            shared(alloc, MemoryValue::table(table))
        }
        ScriptValue::Tall(node) => {
            let value = node_value(alloc, graph.is_scalar(node), columns)?;
            shared(alloc, value)
        }
        ScriptValue::Memory(value) => Ok(value),
    }
}

/// The values, with the columns in the places of their nodes.
fn values_of(
    alloc: Global,
    graph: &Graph,
    values: Vec<ScriptValue>,
    columns: Vec<Column>,
) -> Result<Vec<Rc<MemoryValue>>, AllocError>
    requires { All (IsValue (length graph.now)) values.items }
    ensures { (g : ℕ → SeenColumn) → columns.items ≡ map g (flat_map nodes_in values.items) → IfOk result (λ ms. map shared_seen ms.items ≡ memories_by (single_in graph.now) g values.items) }
{
    let mut found = Vec::with_capacity(alloc, values.len())?;
    let mut values = values.into_iter();
    let mut columns = columns.into_iter();
    while let Some(value) = next_value(&mut values) {
        let one = value_of(alloc, graph, value, &mut columns)?;
        found.push(one)?;
    }
    Ok(found)
}

/// The columns of the roots; what the definitions allow to be opened is allowed, whatever comes of it.
fn columns_of<R: Threads + Sync, S: Shelf + Send, G: Gate + Sync>(
    rt: &R,
    alloc: Global,
    gate: &G,
    shelf: &mut S,
    environment: &mut Environment,
    workers: u32,
    roots: &[NodeId],
) -> Result<Vec<Column>, GatherFault>
    requires some { 0 < workers }
    requires few { workers ≤ 64 }
    requires roots { AllBelow (length environment.old.graph) roots.now }
    ensures same { environment.new ≡ record environment.old { opened = environment.old.opened ++ openings_by environment.old roots.now } }
    ensures moves { Moves S.Shelf environment.old environment.new shelf.old shelf.new }
    ensures columns { IfOk result (λ v. AreRootColumns environment.old.graph roots.now v.items) }
    ensures caused { IfErr result (λ e. IsCaused S.Shelf (map store_in environment.old.stores) e shelf.old shelf.new) }
    ensures possible { IfErr result (λ e. (files : Files) → S.held shelf.old ≡ Some files → MayBeTold e) }
    ensures told { (files : Files) → S.held shelf.old ≡ Some files → (columns : Columns) (f : ℕ → Tall) → IsSense files environment.old columns f → TellsGather environment.old.stores f roots.now (result_map_both (λ v. v.items) (λ e. e) result) }
{
    environment.keeps_its_rules();
    environment.has_a_sense();
    let found = gather(
        rt,
        alloc,
        gate,
        shelf,
        environment.stores(),
        environment.graph(),
        roots,
        workers,
    );
    environment.allow(&roots);
    found
}

/// The name of a file.
fn file_name(alloc: Global, stores: &[Datastore], store: u32, file: u32) -> Result<Text, AllocError>
    requires { HasFile stores.now store file }
    ensures { IfOk result (λ name. IsNameOf stores.now store file name) }
{
    Text::of(alloc, stores[store as usize].file_name(file))
}

/// The failure of a reading fault, on the line of its datastore's call.
fn reading_failure_of(
    alloc: Global,
    environment: &Environment,
    store: u32,
    fault: ReadingFault,
) -> Failure
    requires { HasReading (map store_in environment.now.stores) store fault }
    ensures stops { (f : ℕ → Tall) (roots : List ℕ) (stop : Stop) → TellsGather environment.now.stores f roots (Err (GatherFault.Reading store fault)) → stop_of result ≡ Some stop → option_map (stop_of_fault environment.now.stores) (least_in f roots) ≡ Some stop }
    ensures kind { IsOfReading fault.kind result }
{
    let place = store as usize;
    let line = environment.call(place).line;
    reading_failure(alloc, &environment.stores()[place], line, fault)
}

/// The failure of a gather.
fn failure_of(alloc: Global, environment: &Environment, fault: GatherFault) -> Failure
    requires { IsNamed (map store_in environment.now.stores) fault }
    ensures stops { (f : ℕ → Tall) (roots : List ℕ) (stop : Stop) → TellsGather environment.now.stores f roots (Err fault) → stop_of result ≡ Some stop → option_map (stop_of_fault environment.now.stores) (least_in f roots) ≡ Some stop }
    ensures failed { IsFailureOf (map store_in environment.now.stores) fault result }
{
    match fault {
        GatherFault::Data(fault) => Failure::Refused {
            line: fault.line,
            refusal: Refusal::Data {
                row: fault.row,
                kind: fault.kind,
            },
        },
        GatherFault::Reading { store, fault } => {
            reading_failure_of(alloc, environment, store, fault)
        }
        GatherFault::Read { store, file } => {
            match file_name(alloc, environment.stores(), store, file) {
                Ok(file) => Failure::Read { file },
                Err(_) => Failure::Memory,
            }
        }
        GatherFault::TooLarge { store, file } => {
            match file_name(alloc, environment.stores(), store, file) {
                Ok(file) => Failure::TooLarge { file },
                Err(_) => Failure::Memory,
            }
        }
        GatherFault::Changed {
            store,
            file,
            first,
            now,
        } => {
            match file_name(alloc, environment.stores(), store, file) {
                Ok(file) => Failure::Changed { file, first, now },
                Err(_) => Failure::Memory,
            }
        }
        GatherFault::Memory => Failure::Memory,
    }
}

/// The values of a gather, in the order of its arguments: those in memory are their own. Classes are looked at first, and a gather
/// that is refused for one opens nothing. Names, datastores and the graph stay.
///
/// # Errors
/// A stop of the definitions on this line or with the line of the least fault; `Read`, `TooLarge` and `Changed` of a file, by the
/// counts of the shelf; `Memory`.
pub fn gather_all<R: Threads + Sync, S: Shelf + Send, G: Gate + Sync>(
    rt: &R,
    alloc: Global,
    gate: &G,
    shelf: &mut S,
    environment: &mut Environment,
    workers: u32,
    line: u32,
    values: Vec<ScriptValue>,
) -> Result<Vec<Rc<MemoryValue>>, Failure>
    requires some { 0 < workers }
    requires few { workers ≤ 64 }
    requires within { All (IsValue (length environment.old.graph)) values.items }
    ensures same { environment.new ≡ record environment.old { opened = environment.new.opened } }
    ensures moves { Moves S.Shelf environment.old environment.new shelf.old shelf.new }
    ensures tells { Tells S.Shelf shelf.old memories_at (λ files f s. gather_all line (values_at f values.items) s) environment.old environment.new result }
    ensures blames { IfErr result (λ e. Blames S.Shelf e shelf.old shelf.new) }
{
    if !may_gather_all(values.as_slice()) {
        return Err(Failure::Refused {
            line,
            refusal: Refusal::BadClass,
        });
    }
    let Ok(roots) = roots_of(alloc, values.as_slice()) else {
        return Err(Failure::Memory);
    };
    environment.graph().keeps_its_rules();
    match columns_of(
        rt,
        alloc,
        gate,
        shelf,
        environment,
        workers,
        roots.as_slice(),
    ) {
        Ok(columns) => match values_of(alloc, environment.graph(), values, columns) {
            Ok(found) => Ok(found),
            Err(_) => Err(Failure::Memory),
        },
        Err(fault) => Err(failure_of(alloc, environment, fault)),
    }
}

/// The only argument, where it is a value.
fn only_value(args: Vec<Argument<'_, ScriptValue>>) -> Option<ScriptValue>
    ensures given { (f : ℕ → Tall) → option_map (value_at f) result ≡ only_given (arguments_at f args.entry.items) }
    ensures within { (n : ℕ) → ArgumentsFit (IsValue n) args.entry.items → IfSome result (IsValue n) }
{
    let mut args = args.into_iter();
    match args.next() {
        Some(Argument::Given(value)) => if args.next().is_none() {
            Some(value)
        } else {
            None
        },
        _ => None,
    }
}

/// The only value, where there is one.
fn only(mut values: Vec<Rc<MemoryValue>>) -> Option<Rc<MemoryValue>>
    ensures { (m : Memory) → map shared_seen values.items ≡ m ∷ [] → IfSome result (λ v. shared_seen v ≡ m) }
{
    values.pop()
}

/// The value of one value.
fn value_gathered<R: Threads + Sync, S: Shelf + Send, G: Gate + Sync>(
    rt: &R,
    alloc: Global,
    gate: &G,
    shelf: &mut S,
    environment: &mut Environment,
    workers: u32,
    line: u32,
    value: ScriptValue,
) -> Result<ScriptValue, Failure>
    requires some { 0 < workers }
    requires few { workers ≤ 64 }
    requires within { IsValue (length environment.old.graph) value }
    ensures same { environment.new ≡ record environment.old { opened = environment.new.opened } }
    ensures moves { Moves S.Shelf environment.old environment.new shelf.old shelf.new }
    ensures within { IfOk result (IsValue (length environment.new.graph)) }
    ensures tells { Tells S.Shelf shelf.old value_at (λ files f s. go_on (gather_value line (value_at f value) s) (λ m t. gives (in_memory m) t)) environment.old environment.new result }
    ensures blames { IfErr result (λ e. Blames S.Shelf e shelf.old shelf.new) }
{
    let mut values = Vec::new(alloc);
    let Ok(()) = values.push(value) else {
        return Err(Failure::Memory);
    };
    match gather_all(rt, alloc, gate, shelf, environment, workers, line, values) {
        Ok(found) => match only(found) {
            Some(one) => Ok(ScriptValue::Memory(one)),
            None => Err(Failure::Memory),
        },
        Err(failure) => Err(failure),
    }
}

/// `gather(x)`: the value of one argument.
///
/// # Errors
/// As `gather_all`.
pub fn gather_one<R: Threads + Sync, S: Shelf + Send, G: Gate + Sync>(
    rt: &R,
    alloc: Global,
    gate: &G,
    shelf: &mut S,
    environment: &mut Environment,
    workers: u32,
    at: At,
    args: Vec<Argument<'_, ScriptValue>>,
) -> Result<ScriptValue, Failure>
    requires some { 0 < workers }
    requires few { workers ≤ 64 }
    requires next { IsNext at.number environment.old }
    requires arguments { ArgumentsFit (IsValue (length environment.old.graph)) args.items }
    ensures { Evaluates S.Shelf at.number (λ files f s. gather_call (at_seen at) (arguments_at f args.entry.items) s) environment.old environment.new shelf.old shelf.new result }
{
    let Some(value) = only_value(args) else {
        return Err(Failure::Refused {
            line: at.line,
            refusal: Refusal::BadArgument,
        });
    };
    value_gathered(rt, alloc, gate, shelf, environment, workers, at.line, value)
}
