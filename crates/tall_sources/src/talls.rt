//! The tall table of a datastore (docs/LANGUAGE.md, functions).
ghost use Rattle.std.specs.Prelude.{◌≡◌, IfErr, IfOk, List, Some, ℕ, length, slice_get};
ghost use Rattle.std.specs.List.{All};
ghost use Rattle.tall_outside.specs.Shelf.{Files};
ghost use Rattle.tall_semantics.specs.Additions.{MayAdd};
ghost use Rattle.tall_semantics.specs.Deferred.{IsMeaning};
ghost use Rattle.tall_semantics.specs.Talls.{Columns, Tall};
ghost use Rattle.tall_stored.specs.StoredColumns.{AreStored, Store};
ghost use Rattle.tall_script.specs.TallTables.{tall_of_store};
ghost use Rattle.tall_script.specs.VertexLaws.{MayStandBeside, variable_of};
ghost use Rattle.tall_deferred.specs.Answers.{Comes, IsPushed};
ghost use Rattle.tall_deferred.specs.Values.{IsValue, at_seen, value_at};
ghost use Rattle.tall_sources.specs.Talls.{AddsVariables, IsMemory};

use std::alloc::Global;
use tall_deferred::{At, ScriptValue, ValueFault, add_variable};
use tall_graph::{Graph, NodeId, NodeOp};
use tall_store::Datastore;
use tall_value::Class;

/// The number of the datastore at a place. No memory holds as many datastores as there are numbers.
fn number_of(place: usize) -> Result<u32, ValueFault>
    ensures number { IfOk result (λ n. n ≡ place) }
    ensures memory { IfErr result IsMemory }
{
    match u32::try_from(place) {
        Ok(number) => Ok(number),
        Err(_) => Err(ValueFault::Memory),
    }
}

/// A variable of a datastore as a node more. The graph refuses none but for want of memory.
fn stored(
    graph: &mut Graph,
    at: At,
    store: u32,
    variable: u32,
    class: Class,
) -> Result<NodeId, ValueFault>
    requires { MayAdd graph.old (variable_of (at_seen at) store (variable, class)) }
    ensures pushed { IsPushed graph.old (variable_of (at_seen at) store (variable, class)) result graph.new }
    ensures memory { IfErr result IsMemory }
{
    let op = NodeOp::Stored {
        store,
        variable: variable as u64,
        class,
    };
    match graph.add_node(at.number, at.line, op, &[]) {
        Ok(node) => Ok(node),
        Err(_) => Err(ValueFault::Memory),
    }
}

/// `tall(ds)` of the datastore at a place, with the number and the line of the call that made it: a table of the selected
/// variables, in the order of the selection, each a stored column as a node more.
///
/// # Errors
/// `Memory` alone, for want of memory.
pub fn tall_of(
    alloc: Global,
    graph: &mut Graph,
    place: usize,
    at: At,
    store: &Datastore,
) -> Result<ScriptValue, ValueFault>
    requires { All (MayStandBeside (at_seen at) place) graph.old }
    ensures extends { AddsVariables (at_seen at) place store.now graph.old graph.new }
    ensures within { IfOk result (IsValue (length graph.new)) }
    ensures given { (files : Files) (stores : List Store) (columns : Columns) (f : ℕ → Tall) → slice_get stores place ≡ Some (record { at = at_seen at; store = store.now })
        → AreStored files stores graph.new columns → IsMeaning columns graph.new f → Comes (value_at f) (tall_of_store files place (slice_get stores place)) result }
{
    let number = number_of(place)?;
    let mut variables = Vec::new(alloc);
    for k in 0..store.selected_count() {
        let class = store.class_at(k);
        let node = stored(graph, at, number, k, class)?;
        add_variable(alloc, &mut variables, store.selected_name(k), node)?;
    }
    Ok(ScriptValue::Table(variables))
}
