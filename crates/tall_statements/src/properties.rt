//! Datastores with a property changed.
ghost use Rattle.std.specs.Prelude.{◌≡◌, ℕ, List, None, Ok, length};
ghost use Rattle.tall_outside.specs.Shelf.{Files};
ghost use Rattle.tall_semantics.specs.Talls.{Columns, Tall};
ghost use Rattle.tall_stored.specs.StoredColumns.{AreStored};
ghost use Rattle.tall_local.specs.Names.{named};
ghost use Rattle.tall_local.specs.Refusals.{and_then};
ghost use Rattle.tall_script.specs.ScriptLanguage.{read_name};
ghost use Rattle.tall_script.specs.States.{Store};
ghost use Rattle.tall_script.specs.Statements.{changed_store, datastore_named, put_store};
ghost use Rattle.tall_deferred.specs.Faults.{IsDue};
ghost use Rattle.tall_deferred.specs.Values.{value_at};
ghost use Rattle.tall_sources.specs.Changed.{AddsStore};
ghost use Rattle.tall_environment.specs.Environments.{names_at};
ghost use Rattle.tall_statements.specs.Answers.{Ends};
ghost use Rattle.tall_statements.specs.Endings.{IsPlaceOf};

use crate::endings::end_assigned;
use std::alloc::Global;
use tall_deferred::{ScriptValue, ValueFault};
use tall_environment::{Environment, Failure, refused};
use tall_memory::constant_named;
use tall_value::Name;

/// The place of the datastore that a value is.
fn place_of(value: &ScriptValue, count: usize) -> Result<usize, ValueFault>
    ensures { (f : ℕ → Tall) (stores : List Store) (name : List ℕ) → count ≡ length stores → IsPlaceOf stores (datastore_named stores name (Ok (value_at f value.now))) result }
{
    match value {
        ScriptValue::Datastore(place) => {
            if *place < count {
                Ok(*place)
            } else {
                Err(ValueFault::BadArgument)
            }
        }
        ScriptValue::Table(_) => Err(ValueFault::BadArgument),
        ScriptValue::Tall(_) => Err(ValueFault::BadArgument),
        ScriptValue::Memory(_) => Err(ValueFault::BadArgument),
    }
}

/// The fault of a name that no variable has.
fn unnamed(alloc: Global, name: &str) -> ValueFault
    ensures { (stores : List Store) → IsDue (datastore_named stores name.now (read_name name.now None)) result }
{
    match constant_named(name) {
        Some(_) => ValueFault::BadArgument,
        None => match Name::of(alloc, name) {
            Ok(name) => ValueFault::Undefined(name),
            Err(_) => ValueFault::Memory,
        },
    }
}

/// The place of the datastore of a name.
fn store_named(alloc: Global, environment: &Environment, name: &str) -> Result<usize, ValueFault>
    ensures { (f : ℕ → Tall) → IsPlaceOf environment.now.stores (datastore_named environment.now.stores name.now (read_name name.now (named (names_at f environment.now.names) name.now))) result }
{
    match environment.value(name) {
        Some(value) => place_of(value, environment.store_count()),
        None => Err(unnamed(alloc, name)),
    }
}

/// Adds the datastore of a name with a property changed, and gives its place.
fn change(
    alloc: Global,
    environment: &mut Environment,
    name: &str,
    property: &str,
    value: &ScriptValue,
) -> Result<usize, ValueFault>
    ensures same { environment.new ≡ record environment.old { stores = environment.new.stores } }
    ensures adds { (f : ℕ → Tall) → AddsStore (and_then (datastore_named environment.old.stores name.now (read_name name.now (named (names_at f environment.old.names) name.now))) (changed_store property.now (value_at f value.now))) environment.old.stores result environment.new.stores }
    ensures stored { (files : Files) (columns : Columns) → AreStored files environment.new.stores environment.new.graph columns → AreStored files environment.old.stores environment.old.graph columns }
{
    match store_named(alloc, environment, name) {
        Ok(place) => environment.change(place, property, value),
        Err(fault) => Err(fault),
    }
}

/// The name gets its datastore with the property changed, and is shown.
pub(crate) fn end_property(
    alloc: Global,
    environment: &mut Environment,
    line: u32,
    shown: bool,
    name: &str,
    property: &str,
    value: &ScriptValue,
) -> Result<Vec<u8>, Failure>
    ensures { Ends (λ f s. put_store line shown name.now (and_then (datastore_named s.stores name.now (read_name name.now (named s.names name.now))) (changed_store property.now (value_at f value.now))) s) environment.old environment.new result }
{
    match change(alloc, environment, name, property, value) {
        Ok(place) => {
            let value = ScriptValue::Datastore(place);
            end_assigned(alloc, environment, shown, name, value)
        }
        Err(fault) => Err(refused(line, fault)),
    }
}
