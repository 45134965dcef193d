//! The properties of a datastore (docs/LANGUAGE.md, datastores in scripts).
ghost use Rattle.std.specs.Prelude.{◌≡◌, ℕ, Result};
ghost use Rattle.tall_semantics.specs.Talls.{Tall};
ghost use Rattle.tall_local.specs.Names.{named};
ghost use Rattle.tall_script.specs.Datastores.{or_bad};
ghost use Rattle.tall_script.specs.StoreArguments.{formats_given, properties, size_given, texts_given};
ghost use Rattle.tall_store.specs.Properties.{Changes, formatted, selecting, sized};
ghost use Rattle.tall_store.specs.Stores.{SeenStore};
ghost use Rattle.tall_store.specs.declared.faults.StoreFault as faults;
ghost use Rattle.tall_deferred.specs.Answers.{Comes};
ghost use Rattle.tall_deferred.specs.Values.{lent_at};
ghost use Rattle.tall_sources.specs.Changed.{changed_by, itself, or_refused};
ghost use Rattle.tall_sources.specs.Given.{memory_in};

use crate::values::{formats_given, size_given, texts_given};
use std::alloc::Global;
use tall_deferred::{ScriptRef, ValueFault};
use tall_store::{Datastore, Property, StoreFault};

fn property_named(name: &str) -> Option<Property>
    ensures { result ≡ named properties name.now }
{
    if "ReadSize" == name {
        Some(Property::ReadSize)
    } else if "SelectedVariableNames" == name {
        Some(Property::SelectedVariableNames)
    } else if "TextscanFormats" == name {
        Some(Property::TextscanFormats)
    } else {
        None
    }
}

/// The answer of a datastore that is asked for a copy with a property changed.
fn answered(changed: Result<Datastore, StoreFault>) -> Result<Datastore, ValueFault>
    ensures { (want : Result SeenStore faults.StoreFault) → Changes want changed → Comes itself (or_refused want) result }
{
    match changed {
        Ok(store) => Ok(store),
        Err(StoreFault::BadArgument) => Err(ValueFault::BadArgument),
        Err(_) => Err(ValueFault::Memory),
    }
}

fn with_size(store: &Datastore, value: &ScriptRef<'_>) -> Result<Datastore, ValueFault>
    ensures { Comes itself (or_bad (sized store.now) (size_given (memory_in value.now))) result }
{
    match size_given(value) {
        Some(size) => answered(store.with_size(size)),
        None => Err(ValueFault::BadArgument),
    }
}

fn with_selected(
    alloc: Global,
    store: &Datastore,
    value: &ScriptRef<'_>,
) -> Result<Datastore, ValueFault>
    ensures { Comes itself (or_bad (selecting store.now) (texts_given (memory_in value.now))) result }
{
    match texts_given(alloc, value)? {
        Some(names) => answered(store.with_selected(names.as_slice())),
        None => Err(ValueFault::BadArgument),
    }
}

fn with_formats(
    alloc: Global,
    store: &Datastore,
    value: &ScriptRef<'_>,
) -> Result<Datastore, ValueFault>
    ensures { Comes itself (or_bad (formatted store.now) (formats_given (memory_in value.now))) result }
{
    match formats_given(alloc, value)? {
        Some(formats) => answered(store.with_formats(formats.as_slice())),
        None => Err(ValueFault::BadArgument),
    }
}

/// The datastore with a property changed, by the property's name; no file is opened.
///
/// # Errors
/// `BadArgument` where no property has the name, the value isn't in memory, it has another form than the property takes, or
/// it is refused as that option is; `Memory` for want of memory.
pub fn changed(
    alloc: Global,
    store: &Datastore,
    property: &str,
    value: &ScriptRef<'_>,
) -> Result<Datastore, ValueFault>
    ensures { (f : ℕ → Tall) → Comes itself (changed_by store.now property.now (lent_at f value.now)) result }
{
    match property_named(property) {
        Some(Property::ReadSize) => with_size(store, value),
        Some(Property::SelectedVariableNames) => with_selected(alloc, store, value),
        Some(Property::TextscanFormats) => with_formats(alloc, store, value),
        None => Err(ValueFault::BadArgument),
    }
}
