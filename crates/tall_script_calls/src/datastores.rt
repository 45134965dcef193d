//! Datastores of a script (docs/LANGUAGE.md, datastores in scripts).
ghost use Rattle.std.specs.Prelude.{◌≡◌, ◌++◌, ◌∷◌, [], List, MatchResult, length, map, option_and_then, ℕ};
ghost use Rattle.tall_outside.specs.Shelf.{Files};
ghost use Rattle.tall_semantics.specs.Talls.{Columns, Tall};
ghost use Rattle.tall_stored.specs.StoredColumns.{AreStored};
ghost use Rattle.tall_local.specs.Lists.{all_of};
ghost use Rattle.tall_script.specs.Datastores.{datastore_call, value_in_memory};
ghost use Rattle.tall_script.specs.StoreArguments as arguments;
ghost use Rattle.tall_script.specs.States.{with_openings};
ghost use Rattle.tall_evaluate.specs.Senses.{ArgumentsFit};
ghost use Rattle.tall_deferred.specs.Values.{IsValue, at_seen, lent_at};
ghost use Rattle.tall_sources.specs.Given.{options_lent};
ghost use Rattle.tall_sources.specs.Opened.{makes, openings_due, store_due};
ghost use Rattle.tall_environment.specs.Environments.{IsNext, opening_of};
ghost use Rattle.tall_environment.specs.Expressions.{Evaluates};
ghost use Rattle.tall_environment.specs.Values.{arguments_at};
ghost use Rattle.tall_script_calls.specs.Making.{failing};
ghost use Rattle.tall_script_calls.specs.Openings.{IsOpening};

use std::alloc::Global;
use tall_deferred::{At, ScriptRef, ScriptValue};
use tall_environment::{Environment, Failure, Refusal, values_lent};
use tall_evaluate::Argument;
use tall_outside::Shelf;
use tall_sources::{OpenFault, calls_of_datastores, open_datastore};
use tall_store::Datastore;

/// The failure of an opening, on the line of its call.
fn opening_failure(line: u32, fault: OpenFault) -> Failure
    ensures { result ≡ failing line fault }
{
    match fault {
        OpenFault::BadArgument => Failure::Refused {
            line,
            refusal: Refusal::BadArgument,
        },
        OpenFault::NoFile(name) => Failure::Refused {
            line,
            refusal: Refusal::NoFile(name),
        },
        OpenFault::NoHeader(name) => Failure::Refused {
            line,
            refusal: Refusal::NoHeader(name),
        },
        OpenFault::Failed(file) => Failure::Read { file },
        OpenFault::TooLarge(file) => Failure::TooLarge { file },
        OpenFault::Memory => Failure::Memory,
    }
}

/// More openings are allowed; the proof at the call tells which by the values.
fn allow_told(environment: &mut Environment, _values: &Vec<ScriptRef<'_>>)
    ghost more: { List (List (List ℕ) × ℕ) }
    ensures { environment.new ≡ record environment.old { opened = environment.old.opened ++ map opening_of more } }
{
    environment.allow(&0u8);
}

/// The openings of a call are allowed, by the values of its arguments.
fn allow_first(environment: &mut Environment, values: &Vec<ScriptRef<'_>>)
    ensures { environment.new ≡ record environment.old { opened = environment.old.opened ++ openings_due (options_lent values.now.items) } }
{
    allow_told(environment, values);
}

/// One more datastore, which is the value; without memory there is none.
fn added(environment: &mut Environment, at: At, store: Datastore) -> Result<ScriptValue, Failure>
    requires { IsNext at.number environment.old }
    ensures added { MatchResult result (λ v. (v ≡ ScriptValue.Datastore (length environment.old.stores)) × (environment.new ≡ record environment.old { stores = environment.old.stores ++ record { at = at_seen at; store = store } ∷ [] })) (λ e. (e ≡ Failure.Memory) × (environment.new ≡ environment.old)) }
    ensures stored { (files : Files) (columns : Columns) → AreStored files environment.new.stores environment.new.graph columns → AreStored files environment.old.stores environment.old.graph columns }
{
    match environment.add_store(at, store) {
        Ok(place) => Ok(ScriptValue::Datastore(place)),
        Err(_) => Err(Failure::Memory),
    }
}

/// The datastore of a call, as `open_datastore` gives it.
fn open_store<S: Shelf>(
    alloc: Global,
    shelf: &mut S,
    args: &Vec<ScriptRef<'_>>,
) -> Result<Datastore, OpenFault>
    ensures opening { IsOpening S.Shelf (options_lent args.now.items) shelf.old shelf.new result }
    ensures given { (f : ℕ → Tall) → option_and_then arguments.options_given (all_of value_in_memory (map (lent_at f) args.now.items)) ≡ options_lent args.now.items }
{
    open_datastore(alloc, shelf, args.as_slice())
}

/// One more datastore, by the values of the arguments. What the call may open is allowed before it is known what comes of it.
fn make_of<S: Shelf>(
    alloc: Global,
    shelf: &mut S,
    environment: &mut Environment,
    at: At,
    values: &Vec<ScriptRef<'_>>,
) -> Result<ScriptValue, Failure>
    requires { IsNext at.number environment.old }
    ensures evaluates { Evaluates S.Shelf at.number (λ files f s. makes (at_seen at) (store_due files (options_lent values.now.items)) (with_openings (openings_due (options_lent values.now.items)) s)) environment.old environment.new shelf.old shelf.new result }
    ensures given { (f : ℕ → Tall) → option_and_then arguments.options_given (all_of value_in_memory (map (lent_at f) values.now.items)) ≡ options_lent values.now.items }
{
    allow_first(environment, values);
    match open_store(alloc, shelf, values) {
        Ok(store) => added(environment, at, store),
        Err(fault) => Err(opening_failure(at.line, fault)),
    }
}

/// `tabularTextDatastore(files, options)`: one more datastore, whose first file is opened once.
///
/// # Errors
/// A stop of the definitions; `Read` and `TooLarge` of the first file, by the counts of the shelf; `Memory`.
pub fn make_datastore<S: Shelf>(
    alloc: Global,
    shelf: &mut S,
    environment: &mut Environment,
    at: At,
    args: &[Argument<'_, ScriptValue>],
) -> Result<ScriptValue, Failure>
    requires next { IsNext at.number environment.old }
    requires arguments { ArgumentsFit (IsValue (length environment.old.graph)) args.now }
    ensures { Evaluates S.Shelf at.number (λ files f s. datastore_call files (at_seen at) (arguments_at f args.now) s) environment.old environment.new shelf.old shelf.new result }
{
    calls_of_datastores();
    match values_lent(alloc, args) {
        Ok(Some(values)) => make_of(alloc, shelf, environment, at, &values),
        Ok(None) => Err(Failure::Refused {
            line: at.line,
            refusal: Refusal::BadArgument,
        }),
        Err(_) => Err(Failure::Memory),
    }
}
