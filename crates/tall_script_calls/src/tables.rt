//! Tables of a script that open no file (docs/LANGUAGE.md, functions).
ghost use Rattle.std.specs.Prelude.{◌≡◌, ◌∷◌, [], IfOk, IfSome, Some, length, option_map, slice_get, ℕ};
ghost use Rattle.tall_semantics.specs.Talls.{Tall};
ghost use Rattle.tall_local.specs.Arguments.{value_given};
ghost use Rattle.tall_local.specs.Lists.{all_of};
ghost use Rattle.tall_memory.specs.Values.{shown_value, value_seen};
ghost use Rattle.tall_script.specs.ScriptLanguage.{readall_answer};
ghost use Rattle.tall_script.specs.TallTables.{tall_call, tall_of, tall_of_store};
ghost use Rattle.tall_evaluate.specs.Senses.{ArgumentFits, ArgumentsFit, argument_seen};
ghost use Rattle.tall_deferred.specs.Values.{IsValue, value_at};
ghost use Rattle.tall_deferred.specs.Answers.{Comes};
ghost use Rattle.tall_environment.specs.Computations.{Computes};
ghost use Rattle.tall_environment.specs.Environments.{IsNext, state_at};
ghost use Rattle.tall_environment.specs.Values.{arguments_at};
ghost use Rattle.tall_script_calls.specs.Single.{is_table, is_table_in_memory, single_given, store_place};

use std::alloc::Global;
use tall_column::Value;
use tall_deferred::{At, ScriptValue, ValueFault};
use tall_environment::{Environment, shared};
use tall_evaluate::Argument;
use tall_memory::MemoryValue;

/// The value of an argument.
fn value_in<'v>(arg: &'v Argument<'_, ScriptValue>) -> Option<&'v ScriptValue>
    ensures value { (f : ℕ → Tall) → option_map (λ v. value_at f v.now) result ≡ value_given (argument_seen (value_at f) arg.now) }
    ensures within { (n : ℕ) → ArgumentFits (IsValue n) arg.now → IfSome result (λ v. IsValue n v.now) }
{
    match arg {
        Argument::Given(value) => Some(value),
        Argument::Colon => None,
        Argument::Function(_) => None,
    }
}

/// The value of a call's only argument; none where there are more, or it is no value.
fn single<'v>(args: &'v [Argument<'_, ScriptValue>]) -> Option<&'v ScriptValue>
    ensures value { (f : ℕ → Tall) → option_map (λ v. value_at f v.now) result ≡ single_given (arguments_at f args.now) }
    ensures within { (n : ℕ) → ArgumentsFit (IsValue n) args.now → IfSome result (λ v. IsValue n v.now) }
{
    if args.len() != 1 {
        return None;
    }
    value_in(&args[0])
}

/// The place of a datastore.
fn store_place(value: &ScriptValue) -> Option<usize>
    ensures { (f : ℕ → Tall) → result ≡ store_place (value_at f value.now) }
{
    match value {
        ScriptValue::Datastore(place) => Some(*place),
        ScriptValue::Table(_) => None,
        ScriptValue::Tall(_) => None,
        ScriptValue::Memory(_) => None,
    }
}

/// The table of the datastore at a place, if there is one.
fn tall_at(environment: &mut Environment, at: At, place: usize) -> Result<ScriptValue, ValueFault>
    requires next { IsNext at.number environment.old }
    ensures { Computes at.number (λ files f. tall_of_store files place (slice_get environment.old.stores place)) environment.old environment.new result }
{
    if place < environment.store_count() {
        return environment.tall(at, place);
    }
    Err(ValueFault::BadClass)
}

/// The table of a datastore.
fn tall_of_value(
    environment: &mut Environment,
    at: At,
    value: &ScriptValue,
) -> Result<ScriptValue, ValueFault>
    requires next { IsNext at.number environment.old }
    ensures { Computes at.number (λ files f. tall_of files (value_at f value.now ∷ []) (state_at f environment.old)) environment.old environment.new result }
{
    match store_place(value) {
        Some(place) => tall_at(environment, at, place),
        None => Err(ValueFault::BadClass),
    }
}

/// `tall(ds)`: the table of the datastore's selected variables, as nodes more.
///
/// # Errors
/// `BadClass` and `BadArgument` as the definitions say; `Memory`.
pub fn tall_table(
    environment: &mut Environment,
    at: At,
    args: &[Argument<'_, ScriptValue>],
) -> Result<ScriptValue, ValueFault>
    requires next { IsNext at.number environment.old }
    requires arguments { ArgumentsFit (IsValue (length environment.old.graph)) args.now }
    ensures { Computes at.number (λ files f. tall_call files (arguments_at f args.now) (state_at f environment.old)) environment.old environment.new result }
{
    match single(args) {
        Some(value) => tall_of_value(environment, at, value),
        None => Err(ValueFault::BadArgument),
    }
}

/// Whether a value of columns is a table.
fn is_table_of(value: &Value) -> bool
    ensures { result ≡ is_table_in_memory (shown_value value.now) }
{
    match value {
        Value::Scalar(_) => false,
        Value::Column(_) => false,
        Value::Table(_) => true,
    }
}

/// Whether a value in memory is a table.
fn is_table_in_memory(value: &MemoryValue) -> bool
    ensures { result ≡ is_table_in_memory (value_seen value.now) }
{
    match value {
        MemoryValue::Value(value) => is_table_of(value),
        MemoryValue::Texts(_) => false,
    }
}

/// Whether a value is a table in memory.
fn is_table(value: &ScriptValue) -> bool
    ensures { (f : ℕ → Tall) → result ≡ is_table (value_at f value.now) }
{
    match value {
        ScriptValue::Datastore(_) => false,
        ScriptValue::Table(_) => false,
        ScriptValue::Tall(_) => false,
        ScriptValue::Memory(value) => is_table_in_memory(&**value),
    }
}

/// A table in memory once more.
fn shared_table(alloc: Global, value: &ScriptValue) -> Result<ScriptValue, ValueFault>
    ensures within { (n : ℕ) → IsValue n value.now → IfOk result (IsValue n) }
    ensures given { (f : ℕ → Tall) → Comes (value_at f) (readall_answer (Some (value_at f value.now ∷ []))) result }
{
    if is_table(value) {
        return shared(alloc, value);
    }
    Err(ValueFault::BadClass)
}

/// `readall(t)`: a table in memory is its own value.
///
/// # Errors
/// `BadClass` and `BadArgument` as the definitions say; `Memory`.
pub fn read_all(
    alloc: Global,
    environment: &mut Environment,
    at: At,
    args: &[Argument<'_, ScriptValue>],
) -> Result<ScriptValue, ValueFault>
    requires next { IsNext at.number environment.old }
    requires arguments { ArgumentsFit (IsValue (length environment.old.graph)) args.now }
    ensures { Computes at.number (λ files f. readall_answer (all_of value_given (arguments_at f args.now))) environment.old environment.new result }
{
    match single(args) {
        Some(value) => shared_table(alloc, value),
        None => Err(ValueFault::BadArgument),
    }
}
