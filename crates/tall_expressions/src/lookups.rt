//! What literals, names and members of tables stand for.
ghost use Rattle.std.specs.Prelude.{◌≡◌, Err, IfOk, None, Ok, Result, length, ℕ};
ghost use Rattle.tall_value.specs.Cells.{seen};
ghost use Rattle.tall_semantics.specs.Talls.{Tall};
ghost use Rattle.tall_local.specs.Memory.{scalar, texts};
ghost use Rattle.tall_local.specs.Names.{named};
ghost use Rattle.tall_local.specs.Refusals as refusal;
ghost use Rattle.tall_local.specs.Values.{in_memory};
ghost use Rattle.tall_script.specs.ScriptLanguage.{read_name};
ghost use Rattle.tall_script.specs.ScriptValues.{TallValue, member_value};
ghost use Rattle.tall_deferred.specs.Answers.{Comes};
ghost use Rattle.tall_deferred.specs.Values.{IsValue, value_at};
ghost use Rattle.tall_environment.specs.Environments.{names_at};
ghost use Rattle.tall_environment.specs.Failures.{IsInside, Refuses};

use std::alloc::Global;
use tall_column::Texts;
use tall_deferred::{ScriptValue, ValueFault, member_value};
use tall_environment::{Environment, Failure, Refusal, copied, shared};
use tall_memory::{MemoryValue, constant_named};
use tall_value::{Cell, Name};

/// The failure of a name that stands for nothing; want of memory where it cannot be kept.
pub(crate) fn undefined_name(alloc: Global, line: u32, name: &str) -> Failure
    ensures inside { IsInside result }
    ensures names { (want : Result TallValue refusal.Refusal) → want ≡ Err (refusal.undefined name.now) → Refuses line want result }
{
    match Name::of(alloc, name) {
        Ok(name) => Failure::Refused {
            line,
            refusal: Refusal::Undefined(name),
        },
        Err(_) => Failure::Memory,
    }
}

/// What a name stands for that no variable has.
fn constant(alloc: Global, name: &str) -> Result<ScriptValue, ValueFault>
    ensures within { (n : ℕ) → IfOk result (IsValue n) }
    ensures given { (f : ℕ → Tall) → Comes (value_at f) (read_name name.now None) result }
{
    match constant_named(name) {
        Some(c) => scalar(alloc, &c),
        None => match Name::of(alloc, name) {
            Ok(name) => Err(ValueFault::Undefined(name)),
            Err(_) => Err(ValueFault::Memory),
        },
    }
}

/// A scalar in memory.
pub(crate) fn scalar(alloc: Global, c: &Cell<'_>) -> Result<ScriptValue, ValueFault>
    ensures within { (n : ℕ) → IfOk result (IsValue n) }
    ensures given { (f : ℕ → Tall) → Comes (value_at f) (Ok (in_memory (scalar (seen c.now)))) result }
{
    match MemoryValue::scalar(alloc, c) {
        Ok(value) => Ok(ScriptValue::in_memory(alloc, value)?),
        Err(_) => Err(ValueFault::Memory),
    }
}

/// A list of texts in memory.
pub(crate) fn list(alloc: Global, values: Texts) -> Result<ScriptValue, ValueFault>
    ensures within { (n : ℕ) → IfOk result (IsValue n) }
    ensures given { (f : ℕ → Tall) → Comes (value_at f) (Ok (in_memory (texts values))) result }
{
    Ok(ScriptValue::in_memory(alloc, MemoryValue::Texts(values))?)
}

/// What a name stands for.
pub(crate) fn value_named(
    alloc: Global,
    environment: &Environment,
    name: &str,
) -> Result<ScriptValue, ValueFault>
    ensures within { IfOk result (IsValue (length environment.now.graph)) }
    ensures given { (f : ℕ → Tall) → Comes (value_at f) (read_name name.now (named (names_at f environment.now.names) name.now)) result }
{
    match environment.value(name) {
        Some(value) => shared(alloc, value),
        None => constant(alloc, name),
    }
}

/// A variable of a table, copied.
pub(crate) fn member_of(
    alloc: Global,
    whole: &ScriptValue,
    name: &str,
) -> Result<ScriptValue, ValueFault>
    ensures within { (n : ℕ) → IsValue n whole.now → IfOk result (IsValue n) }
    ensures given { (f : ℕ → Tall) → Comes (value_at f) (member_value (value_at f whole.now) name.now) result }
{
    match member_value(alloc, &whole.lend(), name) {
        Ok(found) => copied(alloc, &found),
        Err(fault) => Err(fault),
    }
}
