//! Values once more: shared, or copied where they are lent.
ghost use Rattle.std.specs.Prelude.{◌≡◌, ℕ, IfOk, Ok};
ghost use Rattle.tall_semantics.specs.Talls.{Tall};
ghost use Rattle.tall_memory.specs.Values.{Gives, ref_seen};
ghost use Rattle.tall_deferred.specs.Answers.{Comes};
ghost use Rattle.tall_deferred.specs.Values.{IsLent, IsValue, lent_at, value_at};

use std::alloc::{AllocError, Global};
use tall_column::Texts;
use tall_deferred::{ScriptRef, ScriptValue, ValueFault, Variable};
use tall_memory::{MemoryFault, MemoryRef, MemoryValue, memory_end};
use tall_value::Name;

#[tactic(auto, using(crate::proofs::ValueLaws::same_texts))]
fn copied_texts(alloc: Global, texts: &Texts) -> Result<Texts, AllocError>
    ensures { IfOk result (λ t. t ≡ texts.now) }
{
    let mut copy = Texts::new(alloc);
    copy.add_all(texts)?;
    Ok(copy)
}

#[tactic(auto, using(crate::proofs::ValueLaws::all_rows))]
/// A copy of a value in memory.
fn copied_memory(alloc: Global, v: &MemoryRef<'_>) -> Result<MemoryValue, MemoryFault>
    ensures { Gives (Ok (ref_seen v.now)) result }
{
    match v {
        MemoryRef::Scalar(c) => MemoryValue::scalar(alloc, c),
        MemoryRef::Column(x) => Ok(MemoryValue::column(x.copy()?)),
        MemoryRef::Table(t) => memory_end(alloc, v, false, t.height() as u64),
        MemoryRef::Texts(texts) => Ok(MemoryValue::Texts(copied_texts(alloc, texts)?)),
    }
}

/// A copy of the variables of a tall table.
fn copied_variables(alloc: Global, variables: &[Variable]) -> Result<Vec<Variable>, AllocError>
    ensures { IfOk result (λ copy. copy.items ≡ variables.now) }
{
    let mut copy = Vec::new(alloc);
    for variable in variables {
        let name = Name::of(alloc, variable.name.as_str())?;
        copy.push(Variable {
            name,
            node: variable.node,
        })?;
    }
    Ok(copy)
}

/// A value that is lent, copied; a tall value is no more than the places of its nodes.
pub fn copied(alloc: Global, v: &ScriptRef<'_>) -> Result<ScriptValue, ValueFault>
    ensures within { (n : ℕ) → IsLent n v.now → IfOk result (IsValue n) }
    ensures given { (f : ℕ → Tall) → Comes (value_at f) (Ok (lent_at f v.now)) result }
{
    match v {
        ScriptRef::Datastore(place) => Ok(ScriptValue::Datastore(*place)),
        ScriptRef::Table(variables) => {
            Ok(ScriptValue::Table(copied_variables(alloc, variables)?))
        }
        ScriptRef::Tall(node) => Ok(ScriptValue::Tall(*node)),
        ScriptRef::Memory(v) => match copied_memory(alloc, v) {
            Ok(value) => Ok(ScriptValue::in_memory(alloc, value)?),
            Err(_) => Err(ValueFault::Memory),
        },
    }
}

/// A value once more: one in memory is shared and not copied.
pub fn shared(alloc: Global, v: &ScriptValue) -> Result<ScriptValue, ValueFault>
    ensures within { (n : ℕ) → IsValue n v.now → IfOk result (IsValue n) }
    ensures given { (f : ℕ → Tall) → Comes (value_at f) (Ok (value_at f v.now)) result }
{
    match v {
        ScriptValue::Datastore(place) => Ok(ScriptValue::Datastore(*place)),
        ScriptValue::Table(variables) => {
            Ok(ScriptValue::Table(copied_variables(alloc, variables.as_slice())?))
        }
        ScriptValue::Tall(node) => Ok(ScriptValue::Tall(*node)),
        ScriptValue::Memory(value) => Ok(ScriptValue::Memory(value.clone()?)),
    }
}
