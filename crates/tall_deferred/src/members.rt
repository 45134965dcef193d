//! Variables of tables (docs/LANGUAGE.md, operators).
ghost use Rattle.std.specs.Prelude.{◌≡◌, ◌<◌, IfOk, ℕ};
ghost use Rattle.std.specs.List.{All};
ghost use Rattle.tall_semantics.specs.Talls.{Tall};
ghost use Rattle.tall_local.specs.Values.{in_memory, tall_table};
ghost use Rattle.tall_script.specs.ScriptValues.{member_value, tall_variable};
ghost use Rattle.tall_memory.specs.Values.{ref_seen};
ghost use Rattle.tall_deferred.specs.Answers.{Comes};
ghost use Rattle.tall_deferred.specs.Values.{IsLent, IsVariable, lent_at, node_named, variables_at};

use crate::faults::{ValueFault, of_memory};
use crate::values::{ScriptRef, Variable};
use std::alloc::Global;
use tall_graph::NodeId;
use tall_memory::{MemoryRef, memory_member};
use tall_value::Name;

/// The node of the first variable of a name.
fn find(variables: &[Variable], name: &str) -> Option<NodeId>
    ensures { result ≡ node_named variables.now name.now }
{
    for (i, variable) in variables.iter().enumerate() {
        if variable.name.as_str() == name {
            return Some(variables[i].node);
        }
    }
    None
}

/// The column of a variable of a tall table.
pub(crate) fn tall_variable(
    alloc: Global,
    variables: &[Variable],
    name: &str,
) -> Result<NodeId, ValueFault>
    ensures within { (n : ℕ) → All (IsVariable n) variables.now → IfOk result (λ x. x < n) }
    ensures given { (f : ℕ → Tall) → Comes f (tall_variable (variables_at f variables.now) name.now) result }
{
    match find(variables, name) {
        Some(node) => Ok(node),
        None => match Name::of(alloc, name) {
            Ok(name) => Err(ValueFault::Undefined(name)),
            Err(_) => Err(ValueFault::Memory),
        },
    }
}

#[tactic(auto, unfolding(tall_script::specs::ScriptValues::member_value))]
fn variable_in_memory<'a>(
    alloc: Global,
    v: &MemoryRef<'a>,
    name: &str,
) -> Result<ScriptRef<'a>, ValueFault>
    ensures within { (n : ℕ) → IfOk result (IsLent n) }
    ensures given { (f : ℕ → Tall) → Comes (lent_at f) (member_value (in_memory (ref_seen v.now)) name.now) result }
{
    match memory_member(alloc, v, name) {
        Ok(found) => Ok(ScriptRef::Memory(found)),
        Err(fault) => Err(of_memory(fault)),
    }
}

#[tactic(auto, unfolding(tall_script::specs::ScriptValues::member_value))]
fn variable_of_tall<'a>(
    alloc: Global,
    variables: &[Variable],
    name: &str,
) -> Result<ScriptRef<'a>, ValueFault>
    ensures within { (n : ℕ) → All (IsVariable n) variables.now → IfOk result (IsLent n) }
    ensures given { (f : ℕ → Tall) → Comes (lent_at f) (member_value (tall_table (variables_at f variables.now)) name.now) result }
{
    match tall_variable(alloc, variables, name) {
        Ok(node) => Ok(ScriptRef::Tall(node)),
        Err(fault) => Err(fault),
    }
}

#[tactic(auto, unfolding(tall_script::specs::ScriptValues::member_value))]
/// A variable of a table; that of a table in memory is lent and not copied.
pub fn member_value<'a>(
    alloc: Global,
    v: &ScriptRef<'a>,
    name: &str,
) -> Result<ScriptRef<'a>, ValueFault>
    ensures within { (n : ℕ) → IsLent n v.now → IfOk result (IsLent n) }
    ensures given { (f : ℕ → Tall) → Comes (lent_at f) (member_value (lent_at f v.now) name.now) result }
{
    match v {
        ScriptRef::Memory(v) => variable_in_memory(alloc, v, name),
        ScriptRef::Table(variables) => variable_of_tall(alloc, variables, name),
        ScriptRef::Tall(_) => Err(ValueFault::BadArgument),
        ScriptRef::Datastore(_) => Err(ValueFault::BadArgument),
    }
}
