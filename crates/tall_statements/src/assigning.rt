//! Names that get values.
ghost use Rattle.std.specs.Prelude.{◌≡◌, ◌++◌, ◌∷◌, [], ℕ, IfNone, IfOk, IfSome, OnErr, OnOk, length, map};
ghost use Rattle.std.specs.Vec.Iter.{into_iter_items};
ghost use Rattle.tall_local.specs.Names.{put_name};
ghost use Rattle.tall_script.specs.Statements.{set_names, shown_text, shows};
ghost use Rattle.tall_semantics.specs.Deferred.{IsMeaning};
ghost use Rattle.tall_semantics.specs.Talls.{Columns, Tall};
ghost use Rattle.tall_deferred.specs.Values.{IsValue, shared_seen, value_at};
ghost use Rattle.tall_environment.specs.Environments.{state_at};

use crate::texts::show;
use std::alloc::{AllocError, Global};
use std::rc::Rc;
use std::vec::IntoIter;
use tall_deferred::ScriptValue;
use tall_environment::Environment;
use tall_memory::MemoryValue;
use tall_value::Name;

/// Gives a name a value, and adds what is shown of it. Without memory no name changes.
pub(crate) fn assign(
    alloc: Global,
    environment: &mut Environment,
    shown: bool,
    name: &str,
    value: ScriptValue,
    text: &mut Vec<u8>,
) -> Result<(), AllocError>
    requires { IsValue (length environment.old.graph) value }
    ensures ok { OnOk result (environment.new ≡ record environment.old { names = put_name name.now value environment.old.names }) }
    ensures err { OnErr result (environment.new ≡ environment.old) }
    ensures text { (columns : Columns) (f : ℕ → Tall) → IsMeaning columns environment.old.graph f → IfOk result (λ _. text.new.items ≡ text.old.items ++ shown_text shown name.now (value_at f value)) }
{
    show(alloc, environment.graph(), shown, name, &value, text)?;
    environment.assign(name, value)
}

/// The next value, where there is one.
fn next_value(values: &mut IntoIter<Rc<MemoryValue>>) -> Option<Rc<MemoryValue>>
    ensures some { IfSome result (λ v. into_iter_items values.old ≡ v ∷ into_iter_items values.new) }
    ensures none { IfNone result (into_iter_items values.old ≡ []) }
{
    values.next()
}

/// Gives each name its value, in order, and the text that is shown.
pub(crate) fn assign_each(
    alloc: Global,
    environment: &mut Environment,
    shown: bool,
    names: &[Name],
    values: Vec<Rc<MemoryValue>>,
) -> Result<Vec<u8>, AllocError>
    ensures same { environment.new ≡ record environment.old { names = environment.new.names } }
    ensures named { (columns : Columns) (f : ℕ → Tall) → IsMeaning columns environment.old.graph f → IfOk result (λ text. set_names shown names.now (map shared_seen values.items) [] (state_at f environment.old) ≡ shows text.items (state_at f environment.new)) }
{
    let mut text = Vec::new(alloc);
    let mut values = values.into_iter();
    for name in names {
        let Some(value) = next_value(&mut values) else {
            return Ok(text);
        };
        let value = ScriptValue::Memory(value);
        assign(alloc, environment, shown, name.as_str(), value, &mut text)?;
    }
    Ok(text)
}
