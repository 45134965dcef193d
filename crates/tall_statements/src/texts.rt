//! What a statement shows.
ghost use Rattle.std.specs.Prelude.{◌≡◌, ◌++◌, ℕ, codes, length};
ghost use Rattle.tall_local.specs.Printing.{value_text};
ghost use Rattle.tall_local.specs.Memory as memory;
ghost use Rattle.tall_local.specs.Printing as printing;
ghost use Rattle.tall_memory.specs.Values.{value_seen};
ghost use Rattle.tall_print.specs.Appended.{AppendsOrKeeps};
ghost use Rattle.tall_script.specs.ScriptValues.{class_of_tall};
ghost use Rattle.tall_script.specs.Statements.{shown_text};
ghost use Rattle.tall_semantics.specs.Deferred.{IsMeaning};
ghost use Rattle.tall_semantics.specs.Talls.{Columns, Tall};
ghost use Rattle.tall_deferred.specs.Values.{IsValue, value_at};

use std::alloc::{AllocError, Global};
use tall_column::Texts;
use tall_deferred::ScriptValue;
use tall_graph::Graph;
use tall_memory::MemoryValue;
use tall_print::{print_kind, print_value};
use tall_value::Class;

/// What is shown of a tall column or a tall scalar.
fn tall_kind(class: Class) -> &'static str
    ensures { result.now ≡ codes "tall " ++ printing.class_name class }
{
    match class {
        Class::Int8 => "tall int8",
        Class::Int16 => "tall int16",
        Class::Int32 => "tall int32",
        Class::Int64 => "tall int64",
        Class::Uint8 => "tall uint8",
        Class::Uint16 => "tall uint16",
        Class::Uint32 => "tall uint32",
        Class::Uint64 => "tall uint64",
        Class::Logical => "tall logical",
        Class::Double => "tall double",
        Class::Text => "tall string",
    }
}

/// Adds the line of a list of texts, which shows how many they are.
#[tactic(auto, unfolding(tall_local::specs::Printing::memory_text))]
fn print_list(alloc: Global, name: &str, list: &Texts, text: &mut Vec<u8>) -> Result<(), AllocError>
    ensures { AppendsOrKeeps result text.old.items text.new.items (printing.memory_text name.now (memory.texts list.now)) }
{
    let count = list.len();
    let kind = format!(in alloc; "list {count}")?;
    print_kind(alloc, name, kind.as_str(), text)
}

/// Adds a value in memory under a name.
fn print_memory(
    alloc: Global,
    name: &str,
    value: &MemoryValue,
    text: &mut Vec<u8>,
) -> Result<(), AllocError>
    ensures { AppendsOrKeeps result text.old.items text.new.items (printing.memory_text name.now (value_seen value.now)) }
{
    match value {
        MemoryValue::Value(value) => print_value(alloc, name, value, text),
        MemoryValue::Texts(list) => print_list(alloc, name, list, text),
    }
}

/// Adds a value under a name.
#[tactic(auto, unfolding(tall_local::specs::Printing::value_text))]
fn print(
    alloc: Global,
    graph: &Graph,
    name: &str,
    value: &ScriptValue,
    text: &mut Vec<u8>,
) -> Result<(), AllocError>
    requires { IsValue (length graph.now) value.now }
    ensures { (columns : Columns) (f : ℕ → Tall) → IsMeaning columns graph.now f → AppendsOrKeeps result text.old.items text.new.items (value_text class_of_tall name.now (value_at f value.now)) }
{
    graph.keeps_its_rules();
    match value {
        ScriptValue::Datastore(_) => print_kind(alloc, name, "datastore", text),
        ScriptValue::Table(_) => print_kind(alloc, name, "tall table", text),
        ScriptValue::Tall(node) => print_kind(alloc, name, tall_kind(graph.class_of(*node)), text),
        ScriptValue::Memory(value) => print_memory(alloc, name, &**value, text),
    }
}

/// Adds what a statement shows of a value under a name: nothing where it isn't shown.
#[tactic(auto, using(crate::proofs::TextLaws::nothing_more))]
pub(crate) fn show(
    alloc: Global,
    graph: &Graph,
    shown: bool,
    name: &str,
    value: &ScriptValue,
    text: &mut Vec<u8>,
) -> Result<(), AllocError>
    requires { IsValue (length graph.now) value.now }
    ensures { (columns : Columns) (f : ℕ → Tall) → IsMeaning columns graph.now f → AppendsOrKeeps result text.old.items text.new.items (shown_text shown name.now (value_at f value.now)) }
{
    if shown {
        print(alloc, graph, name, value, text)
    } else {
        Ok(())
    }
}
