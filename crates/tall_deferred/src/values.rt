//! Values of a script, kept and lent.
ghost use Rattle.std.specs.Prelude.{◌≡◌, ◌++◌, ◌∷◌, [], IfOk, OnOk, ℕ};
ghost use Rattle.tall_value.specs.Cells.{seen};
ghost use Rattle.tall_semantics.specs.Talls.{Tall};
ghost use Rattle.tall_local.specs.Values.{in_memory};
ghost use Rattle.tall_memory.specs.Values.{ref_seen, value_seen};
ghost use Rattle.tall_deferred.specs.Values.{IsInMemory, IsLent, IsValue, lent_at, value_at};

use std::alloc::{AllocError, Global};
use std::rc::Rc;
use tall_graph::NodeId;
use tall_memory::{MemoryRef, MemoryValue};
use tall_value::{Cell, Name};

/// An expression: its number in the script, and the line of its statement.
#[derive(Clone, Copy)]
pub struct At {
    pub number: u32,
    pub line: u32,
}

/// A variable of a tall table: a name, and the node of its column.
#[derive(Drop)]
pub struct Variable {
    pub name: Name,
    pub node: NodeId,
}

/// A value of a script.
#[derive(Drop)]
pub enum ScriptValue {
    /// A datastore, by its place in the order of their making, from 0.
    Datastore(usize),
    /// A tall table, whose variables have one space.
    Table(Vec<Variable>),
    /// A tall column or a tall scalar.
    Tall(NodeId),
    /// A value in memory, which a name shares with what uses it.
    Memory(Rc<MemoryValue>),
}

/// A value of a script that is lent: an operand, an argument, what a name stands for.
#[derive(Clone, Copy)]
pub enum ScriptRef<'a> {
    Datastore(usize),
    Table(&'a [Variable]),
    Tall(NodeId),
    Memory(MemoryRef<'a>),
}

/// What stands between the parentheses of an index.
#[derive(Clone, Copy)]
pub enum ScriptIndex<'a> {
    /// `x(i)`
    Rows(ScriptRef<'a>),
    /// `T(i, :)`
    AllVariables(ScriptRef<'a>),
    /// any other arguments
    OtherForm,
}

impl ScriptValue {
    /// A value in memory; there may be no memory to share it.
    pub fn in_memory(alloc: Global, value: MemoryValue) -> Result<ScriptValue, AllocError>
        ensures memory { IfOk result IsInMemory }
        ensures value { (f : ℕ → Tall) → IfOk result (λ v. value_at f v ≡ in_memory (value_seen value)) }
    {
        match Rc::new(alloc, value) {
            Ok(shared) => Ok(ScriptValue::Memory(shared)),
            Err(_) => Err(AllocError),
        }
    }

    /// The value, lent.
    pub fn lend(&self) -> ScriptRef<'_>
        ensures value { (f : ℕ → Tall) → lent_at f result ≡ value_at f self.now }
        ensures within { (n : ℕ) → IsValue n self.now → IsLent n result }
    {
        match self {
            ScriptValue::Datastore(place) => ScriptRef::Datastore(*place),
            ScriptValue::Table(variables) => ScriptRef::Table(variables.as_slice()),
            ScriptValue::Tall(node) => ScriptRef::Tall(*node),
            ScriptValue::Memory(value) => ScriptRef::Memory(value.lend()),
        }
    }
}

/// A cell once more.
fn same_cell<'a>(cell: &Cell<'a>) -> Cell<'a>
    ensures { seen result ≡ seen cell.now }
{
    match *cell {
        Cell::I8(n) => Cell::I8(n),
        Cell::I16(n) => Cell::I16(n),
        Cell::I32(n) => Cell::I32(n),
        Cell::I64(n) => Cell::I64(n),
        Cell::U8(n) => Cell::U8(n),
        Cell::U16(n) => Cell::U16(n),
        Cell::U32(n) => Cell::U32(n),
        Cell::U64(n) => Cell::U64(n),
        Cell::Logical(b) => Cell::Logical(b),
        Cell::Double(d) => Cell::Double(d),
        Cell::Text(t) => Cell::Text(t),
    }
}

/// A value in memory lent once more.
pub(crate) fn lent_again<'a>(v: &MemoryRef<'a>) -> MemoryRef<'a>
    ensures { ref_seen result ≡ ref_seen v.now }
{
    match v {
        MemoryRef::Scalar(cell) => MemoryRef::Scalar(same_cell(cell)),
        MemoryRef::Column(column) => MemoryRef::Column(column),
        MemoryRef::Table(table) => MemoryRef::Table(table),
        MemoryRef::Texts(texts) => MemoryRef::Texts(texts),
    }
}

/// Adds a variable at the end.
pub fn add_variable(
    alloc: Global,
    variables: &mut Vec<Variable>,
    name: &str,
    node: NodeId,
) -> Result<(), AllocError>
    ensures { OnOk result (variables.new.items ≡ variables.old.items ++ record { name = name.now; node = node } ∷ []) }
{
    let name = Name::of(alloc, name)?;
    Ok(variables.push(Variable { name, node })?)
}
