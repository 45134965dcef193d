//! Groups of the rows of a table in memory (docs/LANGUAGE.md, functions: groupsummary).
ghost use Rattle.std.specs.Prelude.{◌≡◌, ◌<◌, ◌^◌, Err, IfOk, IfSome, IsOk, List, None, Ok, length, map, option_map, true};
ghost use Rattle.tall_value.specs.declared.class.Class.{Class};
ghost use Rattle.tall_value.specs.declared.functions.Method.TheVariants as method;
ghost use Rattle.tall_value.specs.Classes.{kind_of};
ghost use Rattle.tall_value.specs.ClassTables.{class_result};
ghost use Rattle.tall_value.specs.FunctionClasses.{method_kind, summary_classes};
ghost use Rattle.tall_value.specs.GroupSummary.{summary_columns};
ghost use Rattle.tall_value.specs.SummaryNames.{summary_names};
ghost use Rattle.tall_column.specs.Tables.{FitsHeight, column_named};
ghost use Rattle.tall_value.specs.Names.{are_distinct};
ghost use Rattle.tall_group.specs.Summaries.{AreEven, Summarises, all_columns};
ghost use Rattle.tall_local.specs.Memory.{kind_of_column, table};
ghost use Rattle.tall_local.specs.MemoryFunctions.{if_distinct, memory_groups, memory_summary, paired, summary_result, variable_named};
ghost use Rattle.tall_local.specs.Refusals.{and_then, undefined};
ghost use Rattle.tall_functions.specs.Summaries.{names_with, with_values};
ghost use Rattle.tall_memory.specs.Values.{Gives, ref_seen};

use crate::reductions::MOST_ROWS;
use crate::summary_names::{COUNT_NAME, are_distinct, value_name};
use std::alloc::{AllocError, Global};
use tall_clamp::FinishFault;
use tall_column::{Column, Table};
use tall_group::{GroupColumns, GroupFold};
use tall_memory::{MemoryFault, MemoryRef, MemoryValue, add_variable, refused_class};
use tall_value::{Class, ClassFault, FaultKind, Method, Name, Reduction, reduction_class};

/// No variable has this name.
fn undefined(alloc: Global, name: &str) -> Result<MemoryValue, MemoryFault>
    ensures { Gives (Err (undefined name.now)) result }
{
    match Name::of(alloc, name) {
        Ok(name) => Err(MemoryFault::Undefined(name)),
        Err(_) => Err(MemoryFault::Memory),
    }
}

/// The class of what a method gives of data of a class, or why it is refused.
fn method_class(how: Method, class: Class) -> Result<Class, ClassFault>
    ensures { result ≡ class_result (method_kind how (kind_of class)) }
{
    match how {
        Method::Count => Ok(Class::Double),
        Method::Sum => reduction_class(
            Reduction::Sum {
                native: false,
                omitnan: true,
            },
            class,
        ),
        Method::SumNative => reduction_class(
            Reduction::Sum {
                native: true,
                omitnan: true,
            },
            class,
        ),
        Method::Min => reduction_class(Reduction::Min, class),
        Method::Max => reduction_class(Reduction::Max, class),
        Method::Nnz => reduction_class(Reduction::Nnz, class),
        Method::Nummissing => Ok(Class::Double),
    }
}

/// The columns of the groups of a key's rows.
fn grouped(alloc: Global, how: Method, g: &Column, v: &Column) -> Result<GroupColumns, FinishFault>
    requires takes { IsOk (method_kind how (kind_of v.now.class)) }
    requires even { length g.now.cells ≡ length v.now.cells }
    requires few { length g.now.cells < 2 ^ 40 }
    ensures classes { IfOk result (λ c. summary_classes how g.now.class v.now.class ≡ Ok (map (λ x. x.class) (all_columns c))) }
    ensures cells { Summarises all_columns (summary_columns how (kind_of v.now.class) g.now.cells v.now.cells) result }
{
    let mut fold = GroupFold::new(alloc, how, g.class(), v.class());
    match fold.add_columns(g, v) {
        Ok(()) => fold.columns(),
        Err(_) => Err(FinishFault::Memory),
    }
}

/// Adds the values under their name, where they have one.
fn add_values(t: &mut Table, name: Option<&str>, values: Column) -> Result<(), AllocError>
    requires new_name { IfSome name (λ s. column_named s.now t.old ≡ None) }
    requires same_height { FitsHeight (length values.cells) t.old }
    ensures { IfOk result (λ _. t.new ≡ with_values t.old (option_map (λ s. s.now) name.entry) values) }
{
    match name {
        Some(name) => add_variable(t, name, values),
        None => Ok(()),
    }
}

/// The columns under their names, in a table.
fn summary_table(
    alloc: Global,
    key: &str,
    name: Option<&str>,
    columns: GroupColumns,
) -> Result<MemoryValue, MemoryFault>
    requires distinct { are_distinct (names_with key.now (option_map (λ s. s.now) name)) ≡ true }
    requires even { AreEven columns }
    ensures { Gives (Ok (table (paired (names_with key.now (option_map (λ s. s.now) name.entry)) (all_columns columns)))) result }
{
    let mut t = Table::new(alloc);
    add_variable(&mut t, key, columns.key)?;
    add_variable(&mut t, COUNT_NAME, columns.count)?;
    if let Some(value) = columns.value {
        add_values(&mut t, name, value)?;
    }
    Ok(MemoryValue::table(t))
}

/// The summary of a key's rows, whose columns get these names.
fn named_summary(
    alloc: Global,
    how: Method,
    key: &str,
    name: Option<&str>,
    g: &Column,
    v: &Column,
) -> Result<MemoryValue, MemoryFault>
    requires takes { IsOk (method_kind how (kind_of v.now.class)) }
    requires even { length g.now.cells ≡ length v.now.cells }
    ensures { (classes : List Class) → summary_classes how g.now.class v.now.class ≡ Ok classes
        → Gives (if_distinct (names_with key.now (option_map (λ s. s.now) name.entry)) (summary_result (names_with key.now (option_map (λ s. s.now) name.entry)) classes (summary_columns how (kind_of_column v.now) g.now.cells v.now.cells))) result }
{
    if !are_distinct(key, name) {
        return Err(MemoryFault::BadArgument);
    }
    if g.len() >= MOST_ROWS {
        return Err(MemoryFault::Memory);
    }
    match grouped(alloc, how, g, v) {
        Ok(columns) => summary_table(alloc, key, name, columns),
        Err(FinishFault::Inexact) => Err(MemoryFault::Data {
            row: None,
            kind: FaultKind::Inexact,
        }),
        Err(_) => Err(MemoryFault::Memory),
    }
}

/// The summary of the data of a key's groups.
fn summary(
    alloc: Global,
    how: Method,
    key: &str,
    value: &str,
    g: &Column,
    v: &Column,
) -> Result<MemoryValue, MemoryFault>
    requires even { length g.now.cells ≡ length v.now.cells }
    ensures { Gives (memory_summary how (summary_names how key.now value.now) g.now v.now) result }
{
    match method_class(how, v.class()) {
        Ok(_) => {
            let name = value_name(alloc, how, value)?;
            match &name {
                Some(name) => named_summary(alloc, how, key, Some(name.as_str()), g, v),
                None => named_summary(alloc, how, key, None, g, v),
            }
        }
        Err(fault) => refused_class(fault),
    }
}

/// The summary of a table's groups by a method that takes data.
fn of_data(
    alloc: Global,
    how: Method,
    t: &Table,
    key: &str,
    value: &str,
) -> Result<MemoryValue, MemoryFault>
    ensures { Gives (and_then (variable_named t.now key.now) (λ g. and_then (variable_named t.now value.now) (memory_summary how (summary_names how key.now value.now) g))) result }
{
    let _rows = t.height();
    let Some(g) = t.column(key) else {
        return undefined(alloc, key);
    };
    let Some(v) = t.column(value) else {
        return undefined(alloc, value);
    };
    summary(alloc, how, key, value, g, v)
}

/// The rows of a table's groups.
fn of_rows(alloc: Global, t: &Table, key: &str, value: &str) -> Result<MemoryValue, MemoryFault>
    ensures { Gives (and_then (variable_named t.now key.now) (λ g. memory_summary method.Count (summary_names method.Count key.now value.now) g g)) result }
{
    match t.column(key) {
        Some(g) => summary(alloc, Method::Count, key, value, g, g),
        None => undefined(alloc, key),
    }
}

fn table_groups(
    alloc: Global,
    t: &Table,
    key: &str,
    how: Method,
    value: &str,
) -> Result<MemoryValue, MemoryFault>
    ensures { Gives (memory_groups (table t.now) key.now how value.now) result }
{
    match how {
        Method::Count => of_rows(alloc, t, key, value),
        Method::Sum => of_data(alloc, Method::Sum, t, key, value),
        Method::SumNative => of_data(alloc, Method::SumNative, t, key, value),
        Method::Min => of_data(alloc, Method::Min, t, key, value),
        Method::Max => of_data(alloc, Method::Max, t, key, value),
        Method::Nnz => of_data(alloc, Method::Nnz, t, key, value),
        Method::Nummissing => of_data(alloc, Method::Nummissing, t, key, value),
    }
}

/// The groups of a table's rows by a variable: their keys in rising order, `GroupCount`, and with a method what it gives of
/// each group's data. Undefined where no variable has a name; BadClass for another value than a table, and where the method
/// does not take the class of the data; BadArgument where two of the columns would have one name; Data with no row where a
/// sum of doubles is above 2^53 in magnitude (MathWorks, groupsummary).
pub fn memory_groups(
    alloc: Global,
    v: &MemoryRef<'_>,
    key: &str,
    how: Method,
    value: &str,
) -> Result<MemoryValue, MemoryFault>
    ensures { Gives (memory_groups (ref_seen v.now) key.now how value.now) result }
{
    match v {
        MemoryRef::Table(t) => table_groups(alloc, t, key, how, value),
        MemoryRef::Scalar(_) => Err(MemoryFault::BadClass),
        MemoryRef::Column(_) => Err(MemoryFault::BadClass),
        MemoryRef::Texts(_) => Err(MemoryFault::BadClass),
    }
}
