//! The groups of a table's rows by a key.
ghost use Rattle.std.specs.Prelude.{◌≡◌, ◌<◌, ◌+◌, ◌++◌, ◌^◌, [], ◌∷◌, IfErr, IfOk, IsOk, List, Ok, length, map};
ghost use Rattle.tall_value.specs.Cells.{Seen, seen};
ghost use Rattle.tall_value.specs.Classes.{kind_of};
ghost use Rattle.tall_value.specs.FunctionClasses.{method_kind, summary_classes};
ghost use Rattle.tall_value.specs.GroupSummary.{summary_columns};
ghost use Rattle.tall_dense.specs.Columns.{class_of_cell};
ghost use Rattle.tall_group.specs.Folds.{AreAlike, IsGroupFoldOf, class_of_data, class_of_keys, method_of_groups};
ghost use Rattle.tall_group.specs.Summaries.{Summarises, all_columns, column_names, columns_in};

use crate::group_columns::{GroupColumns, named};
use crate::group_states::GroupStates;
use crate::table::KeyTable;
use std::alloc::{AllocError, Global};
use tall_clamp::FinishFault;
use tall_column::{Column, Table};
use tall_value::{Cell, Class, Method};

/// The groups of rows by a key, with what a method keeps of each group's data (MathWorks, groupsummary). The rows may
/// come in blocks. It keeps each key once.
#[derive(Drop)]
pub struct GroupFold {
    keys: KeyTable,
    states: GroupStates,
    method: Method,
    value: Class,
}

impl GroupFold {
    /// No rows yet, of keys of a class and of data of a class that the method takes.
    pub fn new(alloc: Global, method: Method, key: Class, value: Class) -> GroupFold
        requires { IsOk (method_kind method (kind_of value)) }
        ensures keys { class_of_keys result ≡ key }
        ensures data { class_of_data result ≡ value }
        ensures method { method_of_groups result ≡ method }
        ensures none { IsGroupFoldOf result [] [] }
    {
        GroupFold {
            keys: KeyTable::new(alloc, key),
            states: GroupStates::new(alloc, method, value.kind()),
            method,
            value,
        }
    }

    /// Adds a row: its key and its datum. Refused for want of memory alone, with the rows so far as they were.
    pub fn add(&mut self, key: &Cell<'_>, value: &Cell<'_>) -> Result<(), AllocError>
        requires key { class_of_cell (seen key.now) ≡ class_of_keys self.old }
        requires data { class_of_cell (seen value.now) ≡ class_of_data self.old }
        requires rows { (ks vs : List Seen) × IsGroupFoldOf self.old ks vs × (length ks + 1 < 2 ^ 40) }
        ensures alike { AreAlike self.new self.old }
        ensures rows { (ks vs : List Seen) → IsGroupFoldOf self.old ks vs → length ks + 1 < 2 ^ 40 → IfOk result (λ _. IsGroupFoldOf self.new (ks ++ seen key.now ∷ []) (vs ++ seen value.now ∷ [])) }
        ensures refused { (ks vs : List Seen) → IsGroupFoldOf self.old ks vs → IfErr result (λ _. IsGroupFoldOf self.new ks vs) }
    {
        self.states.add(&mut self.keys, key, value)
    }

    /// Adds the rows of two columns, the keys and the data. Refused for want of memory alone, with the rows so far as they
    /// were.
    pub fn add_columns(&mut self, keys: &Column, values: &Column) -> Result<(), AllocError>
        requires keys { keys.now.class ≡ class_of_keys self.old }
        requires data { values.now.class ≡ class_of_data self.old }
        requires even { length keys.now.cells ≡ length values.now.cells }
        requires rows { (ks vs : List Seen) × IsGroupFoldOf self.old ks vs × (length ks + length keys.now.cells < 2 ^ 40) }
        ensures alike { AreAlike self.new self.old }
        ensures rows { (ks vs : List Seen) → IsGroupFoldOf self.old ks vs → length ks + length keys.now.cells < 2 ^ 40 → IfOk result (λ _. IsGroupFoldOf self.new (ks ++ keys.now.cells) (vs ++ values.now.cells)) }
        ensures refused { (ks vs : List Seen) → IsGroupFoldOf self.old ks vs → IfErr result (λ _. IsGroupFoldOf self.new ks vs) }
    {
        self.states.add_columns(&mut self.keys, keys, values)
    }

    /// Adds the rows of a later fold behind. Refused for want of memory alone, with the rows so far as they were.
    pub fn join(&mut self, later: GroupFold) -> Result<(), AllocError>
        requires alike { AreAlike later self.old }
        requires rows { (ks vs js ws : List Seen) × IsGroupFoldOf self.old ks vs × IsGroupFoldOf later js ws × (length ks + length js < 2 ^ 40) }
        ensures alike { AreAlike self.new self.old }
        ensures rows { (ks vs js ws : List Seen) → IsGroupFoldOf self.old ks vs → IsGroupFoldOf later js ws → length ks + length js < 2 ^ 40 → IfOk result (λ _. IsGroupFoldOf self.new (ks ++ js) (vs ++ ws)) }
        ensures refused { (ks vs : List Seen) → IsGroupFoldOf self.old ks vs → IfErr result (λ _. IsGroupFoldOf self.new ks vs) }
    {
        self.states.join(&mut self.keys, &later.keys, &later.states)
    }

    /// The columns of the groups: the key, in rising order with NaN last, the rows of each group, and what the method
    /// gives of its data (MathWorks, groupsummary).
    ///
    /// # Errors
    /// Inexact exactly where a sum of doubles is above 2^53 in magnitude, and Memory for want of memory alone.
    pub fn columns(self) -> Result<GroupColumns, FinishFault>
        requires rows { (ks vs : List Seen) × IsGroupFoldOf self ks vs }
        ensures classes { IfOk result (λ g. summary_classes (method_of_groups self) (class_of_keys self) (class_of_data self) ≡ Ok (map (λ c. c.class) (all_columns g))) }
        ensures cells { (ks vs : List Seen) → IsGroupFoldOf self ks vs → Summarises all_columns (summary_columns (method_of_groups self) (kind_of (class_of_data self)) ks vs) result }
    {
        match self.states.columns(self.keys, self.value.kind()) {
            Ok(Some(columns)) => Ok(columns),
            Ok(None) => Err(FinishFault::Inexact),
            Err(_) => Err(FinishFault::Memory),
        }
    }

    /// The same as a table with the columns `key`, `count` and, unless the method only counts, `value`.
    ///
    /// # Errors
    /// Those of `columns`.
    pub fn finish(self) -> Result<Table, FinishFault>
        requires rows { (ks vs : List Seen) × IsGroupFoldOf self ks vs }
        ensures names { IfOk result (λ t. map (λ e. e.0) t ≡ column_names (method_of_groups self)) }
        ensures classes { IfOk result (λ t. summary_classes (method_of_groups self) (class_of_keys self) (class_of_data self) ≡ Ok (map (λ c. c.class) (columns_in t))) }
        ensures cells { (ks vs : List Seen) → IsGroupFoldOf self ks vs → Summarises columns_in (summary_columns (method_of_groups self) (kind_of (class_of_data self)) ks vs) result }
    {
        let alloc = self.keys.alloc();
        let columns = self.columns()?;
        match named(alloc, columns) {
            Ok(table) => Ok(table),
            Err(_) => Err(FinishFault::Memory),
        }
    }
}
