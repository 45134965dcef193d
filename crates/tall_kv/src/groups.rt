//! The values of each key.
ghost use Rattle.std.specs.Prelude.{◌≡◌, ◌<◌, IfOk, OnOk, Some, All, false, if◌then◌else◌, length, option_map, slice_get};
ghost use Rattle.tall_value.specs.Cells.{seen};
ghost use Rattle.tall_column.specs.Columns.{class_of_cell, with_cell};
ghost use Rattle.tall_kv.specs.ByKey.{groups_of, with_value_at};
ghost use Rattle.tall_kv.specs.Stores.{IsKept, rows_pairs};

use crate::key::place;
use crate::rows::Rows;
use indexmap::IndexSet;
use std::alloc::{AllocError, Global};
use std::marker::Model;
use tall_column::Column;
use tall_value::{Cell, Class};

/// The keys of a store in the order of their first adding, each with the column of its values, which contracts see as a list
/// of groups.
#[derive(Drop)]
pub struct Groups {
    keys: Column,
    columns: Vec<Column>,
}

impl Model for Groups {
    ghost use Rattle.std.specs.Prelude.{◌≡◌, List, length};
    ghost use Rattle.tall_kv.specs.ByKey.{Group, groups_beside};

    ghost Value = { List Group };

    ghost view = { λ g. groups_beside g.keys.cells g.columns.items };

    ghost invariant = { λ g. length g.columns.items ≡ length g.keys.cells };
}

impl Groups {
    /// The number of keys.
    pub fn len(&self) -> usize
        ensures { result ≡ length self.now }
    {
        self.keys.len()
    }

    /// A key, counted from 0.
    pub fn key(&self, i: usize) -> Cell<'_>
        requires { i < length self.now }
        ensures { option_map (λ g. g.key) (slice_get self.now i) ≡ Some (seen result) }
    {
        self.keys.get(i)
    }

    /// The values of a key, in order.
    pub fn values(&self, i: usize) -> &Column
        requires { i < length self.now }
        ensures { option_map (λ g. g.values) (slice_get self.now i) ≡ Some result.now }
    {
        &self.columns[i]
    }
}

/// Adds a new key.
fn add_key(keys: &mut Column, is_new: bool, key: &Cell<'_>) -> Result<(), AllocError>
    requires { class_of_cell (seen key.now) ≡ keys.old.class }
    ensures { OnOk result (keys.new ≡ (if is_new then with_cell keys.old (seen key.now) else keys.old)) }
{
    if is_new {
        keys.push(key)?;
    }
    Ok(())
}

/// Adds the value of a key to the columns: a new key gets one of its own. After a refusal they are only dropped.
fn add_value(
    alloc: Global,
    columns: &mut Vec<Column>,
    place: usize,
    is_new: bool,
    class: Class,
    value: &Cell<'_>,
) -> Result<(), AllocError>
    requires class { class_of_cell (seen value.now) ≡ class }
    requires place { is_new ≡ false → place < length columns.old.items }
    requires classes { All (λ column. column.class ≡ class) columns.old.items }
    ensures { OnOk result (columns.new.items ≡ with_value_at class columns.old.items place is_new (seen value.now)) }
{
    if is_new {
        let mut column = Column::new(alloc, class);
        column.push(value)?;
        columns.push(column)?;
        return Ok(());
    }
    columns[place].push(value)
}

/// The keys of pairs in the order of their first adding, each with its values in order.
pub(crate) fn group(alloc: Global, rows: &Rows) -> Result<Groups, AllocError>
    requires { IsKept rows.now }
    ensures { IfOk result (λ g. g ≡ groups_of (rows_pairs rows.now)) }
{
    let mut met = IndexSet::new(alloc);
    let mut keys = Column::new(alloc, rows.keys.class());
    let mut columns = Vec::new(alloc);
    for row in 0..rows.len() {
        let (key, value, _) = rows.pair(row);
        let (place, is_new) = place(&mut met, &key)?;
        add_key(&mut keys, is_new, &key)?;
        add_value(
            alloc,
            &mut columns,
            place,
            is_new,
            rows.values.class(),
            &value,
        )?;
    }
    Ok(Groups { keys, columns })
}
