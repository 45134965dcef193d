//! Pairs in the order of their adding.
ghost use Rattle.std.specs.Prelude.{◌≡◌, ◌<◌, ◌^◌, [], IfOk, Some, length, map, option_map, slice_get};
ghost use Rattle.tall_value.specs.Cells.{seen};
ghost use Rattle.tall_local.specs.Pairs.{column_of_cells, pair_key, pair_value};
ghost use Rattle.tall_kv.specs.ByKey.{groups_of};
ghost use Rattle.tall_kv.specs.Stores.{Adds, Appends, IsStore, cells_of};

use crate::faults::PairFault;
use crate::groups::{Groups, group};
use crate::rows::Rows;
use std::alloc::{AllocError, Global};
use std::marker::Model;
use tall_column::Column;
use tall_value::{Cell, Class};

/// Pairs of a key and a value in the order of their adding, which contracts see as a list of pairs with the line of each
/// `add`. All keys have one class, and all values have one. It keeps its allocator.
#[derive(Drop)]
pub struct Pairs {
    rows: Rows,
    alloc: Global,
}

impl Model for Pairs {
    ghost use Rattle.std.specs.Prelude.{List};
    ghost use Rattle.tall_local.specs.Pairs.{Pair};

    ghost Value = { List Pair };

    ghost use Rattle.tall_kv.specs.Stores.{IsKept, rows_pairs};

    ghost view = { λ p. rows_pairs p.rows };

    ghost invariant = { λ p. IsKept p.rows };
}

impl Pairs {
    /// No pairs.
    pub fn new(alloc: Global) -> Pairs
        ensures { result ≡ [] }
    {
        Pairs {
            rows: Rows {
                keys: Column::new(alloc, Class::Double),
                values: Column::new(alloc, Class::Double),
                lines: Vec::new(alloc),
            },
            alloc,
        }
    }

    /// Adds a pair behind the others; `line` is that of its `add`. Refused for the key, then for the value, then for the
    /// number of pairs, with the pairs as they were, also for want of memory (docs/LANGUAGE.md, mapreduce).
    pub fn add(&mut self, line: u32, key: &Cell<'_>, value: &Cell<'_>) -> Result<(), PairFault>
        ensures { Adds self.old (record { key = seen key.now; value = seen value.now; line = line }) self.new result }
    {
        if let Some(misfit) = self.rows.misfit(key, value) {
            return Err(misfit.at(line));
        }
        self.rows.add(self.alloc, line, key, value)?;
        Ok(())
    }

    /// Adds the pairs of another store behind the others. The first of them that doesn't fit refuses all, with the line of
    /// its own `add`, and the pairs are as they were, also for want of memory.
    pub fn append(&mut self, later: Pairs) -> Result<(), PairFault>
        ensures { Appends self.old later self.new result }
    {
        self.rows.fit(&later.rows)?;
        self.rows.append(later.rows)?;
        Ok(())
    }

    /// The number of pairs, below 2^40.
    pub fn len(&self) -> usize
        ensures number { result ≡ length self.now }
        ensures store { IsStore self.now }
    {
        self.rows.len()
    }

    /// The key and the value of a pair, counted from 0.
    pub fn pair(&self, i: usize) -> (Cell<'_>, Cell<'_>)
        requires { i < length self.now }
        ensures { option_map cells_of (slice_get self.now i) ≡ Some (seen result.0, seen result.1) }
    {
        let (key, value, _) = self.rows.pair(i);
        (key, value)
    }

    /// The keys and the values of all pairs as columns, in order; without a pair they are columns of doubles.
    pub fn into_columns(self) -> Result<(Column, Column), AllocError>
        ensures keys { IfOk result (λ c. c.0 ≡ column_of_cells (map pair_key self)) }
        ensures values { IfOk result (λ c. c.1 ≡ column_of_cells (map pair_value self)) }
        ensures height { IfOk result (λ c. (length c.0.cells < 2 ^ 40) × (length c.1.cells ≡ length c.0.cells)) }
    {
        let alloc = self.alloc;
        self.rows.into_columns(alloc)
    }

    /// The keys in the order of their first adding, each with its values in order. The time is linear in the number of pairs.
    pub fn group(self) -> Result<Groups, AllocError>
        ensures { IfOk result (λ g. g ≡ groups_of self) }
    {
        group(self.alloc, &self.rows)
    }
}
