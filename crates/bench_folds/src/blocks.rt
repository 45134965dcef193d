//! Blocks of rows: a text key and an int16.
ghost use Rattle.std.specs.Prelude.{◌≡◌, length};
ghost use Rattle.tall_value.specs.declared.class.Class.TheVariants as class;
ghost use Rattle.bench_folds.specs.Blocks.{IsBlock};

use crate::columns::{next, small};
use std::alloc::{AllocError, Global};
use std::marker::Model;
use tall_column::Column;
use tall_value::{Cell, Class};

/// The rows of a block.
const BLOCK_ROWS: usize = 20000;

/// Keys and values, equally many.
#[derive(Drop)]
pub(crate) struct Block {
    keys: Column,
    values: Column,
}

impl Model for Block {
    ghost use Rattle.tall_dense.specs.Columns.{SeenColumn};

    ghost Value = { SeenColumn × SeenColumn };

    ghost use Rattle.bench_folds.specs.Blocks.{IsBlock};

    ghost view = { λ b. (b.keys, b.values) };

    ghost invariant = { λ b. IsBlock (b.keys, b.values) };
}

impl Block {
    fn new(alloc: Global) -> Block {
        Block {
            keys: Column::new(alloc, Class::Text),
            values: Column::new(alloc, Class::Int16),
        }
    }

    /// Adds a row; none where memory is wanting.
    fn add(self, key: &str, value: i16) -> Result<Block, AllocError> {
        let mut keys = self.keys;
        let mut values = self.values;
        keys.push(&Cell::Text(key))?;
        values.push(&Cell::I16(value))?;
        Ok(Block { keys, values })
    }

    /// The keys.
    pub(crate) fn keys(&self) -> &Column
        ensures keys { result.now ≡ self.now.0 }
        ensures block { IsBlock self.now }
    {
        &self.keys
    }

    /// The values.
    pub(crate) fn values(&self) -> &Column
        ensures { result.now ≡ self.now.1 }
    {
        &self.values
    }
}

/// Blocks of so many rows together, with so many keys.
pub(crate) fn blocks(alloc: Global, rows: usize, keys: usize) -> Result<Vec<Block>, AllocError> {
    let mut blocks = Vec::new(alloc);
    let mut block = Block::new(alloc);
    let mut number = 1;
    for row in 0..rows {
        number = next(number);
        let key = if keys == 0 {
            0
        } else {
            (number >> 20) as usize % keys
        };
        let name = format!(in alloc; "key{key}")?;
        block = block.add(name.as_str(), small(number))?;
        if (row + 1) % BLOCK_ROWS == 0 {
            blocks.push(block)?;
            block = Block::new(alloc);
        }
    }
    blocks.push(block)?;
    Ok(blocks)
}
