//! Groups and distinct values of blocks.
ghost use Rattle.std.specs.Prelude.{◌≡◌, IfOk, List};
ghost use Rattle.tall_value.specs.declared.class.Class.TheVariants as class;
ghost use Rattle.tall_value.specs.Cells.{Seen};
ghost use Rattle.tall_group.specs.Folds.{IsGroupFoldOf};

use crate::blocks::Block;
use std::alloc::{AllocError, Global};
use tall_clamp::FinishFault;
use tall_group::{GroupColumns, GroupFold, UniqueFold};
use tall_value::{Class, Method};

/// Folds take fewer rows than this.
const MOST_ROWS: usize = 1 << 40;

/// The groups of blocks, summed.
fn fold(alloc: Global, blocks: &[Block]) -> Result<GroupFold, AllocError>
    ensures { IfOk result (λ f. (ks vs : List Seen) × IsGroupFoldOf f ks vs) }
{
    let mut fold = GroupFold::new(alloc, Method::Sum, Class::Text, Class::Int16);
    let mut rows = 0;
    for i in 0..blocks.len() {
        let keys = blocks[i].keys();
        if keys.len() >= MOST_ROWS - rows {
            return Err(AllocError);
        }
        rows += keys.len();
        fold.add_columns(keys, blocks[i].values())?;
    }
    Ok(fold)
}

/// The number of groups and the last sum.
fn last(columns: &GroupColumns) -> (usize, i128) {
    match &columns.value {
        Some(values) => match values.len() {
            0 => (0, 0),
            rows => (rows, values.get(rows - 1).amount().unwrap_or(0)),
        },
        None => (0, 0),
    }
}

/// The number of groups of blocks, and the last sum.
pub(crate) fn grouped(alloc: Global, blocks: &[Block]) -> Result<(usize, i128), AllocError> {
    let fold = fold(alloc, blocks)?;
    match fold.columns() {
        Ok(columns) => Ok(last(&columns)),
        Err(_) => Err(AllocError),
    }
}

/// The number of distinct keys.
pub(crate) fn distinct(alloc: Global, blocks: &[Block]) -> Result<(usize, i128), AllocError> {
    let mut fold = UniqueFold::new(alloc, Class::Text);
    for i in 0..blocks.len() {
        fold.add_column(blocks[i].keys())?;
    }
    let column = fold.finish()?;
    Ok((column.len(), 0))
}
