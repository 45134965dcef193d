//! The numbers of the rows of nodes' columns in a block.
ghost use Rattle.std.specs.Prelude.{◌≡◌, ◌+◌, ◌<◌, ◌^◌, ◌≤◌, ℕ, Bool, IfOk, List, None, OnOk, Option, Some, length, map};
ghost use Rattle.tall_value.specs.declared.class.Class.TheVariants as class;
ghost use Rattle.tall_value.specs.Cells.{Seen, logical};
ghost use Rattle.tall_semantics.specs.Deferred.{IsAmong};
ghost use Rattle.tall_semantics.specs.Outcomes.{Outcome, rows_in};
ghost use Rattle.tall_semantics.specs.Talls.{Columns, Tall};
ghost use Rattle.tall_blocks.specs.RowPlaces.{row_number_at};
ghost use Rattle.tall_dense.specs.Columns.{SeenColumn};
ghost use Rattle.tall_block.specs.declared.numbers.Back.TheVariants.{Number, Of};
ghost use Rattle.tall_block.specs.OfBlocks.{AreColumns, AreShown, IsThere, column_at};
ghost use Rattle.tall_block.specs.BlockWork.{AreClosed, IsBlock, numbers_between};
ghost use Rattle.tall_block.specs.RowSteps.{IsBack, IsBefore, IsOperandRow, IsRow, found_kept, with_some};

use crate::columns::column;
use crate::forms::{Form, form_of};
use std::alloc::{AllocError, Global};
use std::collections::HashMap;
use tall_column::{Column, Table, Values};
use tall_graph::{Graph, NodeId};

/// Where the number of a row of a node's column is told.
#[derive(Clone, Copy)]
pub(crate) enum Back {
    Number(u64),
    /// It is that of the row at a place of another node's column.
    Of(NodeId, usize),
    /// What it is told from isn't there.
    Lost,
}

/// The place of the mark that is true as the k-th from 0.
fn kept_in(marks: &[bool], k: usize) -> Option<usize>
    ensures { result ≡ found_kept (map (λ b. logical b) marks.now) k }
{
    let mut left = k;
    for place in 0..marks.len() {
        if marks[place] {
            if left == 0 {
                return Some(place);
            }
            left -= 1;
        }
    }
    None
}

/// The place of the row that a mask keeps as its k-th from 0; None where it keeps fewer or isn't logical.
fn kept_row(mask: &Column, k: usize) -> Option<usize>
    ensures { mask.now.class ≡ class.Logical → result ≡ found_kept mask.now.cells k }
{
    match mask.values() {
        Values::Logical(marks) => kept_in(marks.as_slice(), k),
        _ => None,
    }
}

/// The number of a row of a variable's column.
fn stored_row(
    graph: &Graph,
    table: &Table,
    first_row: u64,
    made: &HashMap<usize, Column>,
    n: NodeId,
    row: usize,
) -> Back
    requires place { n < length graph.now }
    ensures before { IsBefore n result }
    ensures told { (c : SeenColumn) → column_at graph.now table.now made.now n ≡ Some c → row < length c.cells → first_row + length c.cells ≤ 2 ^ 40 → result ≡ Number (first_row + row) }
{
    match column(graph, table, made, n) {
        Some(column) => {
            if row < column.len() {
                match first_row.checked_add(row as u64) {
                    Some(number) => Back::Number(number),
                    None => Back::Lost,
                }
            } else {
                Back::Lost
            }
        }
        None => Back::Lost,
    }
}

/// The row of the operand of a filter.
fn filtered_row(
    graph: &Graph,
    table: &Table,
    made: &HashMap<usize, Column>,
    a: NodeId,
    m: NodeId,
    row: usize,
) -> Back
    requires mask_place { m < length graph.now }
    ensures of { IsOperandRow a result }
    ensures told { (mask : SeenColumn) → column_at graph.now table.now made.now m ≡ Some mask → mask.class ≡ class.Logical → (k : ℕ) → found_kept mask.cells row ≡ Some k → result ≡ Of a k }
{
    match column(graph, table, made, m) {
        Some(mask) => match kept_row(mask, row) {
            Some(place) => Back::Of(a, place),
            None => Back::Lost,
        },
        None => Back::Lost,
    }
}

/// The operand whose rows an operator's value has: the left one, where it has a column.
fn lead_of(
    graph: &Graph,
    table: &Table,
    made: &HashMap<usize, Column>,
    a: NodeId,
    b: NodeId,
) -> NodeId
    requires place { a < length graph.now }
    ensures left { (x : SeenColumn) → column_at graph.now table.now made.now a ≡ Some x → result ≡ a }
    ensures right { column_at graph.now table.now made.now a ≡ None → result ≡ b }
{
    match column(graph, table, made, a) {
        Some(_) => a,
        None => b,
    }
}

/// Where the number of a row of a node's column is told: in the block's table, or by an operand's row.
fn row_behind(
    graph: &Graph,
    table: &Table,
    first_row: u64,
    made: &HashMap<usize, Column>,
    n: NodeId,
    row: usize,
) -> Back
    requires place { n < length graph.now }
    requires columns { AreColumns graph.now table.now made.now }
    ensures before { IsBefore n result }
    ensures told { (scalars carries : ℕ → Option Seen) (work : List ℕ) (columns : Columns) (so_far : ℕ → List Seen) (f : ℕ → Tall) (cut : ℕ → Bool) (h : ℕ → Outcome)
        → IsBlock graph.now table.now scalars carries first_row work columns so_far f cut h → AreShown graph.now cut table.now made.now h → AreClosed graph.now cut table.now made.now
        → IsRow graph.now table.now made.now work h n row → IsBack graph.now table.now made.now work h n row result }
{
    graph.keeps_its_rules();
    match form_of(graph, n) {
        Form::Stored => stored_row(graph, table, first_row, made, n, row),
        Form::Unary(_, a) => Back::Of(a, row),
        Form::Binary(_, a, b) => Back::Of(lead_of(graph, table, made, a, b), row),
        Form::Filter(a, m) => filtered_row(graph, table, made, a, m, row),
        Form::Scan(_, a) => Back::Of(a, row),
        Form::Other => Back::Lost,
    }
}

/// The number of the row at a place of a node's column.
pub(crate) fn row_number(
    graph: &Graph,
    table: &Table,
    first_row: u64,
    made: &HashMap<usize, Column>,
    n: NodeId,
    row: usize,
) -> Option<u64>
    requires place { n < length graph.now }
    requires columns { AreColumns graph.now table.now made.now }
    ensures { (scalars carries : ℕ → Option Seen) (work : List ℕ) (columns : Columns) (so_far : ℕ → List Seen) (f : ℕ → Tall) (cut : ℕ → Bool) (h : ℕ → Outcome)
        → IsBlock graph.now table.now scalars carries first_row work columns so_far f cut h → AreShown graph.now cut table.now made.now h → AreClosed graph.now cut table.now made.now
        → IsRow graph.now table.now made.now work h n row → result ≡ Some (row_number_at (rows_in (h n)) row) }
{
    let mut node = n;
    let mut place = row;
    for _turn in 0..graph.len() {
        match row_behind(graph, table, first_row, made, node, place) {
            Back::Number(number) => return Some(number),
            Back::Of(operand, behind) => {
                node = operand;
                place = behind;
            }
            Back::Lost => return None,
        }
    }
    None
}

/// Adds a number, if there is one.
fn push_some(numbers: &mut Vec<u64>, number: Option<u64>) -> Result<(), AllocError>
    ensures { OnOk result (numbers.new.items ≡ with_some numbers.old.items number) }
{
    if let Some(number) = number {
        numbers.push(number)?;
    }
    Ok(())
}

/// The row numbers of a node's column that is there, from a place to before another, both counted from 0 in the column. `table`,
/// `first_row` and `made` are those of the block (`block_values`). Refused for want of memory alone.
pub fn row_numbers(
    alloc: Global,
    graph: &Graph,
    table: &Table,
    first_row: u64,
    made: &HashMap<usize, Column>,
    n: NodeId,
    from: usize,
    to: usize,
) -> Result<Vec<u64>, AllocError>
    requires place { n < length graph.now }
    requires columns { AreColumns graph.now table.now made.now }
    ensures { IfOk result (λ v. (scalars carries : ℕ → Option Seen) (work : List ℕ) (columns : Columns) (so_far : ℕ → List Seen) (f : ℕ → Tall) (cut : ℕ → Bool) (h : ℕ → Outcome)
        → IsBlock graph.now table.now scalars carries first_row work columns so_far f cut h → AreShown graph.now cut table.now made.now h → AreClosed graph.now cut table.now made.now
        → IsAmong work n → IsThere graph.now table.now made.now n → from ≤ to → to ≤ length (rows_in (h n)) → v.items ≡ numbers_between (h n) from to) }
{
    let mut numbers = Vec::new(alloc);
    for row in from..to {
        let number = row_number(graph, table, first_row, made, n, row);
        push_some(&mut numbers, number)?;
    }
    Ok(numbers)
}
