//! Reductions and a scan of one column.
ghost use Rattle.std.specs.Prelude.{◌≡◌, ◌<◌, ◌^◌, IsOk, Ok, length};
ghost use Rattle.tall_value.specs.declared.class.Class.TheVariants as class;
ghost use Rattle.tall_value.specs.declared.functions.Scan.TheVariants.{CumSum};
ghost use Rattle.tall_value.specs.FunctionClasses.{reduction_class, scan_class};

use std::alloc::Global;
use tall_column::Column;
use tall_fold::{Carry, carry, scan, summarise};
use tall_value::{Class, Reduction, Scan};

/// Folds take fewer rows than this.
const MOST_ROWS: usize = 1 << 40;

/// The number of the last row, or 0.
fn last(column: &Column) -> i128 {
    match column.len() {
        0 => 0,
        rows => column.get(rows - 1).amount().unwrap_or(0),
    }
}

fn reduced(alloc: Global, op: Reduction, column: &Column) -> i128
    requires takes { IsOk (reduction_class op column.now.class) }
    requires few { length column.now.cells < 2 ^ 40 }
{
    match summarise(alloc, op, column).finish() {
        Ok(found) => last(&found),
        Err(_) => 0,
    }
}

fn total(alloc: Global, column: &Column) -> i128
    requires class { column.now.class ≡ class.Int16 }
    requires few { length column.now.cells < 2 ^ 40 }
{
    let sum = Reduction::Sum {
        native: false,
        omitnan: false,
    };
    reduced(alloc, sum, column)
}

fn native_total(alloc: Global, column: &Column) -> i128
    requires class { column.now.class ≡ class.Int16 }
    requires few { length column.now.cells < 2 ^ 40 }
{
    let sum = Reduction::Sum {
        native: true,
        omitnan: false,
    };
    reduced(alloc, sum, column)
}

/// What goes before the first row.
fn nothing_before(alloc: Global) -> Carry
    ensures operation { result.operation ≡ CumSum }
    ensures class { scan_class CumSum class.Int16 ≡ Ok result.class }
    ensures rows { result.rows ≡ 0 }
{
    let none = Column::new(alloc, Class::Int16);
    carry(Scan::CumSum, &none)
}

fn scanned(alloc: Global, column: &Column) -> i128
    requires class { column.now.class ≡ class.Int16 }
    requires few { length column.now.cells < 2 ^ 40 }
{
    match scan(alloc, Scan::CumSum, column, nothing_before(alloc)) {
        Ok(rows) => last(&rows),
        Err(_) => 0,
    }
}

/// The number of a fold's name, of int16; that of no name is 0.
fn of_numbers(alloc: Global, name: &str, column: &Column) -> i128
    requires class { column.now.class ≡ class.Int16 }
    requires few { length column.now.cells < 2 ^ 40 }
{
    match name {
        "min" => reduced(alloc, Reduction::Min, column),
        "max" => reduced(alloc, Reduction::Max, column),
        "nnz" => reduced(alloc, Reduction::Nnz, column),
        "sum" => total(alloc, column),
        "native" => native_total(alloc, column),
        "cumsum" => scanned(alloc, column),
        _ => 0,
    }
}

/// The number after so many turns, of int16.
pub(crate) fn turned(alloc: Global, name: &str, column: &Column, turns: usize) -> i128
    requires { column.now.class ≡ class.Int16 }
{
    let mut number = 0;
    if column.len() < MOST_ROWS {
        for _turn in 0..turns {
            number = of_numbers(alloc, name, column);
        }
    }
    number
}

/// Whether any is true, after so many turns, of logicals.
pub(crate) fn any_turned(alloc: Global, column: &Column, turns: usize) -> i128
    requires { column.now.class ≡ class.Logical }
{
    let mut number = 0;
    if column.len() < MOST_ROWS {
        for _turn in 0..turns {
            number = reduced(alloc, Reduction::Any, column);
        }
    }
    number
}
