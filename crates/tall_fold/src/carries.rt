//! Carries: what the rows before a block come to under a scan.
ghost use Rattle.std.specs.Prelude.{◌≡◌, ◌+◌, ◌++◌, ◌∷◌, ◌<◌, ◌≤◌, ◌^◌, [], IsOk, List, Ok, length};
ghost use Rattle.tall_value.specs.declared.class.Class.{Class};
ghost use Rattle.tall_value.specs.declared.functions.Scan.{Scan};
ghost use Rattle.tall_value.specs.Cells.{Seen, seen};
ghost use Rattle.tall_value.specs.Classes.{kind_of};
ghost use Rattle.tall_value.specs.FunctionClasses.{scan_class};
ghost use Rattle.tall_dense.specs.Columns.{class_of_cell};
ghost use Rattle.tall_fold.specs.Summaries.{kept_form, kept_rows};
ghost use Rattle.tall_fold.specs.Forms.{form_of};
ghost use Rattle.tall_fold.specs.Carries.{IsCarry, IsFoldOf, IsScanned, scan_cell, scan_fold};

use crate::carried::{double_fold, fold_of, integer_fold, kept_of_cell, kind_of_result};
use crate::kept::{Kept, joined};
use crate::values::kept_of;
use std::marker::Model;
use tall_column::Column;
use tall_value::{Cell, Class, Kind, Scan};

/// What some rows come to under a scan, from which the scan of later rows goes on. The carries of consecutive blocks,
/// joined in their order, are the carry of all their rows, wherever the cuts are.
///
/// It is seen as the scan, the class of its result, the number of rows, and what their cells come to; `IsCarry` says which
/// cells it is the carry of. It takes no memory.
#[derive(Clone, Copy)]
pub struct Carry {
    operation: Scan,
    class: Class,
    rows: u64,
    kept: Kept,
}

impl Model for Carry {
    ghost use Rattle.tall_fold.specs.Carries.{IsCarried, SeenCarry};

    ghost Value = { SeenCarry };

    ghost view = { λ c. record { operation = c.operation; class = c.class; rows = c.rows; kept = c.kept } };

    ghost invariant = { λ c. IsCarried c.operation c.class c.rows c.kept };

    ghost inverse = { λ d. record { operation = d.operation; class = d.class; rows = d.rows; kept = d.kept } };
}

impl Carry {
    /// The carry of a column's rows, by a loop over its values.
    pub(crate) fn of_column(operation: Scan, column: &Column) -> Carry
        requires takes { IsOk (scan_class operation column.now.class) }
        requires few { length column.now.cells < 2 ^ 40 }
        ensures class { scan_class operation column.now.class ≡ Ok result.class }
        ensures carry { IsCarry operation result.class column.now.cells result }
    {
        let kind = column.class().kind();
        Carry {
            operation,
            class: kind_of_result(kind).class(),
            rows: column.len() as u64,
            kept: kept_of(fold_of(operation, kind), column.values()),
        }
    }

    /// The carry of one row with this cell, of a class that the scan takes.
    pub fn of(operation: Scan, cell: &Cell<'_>) -> Carry
        requires { IsOk (scan_class operation (class_of_cell (seen cell.now))) }
        ensures class { scan_class operation (class_of_cell (seen cell.now)) ≡ Ok result.class }
        ensures carry { IsCarry operation result.class (seen cell.now ∷ []) result }
    {
        Carry {
            operation,
            class: kind_of_result(cell.class().kind()).class(),
            rows: 1,
            kept: kept_of_cell(operation, cell),
        }
    }

    /// The carry of these rows and then the later ones, of one scan and class. It asks for fewer than 2^40 rows together.
    pub fn join(self, later: Carry) -> Carry
        requires operation { later.operation ≡ self.operation }
        requires class { later.class ≡ self.class }
        requires few { self.rows + later.rows < 2 ^ 40 }
        ensures { (op : Scan) (class : Class) (cs ds : List Seen) → IsCarry op class cs self → IsCarry op class ds later → IsCarry op class (cs ++ ds) result }
    {
        Carry {
            operation: self.operation,
            class: self.class,
            rows: self.rows + later.rows,
            kept: joined(self.kept, later.kept),
        }
    }

    /// The fold of the rows: the cell of the scan at the last of them. Over no rows it is where the scan starts: 0 for a
    /// sum; for a minimum and a maximum NaN in a double, and in an integer class its greatest and its least number. None
    /// exactly where a sum of doubles is above 2^53 in magnitude and no NaN was met.
    pub fn cell(&self) -> Option<Cell<'_>>
        ensures { (op : Scan) (class : Class) (cs : List Seen) → IsCarry op class cs self.now → IsScanned (scan_cell op (kind_of class) cs) result }
    {
        match self.class.kind() {
            Kind::Integer(class) => Some(Cell::of_class(class, integer_fold(self.kept))),
            _ => match double_fold(self.kept) {
                Some(double) => Some(Cell::Double(double)),
                None => None,
            },
        }
    }

    /// What is kept of the rows.
    pub(crate) fn kept(self) -> Kept
        ensures kept { result ≡ self.kept }
        ensures fold { (op : Scan) (class : Class) (cs : List Seen) → IsCarry op class cs self → IsFoldOf op (kind_of class) cs result }
        ensures form { kept_form result ≡ form_of (scan_fold self.operation (kind_of self.class)) (kind_of self.class) }
        ensures few { kept_rows result ≤ self.rows }
    {
        self.kept
    }
}
