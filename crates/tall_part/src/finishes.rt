//! What parts come to, each by what is kept.
ghost use Rattle.std.specs.Prelude.{◌≡◌, [], ◌∷◌, IfErr, IfOk, List, Ok, length, map};
ghost use Rattle.tall_value.specs.Cells.{Seen};
ghost use Rattle.tall_value.specs.Classes.{kind_of};
ghost use Rattle.tall_value.specs.Distinct.{distinct};
ghost use Rattle.tall_value.specs.FunctionClasses.{summary_classes};
ghost use Rattle.tall_value.specs.GroupSummary.{summary_columns};
ghost use Rattle.tall_fold.specs.FirstAndLast.{column_of};
ghost use Rattle.tall_group.specs.Folds.{IsGroupFoldOf, class_of_data, class_of_keys, method_of_groups};
ghost use Rattle.tall_group.specs.Summaries.{all_columns};
ghost use Rattle.tall_group.specs.UniqueFolds.{IsUniqueOf, class_of_unique};
ghost use Rattle.tall_part.specs.declared.results.EndColumn.{EndColumn};
ghost use Rattle.tall_part.specs.Parts.{numbers};
ghost use Rattle.tall_part.specs.Finished.{AreNumbered, FaultOfColumns, IsColumnOf, IsMemory, end_fault, numbers_from, IsFaultOfSummary};

use crate::results::{EndColumn, EndFault};
use std::alloc::{AllocError, Global};
use tall_clamp::FinishFault;
use tall_column::Column;
use tall_fold::{Ends, Summary};
use tall_group::{GroupColumns, GroupFold, UniqueFold};
use tall_value::{Fault, FaultKind};

/// The numbers of so many rows from 1 on.
fn numbers_from_one(alloc: Global, count: usize) -> Result<Vec<u64>, AllocError>
    ensures { IfOk result (λ v. v.items ≡ numbers_from 1 count) }
{
    let mut numbers = Vec::with_capacity(alloc, count)?;
    for at in 0..count {
        numbers.push(at as u64 + 1)?;
    }
    Ok(numbers)
}

/// A column whose rows are numbered from 1.
fn numbered(alloc: Global, column: Column) -> Result<EndColumn, AllocError>
    ensures column { IfOk result (λ c. c.column ≡ column) }
    ensures rows { IfOk result (λ c. c.rows.items ≡ numbers_from 1 (length column.cells)) }
{
    let rows = numbers_from_one(alloc, column.len())?;
    Ok(EndColumn { column, rows })
}

/// One column alone.
fn alone(alloc: Global, column: EndColumn) -> Result<Vec<EndColumn>, EndFault>
    ensures ok { IfOk result (λ v. v.items ≡ column ∷ []) }
    ensures memory { IfErr result IsMemory }
{
    let mut columns = Vec::new(alloc);
    match columns.push(column) {
        Ok(()) => Ok(columns),
        Err(_) => Err(EndFault::Memory),
    }
}

/// The fault of an expression that has no result.
fn fault_of(fault: FinishFault, number: u32, line: u32) -> EndFault
    ensures { result ≡ end_fault number line fault }
{
    let kind = match fault {
        FinishFault::Inexact => FaultKind::Inexact,
        FinishFault::NoRows => FaultKind::NoRows,
        FinishFault::Memory => return EndFault::Memory,
    };
    EndFault::Data(Fault {
        number,
        line,
        row: None,
        kind,
    })
}

/// The column of a scalar, or its fault.
pub(crate) fn scalar(
    alloc: Global,
    found: Result<Column, FinishFault>,
    number: u32,
    line: u32,
) -> Result<Vec<EndColumn>, EndFault>
    ensures ok { IfOk result (λ v. (c : EndColumn) × (v.items ≡ c ∷ []) × (found ≡ Ok c.column) × (c.rows.items ≡ [])) }
    ensures err { IfErr result (λ e. FaultOfColumns number line found e) }
{
    match found {
        Ok(column) => alone(
            alloc,
            EndColumn {
                column,
                rows: Vec::new(alloc),
            },
        ),
        Err(fault) => Err(fault_of(fault, number, line)),
    }
}

/// The first or the last rows.
pub(crate) fn end_rows(alloc: Global, ends: Ends) -> Result<Vec<EndColumn>, EndFault>
    ensures ok { IfOk result (λ v. (c : EndColumn) × (v.items ≡ c ∷ []) × (c.column ≡ column_of ends.class ends.rows) × (c.rows.items ≡ numbers ends.rows)) }
    ensures memory { IfErr result IsMemory }
{
    match ends.finish() {
        Ok((column, rows)) => alone(alloc, EndColumn { column, rows }),
        Err(_) => Err(EndFault::Memory),
    }
}

/// The distinct cells.
pub(crate) fn distinct_cells(alloc: Global, fold: UniqueFold) -> Result<Vec<EndColumn>, EndFault>
    ensures ok { (cs : List Seen) → IsUniqueOf fold cs → IfOk result (λ v. (c : EndColumn) × (v.items ≡ c ∷ []) × IsColumnOf (class_of_unique fold) (distinct cs) c) }
    ensures memory { IfErr result IsMemory }
{
    match fold.finish() {
        Ok(column) => match numbered(alloc, column) {
            Ok(column) => alone(alloc, column),
            Err(_) => Err(EndFault::Memory),
        },
        Err(_) => Err(EndFault::Memory),
    }
}

/// The columns of groups, whose rows are numbered from 1.
fn numbered_columns(alloc: Global, groups: GroupColumns) -> Result<Vec<EndColumn>, AllocError>
    ensures columns { IfOk result (λ v. map (λ c. c.column) v.items ≡ all_columns groups) }
    ensures rows { IfOk result (λ v. AreNumbered v.items) }
{
    let mut columns = Vec::with_capacity(alloc, 3)?;
    columns.push(numbered(alloc, groups.key)?)?;
    columns.push(numbered(alloc, groups.count)?)?;
    if let Some(value) = groups.value {
        columns.push(numbered(alloc, value)?)?;
    }
    Ok(columns)
}

/// The columns of groups, or their fault.
pub(crate) fn group_columns(
    alloc: Global,
    fold: GroupFold,
    number: u32,
    line: u32,
) -> Result<Vec<EndColumn>, EndFault>
    requires { (ks vs : List Seen) × IsGroupFoldOf fold ks vs }
    ensures classes { IfOk result (λ v. summary_classes (method_of_groups fold) (class_of_keys fold) (class_of_data fold) ≡ Ok (map (λ c. c.column.class) v.items)) }
    ensures ok { (ks vs : List Seen) → IsGroupFoldOf fold ks vs → IfOk result (λ v. (summary_columns (method_of_groups fold) (kind_of (class_of_data fold)) ks vs ≡ Ok (map (λ c. c.column.cells) v.items)) × AreNumbered v.items) }
    ensures err { (ks vs : List Seen) → IsGroupFoldOf fold ks vs → IfErr result (λ e. IsFaultOfSummary number line (summary_columns (method_of_groups fold) (kind_of (class_of_data fold)) ks vs) e) }
{
    match fold.columns() {
        Ok(groups) => match numbered_columns(alloc, groups) {
            Ok(columns) => Ok(columns),
            Err(_) => Err(EndFault::Memory),
        },
        Err(fault) => Err(fault_of(fault, number, line)),
    }
}
