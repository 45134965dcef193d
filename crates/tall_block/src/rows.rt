//! Operators over columns of a block's rows.
ghost use Rattle.std.specs.Prelude.{◌≡◌, ◌≤◌, false, true, IfOk, IsOk, Ok, length};
ghost use Rattle.tall_value.specs.declared.class.Class.TheVariants as class;
ghost use Rattle.tall_value.specs.Cells.{Seen, seen};
ghost use Rattle.tall_value.specs.ClassTables.{binary_class, unary_class};
ghost use Rattle.tall_value.specs.Filters.{kept};
ghost use Rattle.tall_dense.specs.Columns.{class_of_cell};
ghost use Rattle.tall_column.specs.Mapped.{scalar_class};
ghost use Rattle.tall_semantics.specs.Faults.{At};
ghost use Rattle.tall_semantics.specs.Outcomes.{Outcome, cells_in, elementwise_one, elementwise_two, rows as of_rows, rows_in, scalar};
ghost use Rattle.tall_block.specs.Shown.{Shows, Tells};

use std::alloc::{AllocError, Global};
use tall_column::{Column, OpFault, map_binary, map_scalar, map_unary};
use tall_value::{Binary, Cell, Unary};

/// The operator at each row of a column whose class it takes (docs/LANGUAGE.md, operators).
///
/// # Errors
/// `At` with the first row, counted from 0, where the operator has no cell; `Memory` for want of memory alone.
#[tactic(auto, using(crate::proofs::Operators::unary_told, crate::proofs::Heights::unary_short))]
pub(crate) fn unary_over(alloc: Global, op: Unary, a: &Column) -> Result<Column, OpFault>
    requires { IsOk (unary_class op a.now.class) }
    ensures class { IfOk result (λ c. unary_class op a.now.class ≡ Ok c.class) }
    ensures height { IfOk result (λ c. length c.cells ≤ length a.now.cells) }
    ensures rows { (at : At) (x : Outcome) → Shows x a.now.cells → Tells at (rows_in x) (elementwise_one at op x) result }
{
    map_unary(alloc, op, a)
}

/// The operator at each row of a column and a scalar, the left operand where the flag is set, whose classes it takes.
///
/// # Errors
/// As `unary_over`.
#[tactic(auto, using(crate::proofs::Operators::right_told, crate::proofs::Operators::left_told, crate::proofs::Heights::scalar_short))]
pub(crate) fn scalar_over(
    alloc: Global,
    op: Binary,
    a: &Column,
    b: &Cell<'_>,
    scalar_left: bool,
) -> Result<Column, OpFault>
    requires { IsOk (scalar_class op scalar_left (class_of_cell (seen b.now)) a.now.class) }
    ensures class { IfOk result (λ c. scalar_class op scalar_left (class_of_cell (seen b.now)) a.now.class ≡ Ok c.class) }
    ensures height { IfOk result (λ c. length c.cells ≤ length a.now.cells) }
    ensures right { scalar_left ≡ false → (at : At) (x : Outcome) → Shows x a.now.cells → Tells at (rows_in x) (elementwise_two at op x (scalar (seen b.now))) result }
    ensures left { scalar_left ≡ true → (at : At) (x : Outcome) → Shows x a.now.cells → Tells at (rows_in x) (elementwise_two at op (scalar (seen b.now)) x) result }
{
    map_scalar(alloc, op, a, b, scalar_left)
}

/// The operator at each row of two columns whose classes it takes. Columns of unequal lengths, which files that change
/// can give, are cut to the shorter one.
///
/// # Errors
/// As `unary_over`.
#[tactic(auto, using(crate::proofs::Operators::binary_told, crate::proofs::Heights::binary_short))]
pub(crate) fn binary_over(
    alloc: Global,
    op: Binary,
    a: &Column,
    b: &Column,
) -> Result<Column, OpFault>
    requires { IsOk (binary_class op a.now.class false b.now.class false) }
    ensures class { IfOk result (λ c. binary_class op a.now.class false b.now.class false ≡ Ok c.class) }
    ensures height { IfOk result (λ c. length c.cells ≤ length a.now.cells) }
    ensures rows { length b.now.cells ≡ length a.now.cells → (at : At) (x y : Outcome) → Shows x a.now.cells → Shows y b.now.cells → Tells at (rows_in x) (elementwise_two at op x y) result }
{
    if a.len() == b.len() {
        return map_binary(alloc, op, a, b);
    }
    let rows = a.len().min(b.len());
    map_binary(alloc, op, &a.slice(0, rows)?, &b.slice(0, rows)?)
}

/// The rows of a column where a logical column is true. Columns of unequal lengths, which files that change can give, are cut
/// to the shorter one. Refused for want of memory alone.
pub(crate) fn filter_over(a: &Column, mask: &Column) -> Result<Column, AllocError>
    requires { mask.now.class ≡ class.Logical }
    ensures class { IfOk result (λ c. c.class ≡ a.now.class) }
    ensures height { IfOk result (λ c. length c.cells ≤ length a.now.cells) }
    ensures rows { IfOk result (λ c. length mask.now.cells ≡ length a.now.cells → (x m : Outcome) → Shows x a.now.cells → Shows m mask.now.cells → Shows (of_rows (kept (rows_in x) (cells_in m))) c.cells) }
{
    if a.len() == mask.len() {
        return a.filter(mask);
    }
    let rows = a.len().min(mask.len());
    a.slice(0, rows)?.filter(&mask.slice(0, rows)?)
}
