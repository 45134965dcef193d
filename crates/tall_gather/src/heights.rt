//! Columns of one height.
ghost use Rattle.std.specs.Prelude.{◌≡◌, ◌≤◌, IfOk, length};

use std::alloc::AllocError;
use tall_column::Column;

/// Two columns, each cut to the lesser height of both: columns that have one height by the definitions have several where a
/// file changed between two passes. Refused for want of memory alone.
pub(crate) fn cut_to_lesser(x: &Column, y: &Column) -> Result<(Column, Column), AllocError>
    ensures classes { IfOk result (λ p. (p.0.class ≡ x.now.class) × (p.1.class ≡ y.now.class)) }
    ensures even { IfOk result (λ p. length p.1.cells ≡ length p.0.cells) }
    ensures short { IfOk result (λ p. length p.0.cells ≤ length x.now.cells) }
    ensures whole { length y.now.cells ≡ length x.now.cells → IfOk result (λ p. (p.0 ≡ x.now) × (p.1 ≡ y.now)) }
{
    let height = x.len().min(y.len());
    let first = x.slice(0, height)?;
    let last = y.slice(0, height)?;
    Ok((first, last))
}
