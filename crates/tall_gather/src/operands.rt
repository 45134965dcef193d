//! Operands whose values are known.
ghost use Rattle.std.specs.Prelude.{◌≡◌, IfNone, IfSome, None, Some};
ghost use Rattle.tall_fuse.specs.Kept.{found};
ghost use Rattle.tall_gather.specs.Smalls.{found_in};

use tall_column::Column;
use tall_fuse::Known;
use tall_graph::NodeId;

/// What is known of an operand: its column, with the numbers of its rows; a scalar is one cell without a number.
#[derive(Clone, Copy)]
pub(crate) struct Operand<'a> {
    pub column: &'a Column,
    pub numbers: &'a [u64],
}

/// What is known of a node, if anything is.
pub(crate) fn known_operand<'a>(known: &'a Known, n: NodeId) -> Option<Operand<'a>>
    ensures some { IfSome result (λ x. found known.now n ≡ Some (found_in x)) }
    ensures none { IfNone result (found known.now n ≡ None) }
{
    match known.result(n) {
        Some(column) => match known.rows(n) {
            Some(numbers) => Some(Operand { column, numbers }),
            None => None,
        },
        None => None,
    }
}
