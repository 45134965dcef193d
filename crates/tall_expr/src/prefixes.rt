//! Signs before an operand. Their number has no bound, so they are read by a loop, and so is what they make of the operand.
ghost use Rattle.std.specs.Prelude.{◌≡◌, reverse, []};
ghost use Rattle.tall_grammar.specs.ExprReader as spec;
ghost use Rattle.tall_expr.specs.Gives.{Gives, kept_by};
ghost use Rattle.tall_grammar.specs.Views.{tree_of};

use crate::cursor::Cursor;
use crate::kept;
use crate::kept::Kept;
use sqlite_items::Items;
use std::alloc::Global;
use tall_grammar::expressions::{Expr, Prefix};
use tall_grammar::faults::Fault;

/// The signs that come next, in their order.
pub fn signs(alloc: Global, tokens: &mut Cursor<'_>, turns: usize) -> Result<Items<Prefix>, Fault>
    ensures { Gives reverse (spec.signs_from turns [] tokens.old) result tokens.new }
{
    let mut found = Items::new(alloc);
    for _turn in 0..turns {
        let Some(sign) = tokens.prefix() else {
            return Ok(found);
        };
        tokens.take();
        found.push(sign)?;
    }
    Err(Fault::OutOfTurns)
}

/// The operand behind these signs. The last one stands next to it.
pub fn signed(
    alloc: Global,
    tokens: &mut Cursor<'_>,
    line: u32,
    mut signs: Items<Prefix>,
    mut operand: Kept<Expr>,
) -> Result<Kept<Expr>, Fault>
    ensures { Gives (kept_by tree_of) (spec.signed line (reverse signs) (kept_by tree_of operand) tokens.old) result tokens.new }
{
    while let Some(sign) = signs.pop() {
        operand = kept::prefixed(alloc, tokens.number()?, line, sign, operand)?;
    }
    Ok(operand)
}
