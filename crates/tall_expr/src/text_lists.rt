//! Lists of texts.
ghost use Rattle.std.specs.Prelude.{◌≡◌, map, codes};
ghost use Rattle.tall_grammar.specs.ExprReader as spec;
ghost use Rattle.tall_grammar.specs.Readers.{front_is, goes_on_with, is_text_token};
ghost use Rattle.tall_expr.specs.Gives.{Gives, kept_by};
ghost use Rattle.tall_grammar.specs.Views.{tree_of};

use crate::cursor::Cursor;
use crate::kept::Kept;
use crate::nodes;
use crate::values::text_value;
use sqlite_items::Items;
use std::alloc::Global;
use tall_grammar::expressions::Expr;
use tall_grammar::faults::Fault;

/// A text.
fn text(alloc: Global, tokens: &mut Cursor<'_>, line: u32) -> Result<Expr, Fault>
    ensures { Gives tree_of (spec.text_here line tokens.old) result tokens.new }
{
    let value = text_value(alloc, tokens.take_text()?)?;
    Ok(nodes::text(tokens.number()?, line, value))
}

/// Does a text come next, or a comma?
fn goes_on(tokens: &Cursor<'_>) -> bool
    ensures { result ≡ front_is (goes_on_with is_text_token) tokens.now.rest }
{
    tokens.is_text() || tokens.is_sign(b",")
}

/// Texts, with a comma or without one between two.
fn texts(
    alloc: Global,
    tokens: &mut Cursor<'_>,
    turns: usize,
    line: u32,
) -> Result<Items<Expr>, Fault>
    ensures { Gives (map tree_of) (spec.texts turns line tokens.old) result tokens.new }
{
    let mut found = Items::new(alloc);
    found.push(text(alloc, tokens, line)?)?;
    for _turn in 0..turns {
        if !goes_on(tokens) {
            return Ok(found);
        }
        tokens.skip_comma();
        found.push(text(alloc, tokens, line)?)?;
    }
    Err(Fault::OutOfTurns)
}

/// What follows on the texts of a list.
fn closed(
    tokens: &mut Cursor<'_>,
    bracket: &[u8],
    line: u32,
    texts: Items<Expr>,
) -> Result<Kept<Expr>, Fault>
    ensures { Gives (kept_by tree_of) (spec.closed_list line bracket.now (map tree_of texts) tokens.old) result tokens.new }
{
    tokens.expect_sign(bracket)?;
    let height = if texts.is_empty() { 1 } else { 2 };
    Ok(Some((nodes::list(tokens.number()?, line, texts), height)))
}

/// A list behind its brace.
pub fn in_braces(
    alloc: Global,
    tokens: &mut Cursor<'_>,
    turns: usize,
    line: u32,
) -> Result<Kept<Expr>, Fault>
    ensures { Gives (kept_by tree_of) (spec.list_in_braces turns line tokens.old) result tokens.new }
{
    if tokens.is_text() {
        let texts = texts(alloc, tokens, turns, line)?;
        closed(tokens, b"}", line, texts)
    } else {
        closed(tokens, b"}", line, Items::new(alloc))
    }
}

/// A list behind its bracket.
pub fn in_brackets(
    alloc: Global,
    tokens: &mut Cursor<'_>,
    turns: usize,
    line: u32,
) -> Result<Kept<Expr>, Fault>
    ensures { Gives (kept_by tree_of) (spec.list_in_brackets turns line tokens.old) result tokens.new }
{
    let texts = texts(alloc, tokens, turns, line)?;
    closed(tokens, b"]", line, texts)
}
