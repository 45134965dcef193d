//! The rules of expressions. They take the reader of the expressions inside as a parameter, so that each is proved by
//! itself.
ghost use Rattle.std.specs.Prelude.{◌≡◌, map};
ghost use Rattle.tall_grammar.specs.ExprReader as spec;
ghost use Rattle.tall_grammar.specs.ExprReader.{expr_within};
ghost use Rattle.tall_grammar.specs.Kept.{no_arguments};
ghost use Rattle.tall_expr.specs.Nests.{Nests};
ghost use Rattle.tall_expr.specs.Gives.{Gives, kept_by};
ghost use Rattle.tall_grammar.specs.Views.{tree_of, arg_of};

use crate::cursor::Cursor;
use crate::kept::Kept;
use crate::prefixes::{signed, signs};
use crate::values::{number_value, text_value};
use crate::{kept, nodes, text_lists};
use sqlite_items::Items;
use std::alloc::Global;
use tall_grammar::expressions::{Arg, Expr};
use tall_grammar::faults::Fault;
use tall_value::Name;

/// How expressions are read.
#[derive(Clone, Copy)]
struct Grammar<F> {
    alloc: Global,
    /// The greatest number of turns of a loop: no fewer than the tokens.
    turns: usize,
    /// How many expressions may still stand inside one another.
    depth: usize,
    /// The line of the expressions.
    line: u32,
    /// What reads an expression inside.
    expr: F,
}

impl<F: Fn(Global, &mut Cursor<'_>, usize, usize, u32) -> Result<Kept<Expr>, Fault>> Grammar<F> {
    fn expr(&self, tokens: &mut Cursor<'_>) -> Result<Kept<Expr>, Fault>
        requires { Nests self.now.turns self.now.depth (F.pre self.now.expr) (F.post self.now.expr) }
        ensures { Gives (kept_by tree_of) (expr_within self.now.turns self.now.depth self.now.line tokens.old) result tokens.new }
    {
        (self.expr)(self.alloc, tokens, self.turns, self.depth, self.line)
    }

    fn number(&self, tokens: &mut Cursor<'_>) -> Result<Kept<Expr>, Fault>
        ensures { Gives (kept_by tree_of) (spec.number_leaf self.now.line tokens.old) result tokens.new }
    {
        let value = number_value(tokens.take_number()?);
        Ok(Some((nodes::number(tokens.number()?, self.line, value), 1)))
    }

    fn text(&self, tokens: &mut Cursor<'_>) -> Result<Kept<Expr>, Fault>
        ensures { Gives (kept_by tree_of) (spec.text_leaf self.now.line tokens.old) result tokens.new }
    {
        let value = text_value(self.alloc, tokens.take_text()?)?;
        Ok(Some((nodes::text(tokens.number()?, self.line, value), 1)))
    }

    fn name(&self, tokens: &mut Cursor<'_>) -> Result<Kept<Expr>, Fault>
        ensures { Gives (kept_by tree_of) (spec.name_leaf self.now.line tokens.old) result tokens.new }
    {
        let name = Name::of(self.alloc, tokens.take_name()?)?;
        Ok(Some((nodes::name(tokens.number()?, self.line, name), 1)))
    }

    fn handle(&self, tokens: &mut Cursor<'_>) -> Result<Kept<Expr>, Fault>
        ensures { Gives (kept_by tree_of) (spec.a_handle self.now.line tokens.old) result tokens.new }
    {
        tokens.expect_sign(b"@")?;
        let name = Name::of(self.alloc, tokens.take_name()?)?;
        Ok(Some((nodes::handle(tokens.number()?, self.line, name), 1)))
    }

    fn in_parentheses(&self, tokens: &mut Cursor<'_>) -> Result<Kept<Expr>, Fault>
        requires { Nests self.now.turns self.now.depth (F.pre self.now.expr) (F.post self.now.expr) }
        ensures { Gives (kept_by tree_of) (spec.in_parentheses (expr_within self.now.turns self.now.depth) self.now.turns self.now.line tokens.old) result tokens.new }
    {
        let inner = self.expr(tokens)?;
        tokens.expect_sign(b")")?;
        Ok(inner)
    }

    /// What begins with a sign.
    fn signed_primary(&self, tokens: &mut Cursor<'_>) -> Result<Kept<Expr>, Fault>
        requires { Nests self.now.turns self.now.depth (F.pre self.now.expr) (F.post self.now.expr) }
        ensures { Gives (kept_by tree_of) (spec.signed_primary (expr_within self.now.turns self.now.depth) self.now.turns self.now.line tokens.old) result tokens.new }
    {
        if tokens.is_sign(b"(") {
            tokens.take();
            self.in_parentheses(tokens)
        } else if tokens.is_sign(b"{") {
            tokens.take();
            text_lists::in_braces(self.alloc, tokens, self.turns, self.line)
        } else if tokens.is_sign(b"[") {
            tokens.take();
            text_lists::in_brackets(self.alloc, tokens, self.turns, self.line)
        } else {
            self.handle(tokens)
        }
    }

    fn primary(&self, tokens: &mut Cursor<'_>) -> Result<Kept<Expr>, Fault>
        requires { Nests self.now.turns self.now.depth (F.pre self.now.expr) (F.post self.now.expr) }
        ensures { Gives (kept_by tree_of) (spec.primary (expr_within self.now.turns self.now.depth) self.now.turns self.now.line tokens.old) result tokens.new }
    {
        if tokens.is_number() {
            self.number(tokens)
        } else if tokens.is_text() {
            self.text(tokens)
        } else if tokens.is_name() {
            self.name(tokens)
        } else {
            self.signed_primary(tokens)
        }
    }

    fn arg(&self, tokens: &mut Cursor<'_>) -> Result<Kept<Arg>, Fault>
        requires { Nests self.now.turns self.now.depth (F.pre self.now.expr) (F.post self.now.expr) }
        ensures { Gives (kept_by arg_of) (spec.arg (expr_within self.now.turns self.now.depth) self.now.turns self.now.line tokens.old) result tokens.new }
    {
        if tokens.is_sign(b":") {
            tokens.take();
            return Ok(kept::colon());
        }
        Ok(kept::value(self.expr(tokens)?))
    }

    /// Arguments with a comma between two.
    fn args(&self, tokens: &mut Cursor<'_>) -> Result<Kept<Items<Arg>>, Fault>
        requires { Nests self.now.turns self.now.depth (F.pre self.now.expr) (F.post self.now.expr) }
        ensures { Gives (kept_by (map arg_of)) (spec.args_from (expr_within self.now.turns self.now.depth) self.now.turns self.now.line self.now.turns no_arguments tokens.old) result tokens.new }
    {
        let mut found = kept::no_arguments(self.alloc);
        for _turn in 0..self.turns {
            found = kept::and_argument(found, self.arg(tokens)?)?;
            if !tokens.is_sign(b",") {
                return Ok(found);
            }
            tokens.take();
        }
        Err(Fault::OutOfTurns)
    }

    /// Arguments behind the parenthesis that opens, with the one that closes.
    fn closed_args(&self, tokens: &mut Cursor<'_>) -> Result<Kept<Items<Arg>>, Fault>
        requires { Nests self.now.turns self.now.depth (F.pre self.now.expr) (F.post self.now.expr) }
        ensures { Gives (kept_by (map arg_of)) (spec.closed_args (expr_within self.now.turns self.now.depth) self.now.turns self.now.line tokens.old) result tokens.new }
    {
        if tokens.is_sign(b")") {
            tokens.take();
            return Ok(kept::no_arguments(self.alloc));
        }
        let args = self.args(tokens)?;
        tokens.expect_sign(b")")?;
        Ok(args)
    }

    /// A member behind its point.
    fn member(&self, tokens: &mut Cursor<'_>, whole: Kept<Expr>) -> Result<Kept<Expr>, Fault>
        ensures { Gives (kept_by tree_of) (spec.member_step self.now.line (kept_by tree_of whole) tokens.old) result tokens.new }
    {
        let name = Name::of(self.alloc, tokens.take_name()?)?;
        let number = tokens.number()?;
        Ok(kept::member(self.alloc, number, self.line, whole, name)?)
    }

    /// A call behind its parenthesis.
    fn call(&self, tokens: &mut Cursor<'_>, called: Kept<Expr>) -> Result<Kept<Expr>, Fault>
        requires { Nests self.now.turns self.now.depth (F.pre self.now.expr) (F.post self.now.expr) }
        ensures { Gives (kept_by tree_of) (spec.call_step (expr_within self.now.turns self.now.depth) self.now.turns self.now.line (kept_by tree_of called) tokens.old) result tokens.new }
    {
        let args = self.closed_args(tokens)?;
        let number = tokens.number()?;
        Ok(kept::call(self.alloc, number, self.line, called, args)?)
    }

    /// Members and calls behind a primary expression.
    fn post_from(&self, tokens: &mut Cursor<'_>, first: Kept<Expr>) -> Result<Kept<Expr>, Fault>
        requires { Nests self.now.turns self.now.depth (F.pre self.now.expr) (F.post self.now.expr) }
        ensures { Gives (kept_by tree_of) (spec.post_from (expr_within self.now.turns self.now.depth) self.now.turns self.now.line self.now.turns (kept_by tree_of first) tokens.old) result tokens.new }
    {
        let mut whole = first;
        for _turn in 0..self.turns {
            if tokens.is_sign(b".") {
                tokens.take();
                whole = self.member(tokens, whole)?;
            } else if tokens.is_sign(b"(") {
                tokens.take();
                whole = self.call(tokens, whole)?;
            } else {
                return Ok(whole);
            }
        }
        Err(Fault::OutOfTurns)
    }

    /// A primary expression with what stands before and behind it.
    fn pre(&self, tokens: &mut Cursor<'_>) -> Result<Kept<Expr>, Fault>
        requires { Nests self.now.turns self.now.depth (F.pre self.now.expr) (F.post self.now.expr) }
        ensures { Gives (kept_by tree_of) (spec.pre (expr_within self.now.turns self.now.depth) self.now.turns self.now.line tokens.old) result tokens.new }
    {
        let signs = signs(self.alloc, tokens, self.turns)?;
        let first = self.primary(tokens)?;
        let operand = self.post_from(tokens, first)?;
        signed(self.alloc, tokens, self.line, signs, operand)
    }

    /// An expression of a level: 0 has no operators between operands, 5 has all of them.
    fn level(&self, tokens: &mut Cursor<'_>, level: u32) -> Result<Kept<Expr>, Fault>
        requires { Nests self.now.turns self.now.depth (F.pre self.now.expr) (F.post self.now.expr) }
        ensures { Gives (kept_by tree_of) (spec.level (expr_within self.now.turns self.now.depth) self.now.turns self.now.line level tokens.old) result tokens.new }
    {
        if level == 0 {
            return self.pre(tokens);
        }
        let mut left = self.level(tokens, level - 1)?;
        for _turn in 0..self.turns {
            let Some(operator) = tokens.operator(level - 1) else {
                return Ok(left);
            };
            tokens.take();
            let right = self.level(tokens, level - 1)?;
            left = kept::joined(
                self.alloc,
                tokens.number()?,
                self.line,
                operator,
                left,
                right,
            )?;
        }
        Err(Fault::OutOfTurns)
    }
}

/// An expression on a line, of at most so many others inside one another. `turns` is no fewer than the tokens. Where
/// either number runs out the answer is `Fault::OutOfTurns`.
pub fn expr(
    alloc: Global,
    tokens: &mut Cursor<'_>,
    turns: usize,
    depth: usize,
    line: u32,
) -> Result<Kept<Expr>, Fault>
    ensures { Gives (kept_by tree_of) (expr_within turns depth line tokens.old) result tokens.new }
{
    if depth == 0 {
        return Err(Fault::OutOfTurns);
    }
    Grammar {
        alloc,
        turns,
        depth: depth - 1,
        line,
        expr,
    }
    .level(tokens, 5)
}

/// The arguments of a call on a line, behind its parenthesis, with the parenthesis that closes. `turns` and `depth` are
/// those of `expr`.
pub fn args(
    alloc: Global,
    tokens: &mut Cursor<'_>,
    turns: usize,
    depth: usize,
    line: u32,
) -> Result<Kept<Items<Arg>>, Fault>
    ensures { Gives (kept_by (map arg_of)) (spec.closed_args (expr_within turns depth) turns line tokens.old) result tokens.new }
{
    Grammar {
        alloc,
        turns,
        depth,
        line,
        expr,
    }
    .closed_args(tokens)
}
