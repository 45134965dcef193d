//! The statements of a script.
ghost use Rattle.std.specs.Prelude.{◌≡◌, map, Ok, []};
ghost use Rattle.tall_grammar.specs.Kept.{with_it};
ghost use Rattle.tall_parse.specs.ReaderParts.{args_on, gather_to};
ghost use Rattle.tall_grammar.specs.Readers.{take_text, is_name};
ghost use Rattle.tall_expr.specs.Gives.{Gives, itself};
ghost use Rattle.tall_grammar.specs.ScriptReader as spec;
ghost use Rattle.tall_grammar.specs.Views.{tree_of, arg_of, body_of, entry_of};

use sqlite_items::Items;
use std::alloc::Global;
use tall_expr::cursor::Cursor;
use tall_expr::flagged::{Flagged, and_last, settled};
use tall_expr::grammar;
use tall_grammar::expressions::{Arg, Expr};
use tall_grammar::faults::Fault;
use tall_grammar::scripts::{Form, Statement};
use tall_value::Name;

/// How a script is read. Where a number runs out the answer is `Fault::OutOfTurns`.
#[derive(Clone, Copy)]
pub struct Reading {
    /// Where what is read is kept.
    pub alloc: Global,
    /// The greatest number of turns of a loop: no fewer than the tokens.
    pub turns: usize,
    /// How many expressions, and how many blocks, may stand inside one another.
    pub depth: usize,
}

impl Reading {
    /// An expression on a line.
    pub fn expr(&self, tokens: &mut Cursor<'_>, line: u32) -> Result<Flagged<Expr>, Fault>
        ensures { Gives (with_it tree_of) (spec.expr_on self.now.turns self.now.depth line tokens.old) result tokens.new }
    {
        let kept = grammar::expr(self.alloc, tokens, self.turns, self.depth, line)?;
        Ok(settled(line, kept))
    }

    /// The arguments of a call, behind its parenthesis.
    fn args(&self, tokens: &mut Cursor<'_>, line: u32) -> Result<Flagged<Items<Arg>>, Fault>
        ensures { Gives (with_it (map arg_of)) (args_on self.now.turns self.now.depth line tokens.old) result tokens.new }
    {
        let kept = grammar::args(self.alloc, tokens, self.turns, self.depth, line)?;
        Ok(settled(line, kept))
    }

    /// A name.
    pub fn name(&self, tokens: &mut Cursor<'_>) -> Result<Name, Fault>
        ensures { Gives itself (take_text is_name tokens.old) result tokens.new }
    {
        Ok(Name::of(self.alloc, tokens.take_name()?)?)
    }

    /// Names, with a comma or without one between two.
    fn names(&self, tokens: &mut Cursor<'_>) -> Result<Items<Name>, Fault>
        ensures { Gives itself (spec.names self.now.turns self.now.depth tokens.old) result tokens.new }
    {
        let mut found = Items::new(self.alloc);
        found.push(self.name(tokens)?)?;
        for _turn in 0..self.turns {
            if !tokens.goes_on_with_name() {
                return Ok(found);
            }
            tokens.skip_comma();
            found.push(self.name(tokens)?)?;
        }
        Err(Fault::OutOfTurns)
    }

    fn assignment(&self, tokens: &mut Cursor<'_>, line: u32) -> Result<Flagged<Form>, Fault>
        ensures { Gives (with_it body_of) (spec.assignment self.now.turns self.now.depth line tokens.old) result tokens.new }
    {
        let name = self.name(tokens)?;
        tokens.expect_sign(b"=")?;
        match self.expr(tokens, line)? {
            Ok(value) => Ok(Ok(Form::Assign { name, value })),
            Err(high) => Ok(Err(high)),
        }
    }

    fn property_setting(&self, tokens: &mut Cursor<'_>, line: u32) -> Result<Flagged<Form>, Fault>
        ensures { Gives (with_it body_of) (spec.property_setting self.now.turns self.now.depth line tokens.old) result tokens.new }
    {
        let name = self.name(tokens)?;
        tokens.expect_sign(b".")?;
        let property = self.name(tokens)?;
        tokens.expect_sign(b"=")?;
        match self.expr(tokens, line)? {
            Ok(value) => Ok(Ok(Form::Property {
                name,
                property,
                value,
            })),
            Err(high) => Ok(Err(high)),
        }
    }

    /// A gather of the names, behind its parenthesis.
    fn gather_to(
        &self,
        tokens: &mut Cursor<'_>,
        line: u32,
        names: Items<Name>,
    ) -> Result<Flagged<Form>, Fault>
        ensures { Gives (with_it body_of) (gather_to self.now.turns self.now.depth line names tokens.old) result tokens.new }
    {
        match self.args(tokens, line)? {
            Ok(args) => Ok(Ok(Form::Gather { names, args })),
            Err(high) => Ok(Err(high)),
        }
    }

    fn gathering(&self, tokens: &mut Cursor<'_>, line: u32) -> Result<Flagged<Form>, Fault>
        ensures { Gives (with_it body_of) (spec.gathering self.now.turns self.now.depth line tokens.old) result tokens.new }
    {
        tokens.expect_sign(b"[")?;
        let names = self.names(tokens)?;
        tokens.expect_sign(b"]")?;
        tokens.expect_sign(b"=")?;
        tokens.expect_name(b"gather")?;
        tokens.expect_sign(b"(")?;
        self.gather_to(tokens, line, names)
    }

    fn bare_expression(&self, tokens: &mut Cursor<'_>, line: u32) -> Result<Flagged<Form>, Fault>
        ensures { Gives (with_it body_of) (spec.bare_expression self.now.turns self.now.depth line tokens.old) result tokens.new }
    {
        match self.expr(tokens, line)? {
            Ok(value) => Ok(Ok(Form::Bare(value))),
            Err(high) => Ok(Err(high)),
        }
    }

    fn form(&self, tokens: &mut Cursor<'_>, line: u32) -> Result<Flagged<Form>, Fault>
        ensures { Gives (with_it body_of) (spec.body self.now.turns self.now.depth line tokens.old) result tokens.new }
    {
        if tokens.begins_assignment() {
            self.assignment(tokens, line)
        } else if tokens.begins_property() {
            self.property_setting(tokens, line)
        } else if tokens.begins_targets() {
            self.gathering(tokens, line)
        } else {
            self.bare_expression(tokens, line)
        }
    }

    fn statement(&self, tokens: &mut Cursor<'_>) -> Result<Flagged<Statement>, Fault>
        ensures { Gives (with_it entry_of) (spec.on_line (spec.statement self.now.turns self.now.depth) tokens.old) result tokens.new }
    {
        let line = tokens.line();
        let form = self.form(tokens, line)?;
        let shown = tokens.ended()?;
        match form {
            Ok(form) => Ok(Ok(Statement { line, shown, form })),
            Err(high) => Ok(Err(high)),
        }
    }

    /// The statements up to the first function, or to the end of the text.
    pub fn statements(&self, tokens: &mut Cursor<'_>) -> Result<Flagged<Items<Statement>>, Fault>
        ensures { Gives (with_it (map entry_of)) (spec.statements_from self.now.turns self.now.depth self.now.turns (Ok []) tokens.old) result tokens.new }
    {
        let mut found = Ok(Items::new(self.alloc));
        for _turn in 0..self.turns {
            if tokens.ends_statements() {
                return Ok(found);
            }
            found = and_last(found, self.statement(tokens)?)?;
        }
        Err(Fault::OutOfTurns)
    }
}
