//! Functions, and scripts.
ghost use Rattle.std.specs.Prelude.{◌≡◌, ℕ, List, map, Ok, [], ◌∷◌, IfOk, OnOk};
ghost use Rattle.tall_grammar.specs.Kept.{with_it, with_both};
ghost use Rattle.tall_parse.specs.ReaderParts.{and_parameter};
ghost use Rattle.tall_expr.specs.Gives.{Gives, itself};
ghost use Rattle.tall_parse.specs.FunctionNames.{Holds, texts_of};
ghost use Rattle.tall_grammar.specs.Readers.{take_as};
ghost use Rattle.tall_grammar.specs.ScriptReader as spec;
ghost use Rattle.tall_grammar.specs.Views.{step_of, entry_of, routine_of, program_of};

use crate::function_steps;
use crate::statements::Reading;
use sqlite_items::Items;
use std::alloc::{AllocError, Global};
use std::collections::BTreeSet;
use tall_expr::cursor::Cursor;
use tall_expr::flagged::{Flagged, and_last};
use tall_grammar::faults::Fault;
use tall_grammar::scripts::{Function, Script, Statement};
use tall_grammar::steps::FunctionStep;
use tall_value::Name;

/// A function of these parts.
fn function(
    line: u32,
    name: Name,
    params: Items<Option<Name>>,
    body: Flagged<Items<FunctionStep>>,
) -> Flagged<Function>
    ensures { with_it routine_of result ≡ with_it (spec.routine line name params) (with_it (map step_of) body) }
{
    match body {
        Ok(body) => Ok(Function {
            name,
            line,
            params,
            body,
        }),
        Err(high) => Err(high),
    }
}

/// A script of these parts.
fn script(
    statements: Flagged<Items<Statement>>,
    functions: Flagged<Items<Function>>,
) -> Flagged<Script>
    ensures { with_it program_of result ≡ with_both spec.program_of_parts (with_it (map entry_of) statements) (with_it (map routine_of) functions) }
{
    match (statements, functions) {
        (Ok(statements), Ok(functions)) => Ok(Script {
            statements,
            functions,
        }),
        (Ok(_), Err(high)) => Err(high),
        (Err(high), _) => Err(high),
    }
}

/// Adds a name.
fn add_name(alloc: Global, names: &mut BTreeSet<String>, name: &str) -> Result<(), AllocError>
    ensures { OnOk result (Holds names.new (name.now ∷ texts_of names.old)) }
{
    let key = String::from_str(alloc, name)?;
    names.insert(key)?;
    Ok(())
}

impl Reading {
    /// A parameter: its name, or none where it is `~`.
    fn parameter(&self, tokens: &mut Cursor<'_>) -> Result<Option<Name>, Fault>
        ensures { Gives itself (spec.parameter tokens.old) result tokens.new }
    {
        if tokens.is_name() {
            return Ok(Some(self.name(tokens)?));
        }
        tokens.expect_sign(b"~")?;
        Ok(None)
    }

    /// A parameter, the sign behind it, and it with those before.
    fn and_parameter(
        &self,
        tokens: &mut Cursor<'_>,
        sign: &[u8],
        params: &mut Items<Option<Name>>,
    ) -> Result<(), Fault>
        ensures { Gives (λ _. params.new) (and_parameter sign.now params.old tokens.old) result tokens.new }
    {
        let param = self.parameter(tokens)?;
        tokens.expect_sign(sign)?;
        params.push(param)?;
        Ok(())
    }

    /// The three parameters in their parentheses.
    fn parameters(&self, tokens: &mut Cursor<'_>) -> Result<Items<Option<Name>>, Fault>
        ensures { Gives itself (spec.parameters tokens.old) result tokens.new }
    {
        let mut params = Items::new(self.alloc);
        tokens.expect_sign(b"(")?;
        self.and_parameter(tokens, b",", &mut params)?;
        self.and_parameter(tokens, b",", &mut params)?;
        self.and_parameter(tokens, b")", &mut params)?;
        Ok(params)
    }

    /// A function behind its name.
    fn function_rest(
        &self,
        tokens: &mut Cursor<'_>,
        line: u32,
        name: Name,
    ) -> Result<Flagged<Function>, Fault>
        ensures { Gives (with_it routine_of) (spec.function_rest self.now.turns self.now.depth line name tokens.old) result tokens.new }
    {
        let params = self.parameters(tokens)?;
        tokens.separators()?;
        let body = function_steps::steps(*self, tokens, self.depth)?;
        tokens.expect_word(b"end")?;
        tokens.skip_separators();
        Ok(function(line, name, params, body))
    }

    /// Takes the name of a function, which none before has, and adds it to theirs.
    fn new_name(
        &self,
        tokens: &mut Cursor<'_>,
        before: &mut BTreeSet<String>,
    ) -> Result<Name, Fault>
        ensures taken { (names : List (List ℕ)) → Holds before.old names → Gives itself (take_as (spec.new_name names) tokens.old) result tokens.new }
        ensures added { IfOk result (λ name. (names : List (List ℕ)) → Holds before.old names → Holds before.new (name ∷ names)) }
    {
        let text = tokens.take_new_name(before)?;
        add_name(self.alloc, before, text)?;
        Ok(Name::of(self.alloc, text)?)
    }

    /// The functions up to the end of the text, each with a name of its own.
    fn functions(&self, tokens: &mut Cursor<'_>) -> Result<Flagged<Items<Function>>, Fault>
        ensures { Gives (with_it (map routine_of)) (spec.functions_from self.now.turns self.now.depth self.now.turns [] (Ok []) tokens.old) result tokens.new }
    {
        let mut before = BTreeSet::new(self.alloc);
        let mut found = Ok(Items::new(self.alloc));
        for _turn in 0..self.turns {
            if tokens.is_at_end() {
                return Ok(found);
            }
            let line = tokens.line();
            tokens.expect_word(b"function")?;
            let name = self.new_name(tokens, &mut before)?;
            let next = self.function_rest(tokens, line, name)?;
            found = and_last(found, next)?;
        }
        Err(Fault::OutOfTurns)
    }

    /// A script, or the line of the first expression in it that is higher than it may be. The tokens are read to their
    /// end, or up to the first one with which no script goes on, where the answer is `Fault::Stop`.
    pub fn script(&self, tokens: &mut Cursor<'_>) -> Result<Flagged<Script>, Fault>
        ensures { Gives (with_it program_of) (spec.program self.now.turns self.now.depth tokens.old) result tokens.new }
    {
        tokens.skip_separators();
        let statements = self.statements(tokens)?;
        let functions = self.functions(tokens)?;
        Ok(script(statements, functions))
    }
}
