//! The statements of functions. The rules take the reader of the blocks inside as a parameter, so that each is proved by
//! itself.
ghost use Rattle.std.specs.Prelude.{◌≡◌, map, Ok, []};
ghost use Rattle.tall_grammar.specs.Kept.{with_it, and_last};
ghost use Rattle.tall_expr.specs.Gives.{Gives};
ghost use Rattle.tall_grammar.specs.ScriptReader as spec;
ghost use Rattle.tall_grammar.specs.ScriptReader.{steps_within};
ghost use Rattle.tall_parse.specs.StepViews.{NestsBlocks, arm_of};
ghost use Rattle.tall_grammar.specs.Views.{step_of};

use crate::statements::Reading;
use crate::step_nodes::{added, arm, assigned, chosen, counted, looped};
use sqlite_items::Items;
use tall_expr::cursor::Cursor;
use tall_expr::flagged::{Flagged, and_last};
use tall_grammar::faults::Fault;
use tall_grammar::steps::{Arm, FunctionStep};
use tall_value::Name;

impl Reading {
    /// An assignment behind its name.
    fn named_assignment(
        &self,
        tokens: &mut Cursor<'_>,
        line: u32,
        name: Name,
    ) -> Result<Flagged<FunctionStep>, Fault>
        ensures { Gives (with_it step_of) (spec.named_assignment self.now.turns self.now.depth line name tokens.old) result tokens.new }
    {
        tokens.expect_sign(b"=")?;
        let value = self.expr(tokens, line)?;
        Ok(assigned(line, name, value))
    }

    /// A pair that is added, behind the parenthesis that opens.
    fn adding(&self, tokens: &mut Cursor<'_>, line: u32) -> Result<Flagged<FunctionStep>, Fault>
        ensures { Gives (with_it step_of) (spec.adding self.now.turns self.now.depth line tokens.old) result tokens.new }
    {
        let store = self.expr(tokens, line)?;
        tokens.expect_sign(b",")?;
        let key = self.expr(tokens, line)?;
        tokens.expect_sign(b",")?;
        let value = self.expr(tokens, line)?;
        tokens.expect_sign(b")")?;
        Ok(added(line, store, key, value))
    }

    /// A statement behind the name that begins it.
    fn named_step(
        &self,
        tokens: &mut Cursor<'_>,
        line: u32,
        name: Name,
    ) -> Result<Flagged<FunctionStep>, Fault>
        ensures { Gives (with_it step_of) (spec.named_step self.now.turns self.now.depth line name tokens.old) result tokens.new }
    {
        if name.as_str() == "add" && tokens.is_sign(b"(") {
            tokens.take();
            return self.adding(tokens, line);
        }
        self.named_assignment(tokens, line, name)
    }
}

/// How the blocks of functions are read.
#[derive(Clone, Copy)]
struct Blocks<F> {
    reading: Reading,
    /// How many blocks may still stand inside one another.
    blocks: usize,
    /// What reads the statements of a block inside.
    steps: F,
}

impl<F: Fn(Reading, &mut Cursor<'_>, usize) -> Result<Flagged<Items<FunctionStep>>, Fault>> Blocks<
    F,
> {
    fn inner(&self, tokens: &mut Cursor<'_>) -> Result<Flagged<Items<FunctionStep>>, Fault>
        requires { NestsBlocks self.now.reading self.now.blocks (F.pre self.now.steps) (F.post self.now.steps) }
        ensures { Gives (with_it (map step_of)) (steps_within self.now.reading.turns self.now.reading.depth self.now.blocks tokens.old) result tokens.new }
    {
        (self.steps)(self.reading, tokens, self.blocks)
    }

    /// A condition on a line, and what it governs.
    fn arm(&self, tokens: &mut Cursor<'_>, line: u32) -> Result<Flagged<Arm>, Fault>
        requires { NestsBlocks self.now.reading self.now.blocks (F.pre self.now.steps) (F.post self.now.steps) }
        ensures { Gives (with_it arm_of) (spec.arm self.now.reading.turns self.now.reading.depth (steps_within self.now.reading.turns self.now.reading.depth self.now.blocks) line tokens.old) result tokens.new }
    {
        let condition = self.reading.expr(tokens, line)?;
        tokens.separators()?;
        let body = self.inner(tokens)?;
        Ok(arm(condition, body))
    }

    /// The arms that follow the first one.
    fn arms_from(
        &self,
        tokens: &mut Cursor<'_>,
        first: Flagged<Arm>,
    ) -> Result<Flagged<Items<Arm>>, Fault>
        requires { NestsBlocks self.now.reading self.now.blocks (F.pre self.now.steps) (F.post self.now.steps) }
        ensures { Gives (with_it (map arm_of)) (spec.arms_from self.now.reading.turns self.now.reading.depth (steps_within self.now.reading.turns self.now.reading.depth self.now.blocks) self.now.reading.turns (and_last (Ok []) (with_it arm_of first)) tokens.old) result tokens.new }
    {
        let mut found = and_last(Ok(Items::new(self.reading.alloc)), first)?;
        for _turn in 0..self.reading.turns {
            let Some(line) = tokens.word_line(b"elseif") else {
                return Ok(found);
            };
            tokens.take();
            found = and_last(found, self.arm(tokens, line)?)?;
        }
        Err(Fault::OutOfTurns)
    }

    /// What is done where no condition holds.
    fn rest_arm(&self, tokens: &mut Cursor<'_>) -> Result<Flagged<Items<FunctionStep>>, Fault>
        requires { NestsBlocks self.now.reading self.now.blocks (F.pre self.now.steps) (F.post self.now.steps) }
        ensures { Gives (with_it (map step_of)) (spec.rest_arm self.now.reading.turns self.now.reading.depth (steps_within self.now.reading.turns self.now.reading.depth self.now.blocks) tokens.old) result tokens.new }
    {
        if !tokens.is_word(b"else") {
            return Ok(Ok(Items::new(self.reading.alloc)));
        }
        tokens.take();
        tokens.skip_separators();
        self.inner(tokens)
    }

    /// A choice behind its word.
    fn choosing(&self, tokens: &mut Cursor<'_>, line: u32) -> Result<Flagged<FunctionStep>, Fault>
        requires { NestsBlocks self.now.reading self.now.blocks (F.pre self.now.steps) (F.post self.now.steps) }
        ensures { Gives (with_it step_of) (spec.choosing self.now.reading.turns self.now.reading.depth (steps_within self.now.reading.turns self.now.reading.depth self.now.blocks) line tokens.old) result tokens.new }
    {
        let first = self.arm(tokens, line)?;
        let arms = self.arms_from(tokens, first)?;
        let rest = self.rest_arm(tokens)?;
        tokens.expect_word(b"end")?;
        Ok(chosen(line, arms, rest))
    }

    /// A loop under a condition, behind its word.
    fn looping(&self, tokens: &mut Cursor<'_>, line: u32) -> Result<Flagged<FunctionStep>, Fault>
        requires { NestsBlocks self.now.reading self.now.blocks (F.pre self.now.steps) (F.post self.now.steps) }
        ensures { Gives (with_it step_of) (spec.looping self.now.reading.turns self.now.reading.depth (steps_within self.now.reading.turns self.now.reading.depth self.now.blocks) line tokens.old) result tokens.new }
    {
        let arm = self.arm(tokens, line)?;
        tokens.expect_word(b"end")?;
        Ok(looped(line, arm))
    }

    /// A loop over numbers, behind its word.
    fn counting(&self, tokens: &mut Cursor<'_>, line: u32) -> Result<Flagged<FunctionStep>, Fault>
        requires { NestsBlocks self.now.reading self.now.blocks (F.pre self.now.steps) (F.post self.now.steps) }
        ensures { Gives (with_it step_of) (spec.counting self.now.reading.turns self.now.reading.depth (steps_within self.now.reading.turns self.now.reading.depth self.now.blocks) line tokens.old) result tokens.new }
    {
        let name = self.reading.name(tokens)?;
        tokens.expect_sign(b"=")?;
        let from = self.reading.expr(tokens, line)?;
        tokens.expect_sign(b":")?;
        let arm = self.arm(tokens, line)?;
        tokens.expect_word(b"end")?;
        Ok(counted(line, name, from, arm))
    }

    fn step(&self, tokens: &mut Cursor<'_>, line: u32) -> Result<Flagged<FunctionStep>, Fault>
        requires { NestsBlocks self.now.reading self.now.blocks (F.pre self.now.steps) (F.post self.now.steps) }
        ensures { Gives (with_it step_of) (spec.step self.now.reading.turns self.now.reading.depth (steps_within self.now.reading.turns self.now.reading.depth self.now.blocks) line tokens.old) result tokens.new }
    {
        if tokens.is_name() {
            let name = self.reading.name(tokens)?;
            self.reading.named_step(tokens, line, name)
        } else if tokens.is_word(b"if") {
            tokens.take();
            self.choosing(tokens, line)
        } else if tokens.is_word(b"while") {
            tokens.take();
            self.looping(tokens, line)
        } else {
            tokens.expect_word(b"for")?;
            self.counting(tokens, line)
        }
    }

    /// Statements, each with its separators.
    fn steps(&self, tokens: &mut Cursor<'_>) -> Result<Flagged<Items<FunctionStep>>, Fault>
        requires { NestsBlocks self.now.reading self.now.blocks (F.pre self.now.steps) (F.post self.now.steps) }
        ensures { Gives (with_it (map step_of)) (spec.steps_from self.now.reading.turns self.now.reading.depth (steps_within self.now.reading.turns self.now.reading.depth self.now.blocks) self.now.reading.turns (Ok []) tokens.old) result tokens.new }
    {
        let mut found = Ok(Items::new(self.reading.alloc));
        for _turn in 0..self.reading.turns {
            if !tokens.begins_step() {
                return Ok(found);
            }
            let line = tokens.line();
            let step = self.step(tokens, line)?;
            tokens.separators()?;
            found = and_last(found, step)?;
        }
        Err(Fault::OutOfTurns)
    }
}

/// The statements of a function, of which at most so many stand inside one another.
pub fn steps(
    reading: Reading,
    tokens: &mut Cursor<'_>,
    blocks: usize,
) -> Result<Flagged<Items<FunctionStep>>, Fault>
    ensures { Gives (with_it (map step_of)) (steps_within reading.turns reading.depth blocks tokens.old) result tokens.new }
{
    if blocks == 0 {
        return Err(Fault::OutOfTurns);
    }
    Blocks {
        reading,
        blocks: blocks - 1,
        steps,
    }
    .steps(tokens)
}
