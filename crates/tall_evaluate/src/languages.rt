//! What a language tells of names, operators and indexes.
ghost use Rattle.std.specs.Prelude.{◌≡◌, IfOk, map, option_map};
ghost use Rattle.tall_value.specs.Cells.{double, text};
ghost use Rattle.tall_local.specs.Expressions.{answered, gives};
ghost use Rattle.tall_local.specs.Memory.{scalar, texts};
ghost use Rattle.tall_local.specs.Refusals.{stop_at, undefined};
ghost use Rattle.tall_evaluate.specs.Senses.{ArgumentsFit, DoesValue, Finds, IsFree, Laws, Refuses, Senses, argument_seen};

use tall_column::Texts;
use tall_grammar::{Infix, Prefix};
use tall_int::Whole;
use tall_value::{Name, Text};

/// Where an expression stands.
#[derive(Clone, Copy)]
pub struct Place {
    /// Its number in the script, from 1.
    pub number: u32,
    /// The line of its statement, from 1.
    pub line: u32,
}

/// What stands between the parentheses of a call or of an index.
#[derive(Drop)]
pub enum Argument<'a, W> {
    Given(W),
    /// `:`
    Colon,
    /// `@` with the name of a function that is there
    Function(&'a Name),
}

/// What names, operators and indexes mean. Its answers are those of a language of the definitions, `senses.defined`,
/// whatever its values mean; want of memory, and a failure that `blames` explains, may come at any time. What a call does is
/// told by a closure beside it, which may start threads as no method of an impl may.
pub trait Language {
    /// What may be called.
    type Function: Copy;

    /// A value.
    type Value: Drop;

    /// Why there is no value, with its line.
    type Failure: Drop;

    ghost F: { Type 0 };

    ghost V: { Type 0 };

    ghost S: { Type 0 };

    ghost Sense: { Type 0 };

    ghost senses: { Senses Self Self.Function Self.Value Self.Failure Self.F Self.V Self.S Self.Sense };

    /// A number that is written.
    fn number(&self, value: Whole) -> Result<Self::Value, Self::Failure>
        ensures { Finds Self.senses (λ i s. gives ((Self.senses.defined i).literal (scalar (double value))) s) self.now result };

    /// A text that is written.
    fn text(&self, value: &Text) -> Result<Self::Value, Self::Failure>
        ensures { Finds Self.senses (λ i s. gives ((Self.senses.defined i).literal (scalar (text value.now))) s) self.now result };

    /// A list of texts that is written.
    fn list(&self, values: Texts) -> Result<Self::Value, Self::Failure>
        ensures { Finds Self.senses (λ i s. gives ((Self.senses.defined i).literal (texts values)) s) self.now result };

    /// What a name stands for.
    fn name(&self, line: u32, name: &Name) -> Result<Self::Value, Self::Failure>
        ensures { Finds Self.senses (λ i s. answered line s ((Self.senses.defined i).name s name.now)) self.now result };

    /// A variable of this name has a value.
    fn has_value(&self, name: &Name) -> bool
        ensures { (i : Self.Sense) → Self.senses.holds i self.now → (Self.senses.defined i).has_value (Self.senses.state i self.now) name.now ≡ result };

    /// The failure of `@` with a name where no call takes it.
    fn handle(&self, line: u32, name: &Name) -> Self::Failure
        ensures { Refuses Self.senses (λ i. stop_at line ((Self.senses.defined i).handle name.now)) self.now result };

    /// The function of a name.
    fn function_named(&self, name: &Name) -> Option<Self::Function>
        ensures { Self.senses.functions name.now ≡ option_map Self.senses.named result };

    /// A call of this function takes `@` with the name of a function that is there as an argument.
    fn takes_handles(&self, function: Self::Function) -> bool
        ensures { (i : Self.Sense) → Self.senses.holds i self.now → (Self.senses.defined i).takes_handles (Self.senses.named function) ≡ result };

    /// There is a function of this name that may be taken by `@`.
    fn function_is_there(&self, name: &Name) -> bool
        ensures { (i : Self.Sense) → Self.senses.holds i self.now → (Self.senses.defined i).function_is_there name.now ≡ result };

    /// The failure of a name that stands for nothing.
    fn undefined(&self, line: u32, name: &Name) -> Self::Failure
        ensures { Refuses Self.senses (λ i. stop_at line (undefined name.now)) self.now result };

    /// The failure where there is no memory.
    fn out_of_memory(&self) -> Self::Failure
        ensures { IsFree Self.senses self.now result };

    /// An operator before its operand.
    fn prefix(
        &mut self,
        place: Place,
        op: Prefix,
        operand: Self::Value,
    ) -> Result<Self::Value, Self::Failure>
        requires ready { Self.senses.ready self.old place.number }
        requires operand { Self.senses.fits self.old operand }
        ensures does { DoesValue Self.senses (λ i s. answered place.line s ((Self.senses.defined i).prefix_value place.number place.line op (Self.senses.shown i operand))) self.old self.new result }
        ensures done { IfOk result (λ _. Self.senses.done self.new place.number) }
        ensures still { Self.senses.still self.old self.new };

    /// An operator between two operands.
    fn infix(
        &mut self,
        place: Place,
        op: Infix,
        left: Self::Value,
        right: Self::Value,
    ) -> Result<Self::Value, Self::Failure>
        requires ready { Self.senses.ready self.old place.number }
        requires left { Self.senses.fits self.old left }
        requires right { Self.senses.fits self.old right }
        ensures does { DoesValue Self.senses (λ i s. answered place.line s ((Self.senses.defined i).infix_value place.number place.line op (Self.senses.shown i left) (Self.senses.shown i right))) self.old self.new result }
        ensures done { IfOk result (λ _. Self.senses.done self.new place.number) }
        ensures still { Self.senses.still self.old self.new };

    /// A value, a point and a name.
    fn member(
        &mut self,
        place: Place,
        whole: Self::Value,
        name: &Name,
    ) -> Result<Self::Value, Self::Failure>
        requires ready { Self.senses.ready self.old place.number }
        requires whole { Self.senses.fits self.old whole }
        ensures does { DoesValue Self.senses (λ i s. answered place.line s ((Self.senses.defined i).member (Self.senses.shown i whole) name.now)) self.old self.new result }
        ensures done { IfOk result (λ _. Self.senses.done self.new place.number) }
        ensures still { Self.senses.still self.old self.new };

    /// An index of a value.
    fn index(
        &mut self,
        place: Place,
        whole: Self::Value,
        arguments: Vec<Argument<'_, Self::Value>>,
    ) -> Result<Self::Value, Self::Failure>
        requires ready { Self.senses.ready self.old place.number }
        requires whole { Self.senses.fits self.old whole }
        requires arguments { ArgumentsFit (Self.senses.fits self.old) arguments.items }
        ensures does { DoesValue Self.senses (λ i s. answered place.line s ((Self.senses.defined i).index place.number place.line (Self.senses.shown i whole) (map (argument_seen (Self.senses.shown i)) arguments.entry.items))) self.old self.new result }
        ensures done { IfOk result (λ _. Self.senses.done self.new place.number) }
        ensures still { Self.senses.still self.old self.new };

    ghost laws: { Laws Self.senses };
}
