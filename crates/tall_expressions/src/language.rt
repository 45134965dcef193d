//! The language of a script: what names, operators and indexes mean in its expressions.
ghost use Rattle.std.specs.Prelude.{◌≡◌, IfOk, length};
ghost use Rattle.tall_local.specs.Expressions.{answered};
ghost use Rattle.tall_script.specs.ScriptLanguage.{place as place_of};
ghost use Rattle.tall_script.specs.ScriptValues.{index_value};
ghost use Rattle.tall_evaluate.specs.Senses.{ArgumentsFit, DoesValue};
ghost use Rattle.tall_deferred.specs.Values.{IsValue, value_at};

use crate::evaluation::Evaluation;
use crate::lookups::{list, member_of, scalar, undefined_name, value_named};
use crate::names::{function_named, is_there, takes_handles};
use tall_column::Texts;
use tall_deferred::{At, ScriptValue};
use tall_environment::{Failure, Refusal, at_line};
use tall_evaluate::{Argument, Language, Place};
use tall_grammar::{Infix, Prefix};
use tall_int::Whole;
use tall_local::ScriptFunction;
use tall_outside::Shelf;
use tall_value::{Cell, Name, Text};

impl<'e, S: Shelf> Language for Evaluation<'e, S> {
    type Function = ScriptFunction;

    type Value = ScriptValue;

    type Failure = Failure;

    ghost use Rattle.tall_local.specs.declared.functions.ScriptFunction.{ScriptFunction};
    ghost use Rattle.tall_script.specs.ScriptValues.{TallValue};
    ghost use Rattle.tall_script.specs.States.{State};
    ghost use Rattle.tall_semantics.specs.Talls.{Tall};
    ghost use Rattle.tall_environment.specs.Environments.{IsLast, IsNext};
    ghost use Rattle.tall_expressions.specs.Evaluations.{Sense, script_senses};
    ghost use Rattle.tall_environment.specs.Values.{arguments_at};
    ghost use Rattle.tall_expressions.specs.SenseLaws.{script_laws};

    ghost F = { ScriptFunction };

    ghost V = { TallValue };

    ghost S = { State Tall };

    ghost Sense = { Sense };

    ghost senses = { script_senses S.Shelf };

    fn number(&self, value: Whole) -> Result<ScriptValue, Failure> {
        at_line(0, scalar(self.alloc, &Cell::Double(value)))
    }

    fn text(&self, value: &Text) -> Result<ScriptValue, Failure> {
        at_line(0, scalar(self.alloc, &Cell::Text(value.as_str())))
    }

    fn list(&self, values: Texts) -> Result<ScriptValue, Failure> {
        at_line(0, list(self.alloc, values))
    }

    fn name(&self, line: u32, name: &Name) -> Result<ScriptValue, Failure> {
        at_line(
            line,
            value_named(self.alloc, self.environment, name.as_str()),
        )
    }

    fn has_value(&self, name: &Name) -> bool {
        self.environment.value(name.as_str()).is_some()
    }

    fn handle(&self, line: u32, name: &Name) -> Failure {
        if is_there(self.functions, name.as_str()) {
            Failure::Refused {
                line,
                refusal: Refusal::BadArgument,
            }
        } else {
            undefined_name(self.alloc, line, name.as_str())
        }
    }

    fn function_named(&self, name: &Name) -> Option<ScriptFunction> {
        function_named(name.as_str())
    }

    fn takes_handles(&self, function: ScriptFunction) -> bool {
        takes_handles(function)
    }

    fn function_is_there(&self, name: &Name) -> bool {
        is_there(self.functions, name.as_str())
    }

    fn undefined(&self, line: u32, name: &Name) -> Failure {
        undefined_name(self.alloc, line, name.as_str())
    }

    fn out_of_memory(&self) -> Failure {
        Failure::Memory
    }

    fn prefix(
        &mut self,
        place: Place,
        op: Prefix,
        operand: ScriptValue,
    ) -> Result<ScriptValue, Failure> {
        at_line(
            place.line,
            self.environment.prefix(
                At {
                    number: place.number,
                    line: place.line,
                },
                op,
                &operand,
            ),
        )
    }

    fn infix(
        &mut self,
        place: Place,
        op: Infix,
        left: ScriptValue,
        right: ScriptValue,
    ) -> Result<ScriptValue, Failure> {
        at_line(
            place.line,
            self.environment.infix(
                At {
                    number: place.number,
                    line: place.line,
                },
                op,
                &left,
                &right,
            ),
        )
    }

    fn member(
        &mut self,
        place: Place,
        whole: ScriptValue,
        name: &Name,
    ) -> Result<ScriptValue, Failure> {
        at_line(place.line, member_of(self.alloc, &whole, name.as_str()))
    }

    fn index(
        &mut self,
        place: Place,
        whole: ScriptValue,
        arguments: Vec<Argument<'_, ScriptValue>>,
    ) -> Result<ScriptValue, Failure>
        requires ready { IsNext place.number self.old.environment.now }
        requires whole { IsValue (length self.old.environment.now.graph) whole }
        requires arguments { ArgumentsFit (IsValue (length self.old.environment.now.graph)) arguments.items }
        ensures does { DoesValue (script_senses S.Shelf) (λ i s. answered place.line s (index_value (place_of place.number place.line) (value_at i.meaning whole) (arguments_at i.meaning arguments.entry.items))) self.old self.new result }
        ensures done { IfOk result (λ _. IsLast place.number self.new.environment.now) }
        ensures still { self.new.shelf.now ≡ self.old.shelf.now }
    {
        at_line(
            place.line,
            self.environment.index(
                At {
                    number: place.number,
                    line: place.line,
                },
                &whole,
                arguments.as_slice(),
            ),
        )
    }

    ghost laws = { script_laws S.Shelf };
}
