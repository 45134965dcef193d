//! Arguments that have been evaluated, as values.
ghost use Rattle.std.specs.Prelude.{◌≡◌, ◌++◌, ◌∷◌, [], ℕ, IfErr, IfNone, IfOk, IfSome, true};
ghost use Rattle.std.specs.Vec.Iter.{into_iter_items};
ghost use Rattle.tall_semantics.specs.Talls.{Tall};
ghost use Rattle.tall_local.specs.Arguments.{value_given};
ghost use Rattle.tall_local.specs.Lists.{all_of};
ghost use Rattle.tall_evaluate.specs.Senses.{ArgumentsFit};
ghost use Rattle.tall_deferred.specs.Values.{IsValue};
ghost use Rattle.tall_environment.specs.Expressions.{AreValues, found_at};
ghost use Rattle.tall_environment.specs.Values.{arguments_at};

use std::alloc::Global;
use std::vec::IntoIter;
use tall_deferred::ScriptValue;
use tall_environment::Failure;
use tall_evaluate::Argument;

/// The next argument, where there is one.
fn next_argument<'a>(
    args: &mut IntoIter<Argument<'a, ScriptValue>>,
) -> Option<Argument<'a, ScriptValue>>
    ensures some { IfSome result (λ a. into_iter_items args.old ≡ a ∷ into_iter_items args.new) }
    ensures none { IfNone result (into_iter_items args.old ≡ []) }
{
    args.next()
}

/// Adds one at the end; not where there is no memory for it.
fn added<T: Drop>(values: &mut Vec<T>, value: T) -> bool
    ensures { result ≡ true → values.new.items ≡ values.old.items ++ value ∷ [] }
{
    values.push(value).is_ok()
}

/// The values of arguments; none where one of them is no value. Want of memory is the only failure.
pub(crate) fn values_kept(
    alloc: Global,
    args: Vec<Argument<'_, ScriptValue>>,
) -> Result<Option<Vec<ScriptValue>>, Failure>
    ensures within { (n : ℕ) → ArgumentsFit (IsValue n) args.entry.items → IfOk result (λ found. AreValues n found) }
    ensures given { (f : ℕ → Tall) → IfOk result (λ found. found_at f found ≡ all_of value_given (arguments_at f args.entry.items)) }
    ensures memory { IfErr result (λ e. e ≡ Failure.Memory) }
{
    let mut values = Vec::new(alloc);
    let mut rest = args.into_iter();
    while let Some(arg) = next_argument(&mut rest) {
        match arg {
            Argument::Given(value) => {
                if !added(&mut values, value) {
                    return Err(Failure::Memory);
                }
            }
            Argument::Colon => return Ok(None),
            Argument::Function(_) => return Ok(None),
        }
    }
    Ok(Some(values))
}
