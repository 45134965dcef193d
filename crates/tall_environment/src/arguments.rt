//! The arguments of a call or of an index.
ghost use Rattle.std.specs.Prelude.{◌≡◌, ◌++◌, ◌∷◌, [], ℕ, IfOk, IfSome, map, option_map, true};
ghost use Rattle.std.specs.List.{All};
ghost use Rattle.tall_semantics.specs.Talls.{Tall};
ghost use Rattle.tall_local.specs.Arguments.{given, index_of, value_given};
ghost use Rattle.tall_local.specs.Lists.{all_of};
ghost use Rattle.tall_evaluate.specs.Senses.{ArgumentsFit};
ghost use Rattle.tall_deferred.specs.Values.{IsIndex, IsLent, IsValue, index_at, lent_at, value_at};
ghost use Rattle.tall_environment.specs.Values.{arguments_at};

use std::alloc::{AllocError, Global};
use tall_deferred::{ScriptIndex, ScriptRef, ScriptValue};
use tall_evaluate::Argument;

/// Adds one at the end; not where there is no memory for it.
fn added<T: Drop>(values: &mut Vec<T>, value: T) -> bool
    ensures { result ≡ true → values.new.items ≡ values.old.items ++ value ∷ [] }
{
    values.push(value).is_ok()
}

/// The arguments as values, lent; none where one is none.
pub fn values_lent<'v>(
    alloc: Global,
    args: &'v [Argument<'_, ScriptValue>],
) -> Result<Option<Vec<ScriptRef<'v>>>, AllocError>
    ensures within { (n : ℕ) → ArgumentsFit (IsValue n) args.now → IfOk result (λ found. IfSome found (λ vs. All (IsLent n) vs.items)) }
    ensures given { (f : ℕ → Tall) → IfOk result (λ found. option_map (λ vs. map (lent_at f) vs.items) found ≡ all_of value_given (arguments_at f args.now)) }
{
    let mut values = Vec::new(alloc);
    for arg in args {
        match arg {
            Argument::Given(value) => {
                if !added(&mut values, value.lend()) {
                    return Err(AllocError);
                }
            }
            Argument::Colon => return Ok(None),
            Argument::Function(_) => return Ok(None),
        }
    }
    Ok(Some(values))
}

/// An index of two arguments, whose first is a value: `T(i, :)`.
fn variables_at<'v>(rows: &'v ScriptValue, second: &Argument<'_, ScriptValue>) -> ScriptIndex<'v>
    ensures within { (n : ℕ) → IsValue n rows.now → IsIndex n result }
    ensures given { (f : ℕ → Tall) → index_at f result ≡ index_of (given (value_at f rows.now) ∷ arguments_at f (second.now ∷ [])) }
{
    match second {
        Argument::Colon => ScriptIndex::AllVariables(rows.lend()),
        Argument::Given(_) => ScriptIndex::OtherForm,
        Argument::Function(_) => ScriptIndex::OtherForm,
    }
}

/// An index whose first argument is a value.
fn index_by<'v>(rows: &'v ScriptValue, rest: &[Argument<'_, ScriptValue>]) -> ScriptIndex<'v>
    ensures within { (n : ℕ) → IsValue n rows.now → IsIndex n result }
    ensures given { (f : ℕ → Tall) → index_at f result ≡ index_of (given (value_at f rows.now) ∷ arguments_at f rest.now) }
{
    match rest {
        [] => ScriptIndex::Rows(rows.lend()),
        [second] => variables_at(rows, second),
        [_, _, _more @ ..] => ScriptIndex::OtherForm,
    }
}

/// The arguments as an index, lent.
pub(crate) fn index_of<'v>(args: &'v [Argument<'_, ScriptValue>]) -> ScriptIndex<'v>
    ensures within { (n : ℕ) → ArgumentsFit (IsValue n) args.now → IsIndex n result }
    ensures given { (f : ℕ → Tall) → index_at f result ≡ index_of (arguments_at f args.now) }
{
    match args {
        [] => ScriptIndex::OtherForm,
        [first, rest @ ..] => match first {
            Argument::Given(rows) => index_by(rows, rest),
            Argument::Colon => ScriptIndex::OtherForm,
            Argument::Function(_) => ScriptIndex::OtherForm,
        },
    }
}
