//! The numbers of a statement's expressions.
ghost use Rattle.std.specs.Prelude.{◌≡◌, [], ◌∷◌, map};
ghost use Rattle.tall_grammar.specs.Views.{arg_of, args_of, body_of};
ghost use Rattle.tall_evaluate.specs.Orders.{last_number};
ghost use Rattle.tall_statements.specs.Orders.{last_of};

use tall_grammar::{Arg, Form};

/// The number of an argument, or of what stands before it.
fn number_after(after: u32, arg: &Arg) -> u32
    ensures { result ≡ last_number after (args_of (arg_of arg.now ∷ [])) }
{
    match arg {
        Arg::Colon => after,
        Arg::Value(e) => e.number,
    }
}

/// The number of the last argument, or of what stands before the arguments.
fn number_after_all(after: u32, args: &[Arg]) -> u32
    ensures { result ≡ last_number after (args_of (map arg_of args.now)) }
{
    let mut last = after;
    for arg in args {
        last = number_after(last, arg);
    }
    last
}

/// The number of a statement's last expression, or of the one before the statement where it has none.
pub(crate) fn last_of(after: u32, form: &Form) -> u32
    ensures { result ≡ last_of after (body_of form.now) }
{
    match form {
        Form::Assign { value, .. } => value.number,
        Form::Gather { args, .. } => number_after_all(after, args.as_slice()),
        Form::Property { value, .. } => value.number,
        Form::Bare(value) => value.number,
    }
}
