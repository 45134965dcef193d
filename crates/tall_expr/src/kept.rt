//! Parts of expressions with their heights. What is higher than it may be is let go, so that nothing high is ever built.
ghost use Rattle.std.specs.Prelude.{◌≡◌, ◌+◌, map, IfOk};
ghost use Rattle.tall_grammar.specs.Kept as spec;
ghost use Rattle.tall_expr.specs.Gives.{kept_by};
ghost use Rattle.tall_grammar.specs.Views.{tree_of, arg_of};

use crate::nodes;
use sqlite_items::Items;
use std::alloc::{AllocError, Global};
use tall_grammar::expressions::{Arg, Expr, Infix, Prefix};
use tall_value::Name;

/// The greatest height of an expression.
const LIMIT: u32 = 64;

/// A part with its height, or nothing where that is above the limit.
pub type Kept<T> = Option<(T, u32)>;

/// The operand with an operator before it.
pub fn prefixed(
    alloc: Global,
    number: u32,
    line: u32,
    operator: Prefix,
    operand: Kept<Expr>,
) -> Result<Kept<Expr>, AllocError>
    ensures { IfOk result (λ e. kept_by tree_of e ≡ spec.prefixed_of operator (kept_by tree_of operand) line number) }
{
    match operand {
        Some((operand, height)) if height < LIMIT => {
            let whole = nodes::prefixed(alloc, number, line, operator, operand)?;
            Ok(Some((whole, height + 1)))
        }
        _ => Ok(None),
    }
}

/// Two operands with an operator between them.
pub fn joined(
    alloc: Global,
    number: u32,
    line: u32,
    operator: Infix,
    left: Kept<Expr>,
    right: Kept<Expr>,
) -> Result<Kept<Expr>, AllocError>
    ensures { IfOk result (λ e. kept_by tree_of e ≡ spec.joined_of operator (kept_by tree_of left) (kept_by tree_of right) line number) }
{
    let (Some((left, left_height)), Some((right, right_height))) = (left, right) else {
        return Ok(None);
    };
    let height = left_height.max(right_height);
    if height >= LIMIT {
        return Ok(None);
    }
    let whole = nodes::joined(alloc, number, line, operator, left, right)?;
    Ok(Some((whole, height + 1)))
}

/// A member of this name.
pub fn member(
    alloc: Global,
    number: u32,
    line: u32,
    whole: Kept<Expr>,
    name: Name,
) -> Result<Kept<Expr>, AllocError>
    ensures { IfOk result (λ e. kept_by tree_of e ≡ spec.member_of (kept_by tree_of whole) name line number) }
{
    match whole {
        Some((whole, height)) if height < LIMIT => {
            let member = nodes::member(alloc, number, line, whole, name)?;
            Ok(Some((member, height + 1)))
        }
        _ => Ok(None),
    }
}

/// A call, or an index.
pub fn call(
    alloc: Global,
    number: u32,
    line: u32,
    called: Kept<Expr>,
    args: Kept<Items<Arg>>,
) -> Result<Kept<Expr>, AllocError>
    ensures { IfOk result (λ e. kept_by tree_of e ≡ spec.call_of (kept_by tree_of called) (kept_by (map arg_of) args) line number) }
{
    let (Some((called, called_height)), Some((args, args_height))) = (called, args) else {
        return Ok(None);
    };
    let height = called_height.max(args_height);
    if height >= LIMIT {
        return Ok(None);
    }
    let whole = nodes::call(alloc, number, line, called, args)?;
    Ok(Some((whole, height + 1)))
}

/// A colon as an argument.
pub fn colon() -> Kept<Arg>
    ensures { kept_by arg_of result ≡ spec.a_colon }
{
    Some((Arg::Colon, 0))
}

/// No arguments yet.
pub fn no_arguments(alloc: Global) -> Kept<Items<Arg>>
    ensures { kept_by (map arg_of) result ≡ spec.no_arguments }
{
    Some((Items::new(alloc), 0))
}

/// An expression as an argument.
pub fn value(expr: Kept<Expr>) -> Kept<Arg>
    ensures { kept_by arg_of result ≡ spec.a_value (kept_by tree_of expr) }
{
    let (expr, height) = expr?;
    Some((Arg::Value(expr), height))
}

/// The arguments with one more.
pub fn and_argument(args: Kept<Items<Arg>>, arg: Kept<Arg>) -> Result<Kept<Items<Arg>>, AllocError>
    ensures { IfOk result (λ xs. kept_by (map arg_of) xs ≡ spec.and_argument (kept_by (map arg_of) args) (kept_by arg_of arg)) }
{
    let (Some((mut args, args_height)), Some((arg, height))) = (args, arg) else {
        return Ok(None);
    };
    args.push(arg)?;
    Ok(Some((args, args_height.max(height))))
}
