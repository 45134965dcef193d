//! Names of the columns of a summary of groups.
ghost use Rattle.std.specs.Prelude.{◌≡◌, ◌++◌, ◌&&◌, ◌||◌, false, not, IfOk, List, Option, if◌then◌else◌, option_map, string_bytes, true, ℕ};
ghost use Rattle.tall_value.specs.SummaryNames.{summary_names};
ghost use Rattle.tall_value.specs.Names.{are_distinct};
ghost use Rattle.tall_functions.specs.Summaries.{names_with};

use std::alloc::{AllocError, Global};
use tall_value::Method;

/// The name of the column of rows.
pub const COUNT_NAME: &str = "GroupCount";

/// One text and then another.
fn joined(alloc: Global, front: &str, back: &str) -> Result<String, AllocError>
    ensures { IfOk result (λ s. string_bytes s ≡ front.now ++ back.now) }
{
    let mut text = String::from_str(alloc, front)?;
    text.push_str(back)?;
    Ok(text)
}

/// The name of the column of a method's values: the method's and the data's, joined by `_`. Counting alone has none.
pub fn value_name(alloc: Global, method: Method, value: &str) -> Result<Option<String>, AllocError>
    ensures { (key : List ℕ) → IfOk result (λ o. summary_names method key value.now ≡ names_with key (option_map string_bytes o)) }
{
    match method {
        Method::Count => Ok(None),
        Method::Sum => Ok(Some(joined(alloc, "sum_", value)?)),
        Method::SumNative => Ok(Some(joined(alloc, "sumnative_", value)?)),
        Method::Min => Ok(Some(joined(alloc, "min_", value)?)),
        Method::Max => Ok(Some(joined(alloc, "max_", value)?)),
        Method::Nnz => Ok(Some(joined(alloc, "nnz_", value)?)),
        Method::Nummissing => Ok(Some(joined(alloc, "nummissing_", value)?)),
    }
}

/// None of the three.
fn none_of(a: bool, b: bool, c: bool) -> bool
    ensures { result ≡ (not (a || (b || false)) && (not (c || false) && true)) }
{
    !a && !b && !c
}

/// No two of the names are equal.
pub fn are_distinct(key: &str, name: Option<&str>) -> bool
    ensures { result ≡ are_distinct (names_with key.now (option_map (λ s. s.now) name.entry)) }
{
    match name {
        Some(name) => none_of(key == COUNT_NAME, key == name, COUNT_NAME == name),
        None => key != COUNT_NAME,
    }
}
