//! Values that a column keeps in a vector, and what is done with such a vector.
ghost use Rattle.std.specs.Prelude.{◌≡◌, ◌<◌, ◌≤◌, ◌++◌, [], ◌∷◌, IfOk, MatchResult, Some, if◌then◌else◌, length, map, slice_get, take};
ghost use Rattle.std.specs.List.{slice_range};
ghost use Rattle.tall_value.specs.declared.class.Class.{Class};
ghost use Rattle.tall_value.specs.declared.class.Class.TheVariants as class;
ghost use Rattle.tall_value.specs.declared.class.Kind.TheVariants.{Integer as integer_kind};
ghost use Rattle.tall_value.specs.Cells.{double, logical, whole};
ghost use Rattle.tall_value.specs.Classes.{class_of};
ghost use Rattle.tall_value.specs.Filters.{kept};
ghost use Rattle.tall_dense.specs.Dense.{shown as values_shown};

use crate::integer::Integer;
use crate::operand::Operand;
use crate::values::Values;
use std::alloc::{AllocError, Global};
use tall_int::Whole;

/// A value of a class that a column keeps as it is.
pub trait Stored: Operand {
    ghost class: { Class };

    /// The values of a column, which are not copied.
    fn values(items: Vec<Self>) -> Values
        ensures { values_shown result ≡ record { class = class; cells = map Self.shown items.items } };
}

impl<I: Integer> Stored for I {
    ghost class = { class_of (integer_kind I.KIND) };

    fn values(items: Vec<I>) -> Values
        ensures { values_shown result ≡ record { class = class_of (integer_kind I.KIND); cells = map (λ x. whole I.KIND (I.number x)) items.items } }
    {
        I::column(items)
    }
}

impl Stored for bool {
    ghost class = { class.Logical };

    fn values(items: Vec<bool>) -> Values
        ensures { values_shown result ≡ record { class = class.Logical; cells = map (λ b. logical b) items.items } }
    {
        Values::Logical(items)
    }
}

impl Stored for Whole {
    ghost class = { class.Double };

    fn values(items: Vec<Whole>) -> Values
        ensures { values_shown result ≡ record { class = class.Double; cells = map (λ d. double d) items.items } }
    {
        Values::Double(items)
    }
}

/// The value at a row.
pub(crate) fn at<T: Stored>(items: &[T], row: usize) -> T
    requires { row < length (map T.shown items.now) }
    ensures { slice_get (map T.shown items.now) row ≡ Some (T.shown result) }
{
    items[row]
}

/// Adds a value at the end.
pub(crate) fn add<T: Stored>(items: &mut Vec<T>, value: T) -> Result<(), AllocError>
    ensures { MatchResult result (λ _. map T.shown items.new.items ≡ map T.shown items.old.items ++ T.shown value ∷ []) (λ _. items.new.items ≡ items.old.items) }
{
    items.push(value)?;
    Ok(())
}

/// Adds values at the end.
pub(crate) fn add_all<T: Stored>(items: &mut Vec<T>, more: &Vec<T>) -> Result<(), AllocError>
    ensures { MatchResult result (λ _. map T.shown items.new.items ≡ map T.shown items.old.items ++ map T.shown more.now.items) (λ _. items.new.items ≡ items.old.items) }
{
    items.extend_from_slice(more.as_slice())
}

/// The values from one row to before another.
pub(crate) fn part<T: Stored>(
    alloc: Global,
    items: &[T],
    from: usize,
    to: usize,
) -> Result<Vec<T>, AllocError>
    requires ordered { from ≤ to }
    requires within { to ≤ length (map T.shown items.now) }
    ensures { IfOk result (λ v. map T.shown v.items ≡ slice_range (map T.shown items.now) from to) }
{
    Vec::from_slice(alloc, &items[from..to])
}

/// One for a value that is marked.
fn one_if(marked: bool) -> usize
    ensures value { result ≡ (if marked then 1 else 0) }
    ensures small { result ≤ 1 }
{
    if marked { 1 } else { 0 }
}

/// Moves the values that a mask keeps to the front of a copy, without a branch, and tells how many they are.
fn gather<T: Stored>(slots: &mut [T], items: &[T], mask: &[bool]) -> usize
    requires copied { length slots.old ≡ length items.now }
    requires same_length { length mask.now ≡ length items.now }
    ensures { map T.shown (take result slots.new) ≡ kept (map T.shown items.now) (map (λ b. logical b) mask.now) }
{
    let mut count = 0;
    for row in 0..items.len() {
        slots[count] = items[row];
        count += one_if(mask[row]);
    }
    count
}

/// The values that a mask keeps.
pub(crate) fn kept<T: Stored>(
    alloc: Global,
    items: &[T],
    mask: &[bool],
) -> Result<Vec<T>, AllocError>
    requires { length (map T.shown items.now) ≡ length (map (λ b. logical b) mask.now) }
    ensures { IfOk result (λ v. map T.shown v.items ≡ kept (map T.shown items.now) (map (λ b. logical b) mask.now)) }
{
    let mut out = Vec::from_slice(alloc, items)?;
    let count = gather(out.as_mut_slice(), items, mask);
    out.truncate(count);
    out.shrink_to_fit();
    Ok(out)
}
