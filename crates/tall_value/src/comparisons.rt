//! How two numbers compare, and what a comparison answers.
ghost use Rattle.std.specs.Prelude.{◌≡◌};
ghost use Rattle.tall_value.specs.CellOperators.{above, below, compared, equal};

use std::cmp::Ordering;

/// How two numbers compare; none with a NaN.
pub fn compared(a: Option<i128>, b: Option<i128>) -> Option<Ordering>
    ensures { result ≡ compared a b }
{
    match (a, b) {
        (Some(a), Some(b)) => Some(a.cmp(&b)),
        _ => None,
    }
}

/// They are equal.
pub fn is_equal(order: Option<Ordering>) -> bool
    ensures { result ≡ equal order }
{
    matches!(order, Some(Ordering::Equal))
}

/// The first is below the second.
pub fn is_below(order: Option<Ordering>) -> bool
    ensures { result ≡ below order }
{
    matches!(order, Some(Ordering::Less))
}

/// The first is above the second.
pub fn is_above(order: Option<Ordering>) -> bool
    ensures { result ≡ above order }
{
    matches!(order, Some(Ordering::Greater))
}
