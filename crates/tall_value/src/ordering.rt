//! The order of cells.
ghost use Rattle.std.specs.Prelude.{◌≡◌, ℤ};
ghost use Rattle.std.specs.declared.cmp.Ordering.TheVariants.{Equal, Less};
ghost use Rattle.std.specs.Cmp.{IsTotalOrder};
ghost use Rattle.tall_value.specs.Cells.{Seen, double, seen, seen_kind};
ghost use Rattle.tall_value.specs.CellOrder.{cell_order, nan_last, rank};

use crate::cell::{Cell, Content};
use std::cmp::Ordering;

fn nan_last(a: Option<i128>, b: Option<i128>) -> Ordering
    ensures { result ≡ nan_last a b }
{
    match (a, b) {
        (Some(a), Some(b)) => a.cmp(&b),
        (Some(_), None) => Ordering::Less,
        (None, Some(_)) => Ordering::Greater,
        (None, None) => Ordering::Equal,
    }
}

/// The place of a cell's kind: integers, logicals, doubles, texts.
fn rank(cell: &Cell<'_>) -> u8
    ensures { result ≡ rank (seen cell.now) }
{
    match cell.content() {
        Content::Whole(_, _) => 0,
        Content::Logical(_) => 1,
        Content::Double(_) => 2,
        Content::Text(_) => 3,
    }
}

/// The order of two cells of one class: numbers by value with NaN last and equal to itself, false before true, texts by
/// their UTF-8 bytes. So that the order is total on all cells, integers of two classes are ordered by value, and other
/// cells of two classes by their kinds: integers, logicals, doubles, texts.
pub fn order(a: &Cell<'_>, b: &Cell<'_>) -> Ordering
    ensures { result ≡ cell_order (seen a.now) (seen b.now) }
{
    match (a.content(), b.content()) {
        (Content::Whole(_, x), Content::Whole(_, y)) => x.cmp(&y),
        (Content::Logical(x), Content::Logical(y)) => x.cmp(&y),
        (Content::Double(_), Content::Double(_)) => nan_last(a.amount(), b.amount()),
        (Content::Text(x), Content::Text(y)) => x.cmp(y),
        _ => rank(a).cmp(&rank(b)),
    }
}

/// The order is total, tells apart the cells of one class, and puts NaN after each number.
pub fn cells_are_ordered()
    ensures total { IsTotalOrder cell_order }
    ensures exact { (c d : Seen) → seen_kind c ≡ seen_kind d → cell_order c d ≡ Equal → c ≡ d }
    ensures nan { (n : ℤ) → cell_order (double (Some n)) (double None) ≡ Less }
{}
