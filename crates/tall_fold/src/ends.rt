//! The first and the last rows.
ghost use Rattle.std.specs.Prelude.{◌≡◌, ◌+◌, ◌≤◌, ◌++◌, ◌∷◌, [], IfOk, List, MatchResult, ℕ, length, map};
ghost use Rattle.tall_value.specs.Cells.{Seen, seen};
ghost use Rattle.tall_value.specs.Ends.{first_rows, last_rows};
ghost use Rattle.tall_dense.specs.Columns.{class_of_cell};
ghost use Rattle.tall_fold.specs.FirstAndLast.{AreEven, AreKept, column_of, ends_of, rows_of, with_rows};

use crate::pairs::Pairs;
use std::alloc::{AllocError, Global};
use std::marker::Model;
use tall_column::Column;
use tall_value::{Cell, Class};

/// How many rows may stand before those in front of the last ones are let go.
const SPARE: usize = 4096;

/// The first or the last rows, so many or all, of rows that come one by one or in blocks; docs/LANGUAGE.md, functions,
/// `head` and `tail`. The ends of consecutive blocks, joined in their order, are the ends of all their rows, wherever the
/// cuts are.
///
/// It is seen as the side, the greatest number of rows, their class, and the list of the rows kept, a row number and a cell
/// each. It keeps its allocator.
#[derive(Drop)]
pub struct Ends {
    last: bool,
    most: u64,
    pairs: Pairs,
    alloc: Global,
}

impl Model for Ends {
    ghost use Rattle.tall_fold.specs.FirstAndLast.{AreKept, SeenEnds, ends_of, rows_of};

    ghost Value = { SeenEnds };

    ghost view = { λ e. record { last = e.last; most = e.most; class = e.pairs.cells.class; rows = ends_of e.last e.most (rows_of e.pairs) } };

    ghost invariant = { λ e. AreKept e.last e.most e.pairs };
}

/// Lets rows in front of the last ones go, where there are many.
fn make_room(alloc: Global, most: u64, pairs: &mut Pairs) -> Result<(), AllocError>
    requires { AreEven pairs.old }
    ensures rows { (rs : List (ℕ × Seen)) → last_rows most (rows_of pairs.new ++ rs) ≡ last_rows most (rows_of pairs.old ++ rs) }
    ensures even { AreEven pairs.new }
    ensures class { pairs.new.cells.class ≡ pairs.old.cells.class }
{
    let len = pairs.len();
    if len >= SPARE && len as u64 / 2 >= most {
        *pairs = pairs.behind(alloc, len - most as usize)?;
    }
    Ok(())
}

/// One row more behind the last ones.
fn add_last(
    alloc: Global,
    most: u64,
    pairs: &mut Pairs,
    row: u64,
    cell: &Cell<'_>,
) -> Result<(), AllocError>
    requires class { class_of_cell (seen cell.now) ≡ pairs.old.cells.class }
    requires even { AreEven pairs.old }
    ensures rows { MatchResult result (λ _. last_rows most (rows_of pairs.new) ≡ last_rows most (rows_of pairs.old ++ (row, seen cell.now) ∷ [])) (λ _. last_rows most (rows_of pairs.new) ≡ last_rows most (rows_of pairs.old)) }
    ensures even { AreEven pairs.new }
    ensures class { pairs.new.cells.class ≡ pairs.old.cells.class }
{
    match make_room(alloc, most, pairs) {
        Ok(()) => pairs.push(row, cell),
        Err(error) => Err(error),
    }
}

/// One row more behind the first ones.
#[tactic(auto, using(crate::proofs::PairLemmas::full_first))]
fn add_first(most: u64, pairs: &mut Pairs, row: u64, cell: &Cell<'_>) -> Result<(), AllocError>
    requires class { class_of_cell (seen cell.now) ≡ pairs.old.cells.class }
    requires even { AreEven pairs.old }
    requires within { length pairs.old.numbers.items ≤ most }
    ensures rows { MatchResult result (λ _. first_rows most (rows_of pairs.new) ≡ first_rows most (rows_of pairs.old ++ (row, seen cell.now) ∷ [])) (λ _. first_rows most (rows_of pairs.new) ≡ first_rows most (rows_of pairs.old)) }
    ensures even { AreEven pairs.new }
    ensures within { length pairs.new.numbers.items ≤ most }
    ensures class { pairs.new.cells.class ≡ pairs.old.cells.class }
{
    if (pairs.len() as u64) < most {
        pairs.push(row, cell)
    } else {
        Ok(())
    }
}

/// One row more.
fn add_row(
    alloc: Global,
    last: bool,
    most: u64,
    pairs: &mut Pairs,
    row: u64,
    cell: &Cell<'_>,
) -> Result<(), AllocError>
    requires class { class_of_cell (seen cell.now) ≡ pairs.old.cells.class }
    requires kept { AreKept last most pairs.old }
    ensures rows { MatchResult result (λ _. ends_of last most (rows_of pairs.new) ≡ ends_of last most (rows_of pairs.old ++ (row, seen cell.now) ∷ [])) (λ _. ends_of last most (rows_of pairs.new) ≡ ends_of last most (rows_of pairs.old)) }
    ensures kept { AreKept last most pairs.new }
    ensures class { pairs.new.cells.class ≡ pairs.old.cells.class }
{
    if last {
        add_last(alloc, most, pairs, row, cell)
    } else {
        add_first(most, pairs, row, cell)
    }
}

/// The rows of others, one after another; where memory is wanting, some of them.
fn add_rows(
    alloc: Global,
    last: bool,
    most: u64,
    pairs: &mut Pairs,
    later: &Pairs,
) -> Result<(), AllocError>
    requires class { later.now.cells.class ≡ pairs.old.cells.class }
    requires kept { AreKept last most pairs.old }
    requires even { AreEven later.now }
    ensures rows { IfOk result (λ _. ends_of last most (rows_of pairs.new) ≡ ends_of last most (rows_of pairs.old ++ rows_of later.now)) }
    ensures kept { AreKept last most pairs.new }
    ensures class { pairs.new.cells.class ≡ pairs.old.cells.class }
{
    for at in 0..later.len() {
        let cell = later.cells.get(at);
        add_row(alloc, last, most, pairs, later.numbers[at], &cell)?;
    }
    Ok(())
}

/// The rows that count alone.
#[tactic(auto, using(crate::proofs::PairLemmas::first_kept, crate::proofs::PairLemmas::last_kept))]
fn trimmed(alloc: Global, last: bool, most: u64, pairs: Pairs) -> Result<Pairs, AllocError>
    requires { AreKept last most pairs }
    ensures { IfOk result (λ p. (rows_of p ≡ ends_of last most (rows_of pairs)) × AreEven p × (p.cells.class ≡ pairs.cells.class)) }
{
    if !last {
        return Ok(pairs);
    }
    let len = pairs.len();
    if len as u64 <= most {
        return Ok(pairs);
    }
    pairs.behind(alloc, len - most as usize)
}

impl Ends {
    /// No rows, of a class: the last k of those that come, or the first k.
    #[tactic(auto, using(crate::proofs::PairLemmas::none_kept))]
    pub fn new(alloc: Global, last: bool, k: u64, class: Class) -> Ends
        ensures { result ≡ record { last = last; most = k; class = class; rows = [] } }
    {
        Ends {
            last,
            most: k,
            pairs: Pairs::new(alloc, class),
            alloc,
        }
    }

    /// One row more, with its number; refused for want of memory alone, with the ends as they were.
    pub fn add(&mut self, row: u64, cell: &Cell<'_>) -> Result<(), AllocError>
        requires { class_of_cell (seen cell.now) ≡ self.old.class }
        ensures { MatchResult result (λ _. self.new ≡ with_rows self.old ((row, seen cell.now) ∷ [])) (λ _. self.new ≡ self.old) }
    {
        add_row(self.alloc, self.last, self.most, &mut self.pairs, row, cell)
    }

    /// Goes on with the ends of later rows, of the same side, k and class. Where memory is wanting some of them may have been
    /// added, and the ends are then only dropped.
    pub fn join(&mut self, later: Ends) -> Result<(), AllocError>
        requires last { later.last ≡ self.old.last }
        requires most { later.most ≡ self.old.most }
        requires class { later.class ≡ self.old.class }
        ensures ends { IfOk result (λ _. self.new ≡ with_rows self.old later.rows) }
        ensures lists { (rs ss : List (ℕ × Seen)) → self.old.rows ≡ ends_of self.old.last self.old.most rs → later.rows ≡ ends_of self.old.last self.old.most ss → IfOk result (λ _. self.new.rows ≡ ends_of self.old.last self.old.most (rs ++ ss)) }
    {
        let rows = trimmed(later.alloc, later.last, later.most, later.pairs)?;
        add_rows(self.alloc, self.last, self.most, &mut self.pairs, &rows)
    }

    /// The cells, in a column of the class, and the numbers of their rows.
    pub fn finish(self) -> Result<(Column, Vec<u64>), AllocError>
        ensures { IfOk result (λ r. (r.0 ≡ column_of self.class self.rows) × (r.1.items ≡ map (λ (x : ℕ × Seen). x.0) self.rows)) }
    {
        let rows = trimmed(self.alloc, self.last, self.most, self.pairs)?;
        Ok((rows.cells, rows.numbers))
    }
}
