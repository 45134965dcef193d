//! What is kept of the rows so far for an end.
ghost use Rattle.std.specs.Prelude.{◌≡◌, ◌+◌, ◌++◌, ◌<◌, ◌^◌, ℕ, [], IfErr, IfOk, List, length};
ghost use Rattle.tall_value.specs.declared.class.Class.{Class};
ghost use Rattle.tall_value.specs.Columns.{cells};
ghost use Rattle.tall_semantics.specs.Faults.{At};
ghost use Rattle.tall_blocks.specs.Carries.{Rows};
ghost use Rattle.tall_part.specs.declared.operation.EndOperation.{EndOperation};
ghost use Rattle.tall_part.specs.Operations.{IsTaken};
ghost use Rattle.tall_part.specs.Parts.{HasNumbers, IsPart, IsPartOf};
ghost use Rattle.tall_part.specs.Results.{AreHigh, AreOutcomes, HaveClasses, IsFaultOf};

use crate::block::{distinct_part, ends_part, group_part, reduction_part};
use crate::finishes::{distinct_cells, end_rows, group_columns, scalar};
use crate::joins::{join_distinct, join_ends, join_groups, join_summaries};
use crate::operation::EndOperation;
use crate::results::{EndColumn, EndFault};
use std::alloc::{AllocError, Global};
use tall_column::Column;
use tall_fold::{Ends, Summary, summarise};
use tall_group::{GroupFold, UniqueFold};
use tall_value::Class;

/// What the rows so far come to for an operation that needs all rows of its operands. The parts of consecutive blocks, joined
/// in their order, are the part of all their rows, wherever the cuts are. Where there is one operand, it is the first and
/// the last one.
///
/// `IsPartOf` says of which rows it is the part, and `IsPart` that it is one of at most so many rows.
#[derive(Drop)]
pub enum EndPart {
    /// Of a reduction.
    Summary(Summary),
    /// The first or the last rows, with their numbers.
    Rows(Ends),
    /// The distinct cells.
    Distinct(UniqueFold),
    /// The keys, with what the method keeps of each group.
    Groups(GroupFold),
}

impl EndPart {
    /// The part of no rows, of operands of classes that the operation takes.
    pub fn new(alloc: Global, operation: EndOperation, first: Class, last: Class) -> EndPart
        requires { IsTaken operation first last }
        ensures { IsPartOf operation first last [] [] result }
    {
        match operation {
            EndOperation::Reduce(reduction) => {
                EndPart::Summary(summarise(alloc, reduction, &Column::new(alloc, first)))
            }
            EndOperation::Head(k) => EndPart::Rows(Ends::new(alloc, false, k, first)),
            EndOperation::Tail(k) => EndPart::Rows(Ends::new(alloc, true, k, first)),
            EndOperation::Distinct => EndPart::Distinct(UniqueFold::new(alloc, first)),
            EndOperation::Group(method) => {
                EndPart::Groups(GroupFold::new(alloc, method, first, last))
            }
        }
    }

    /// The part of a block's rows, of operands of classes that the operation takes. `numbers` are the row numbers of the
    /// rows that are kept with them (`EndOperation::kept_rows`). Refused for want of memory alone.
    pub fn of_columns(
        alloc: Global,
        operation: EndOperation,
        first: &Column,
        last: &Column,
        numbers: &[u64],
    ) -> Result<EndPart, AllocError>
        requires takes { IsTaken operation first.now.class last.now.class }
        requires even { length first.now.cells ≡ length last.now.cells }
        requires few { length first.now.cells < 2 ^ 40 }
        ensures some { IfOk result (λ p. IsPart operation first.now.class last.now.class (length first.now.cells) p) }
        ensures rows { (rs ss : Rows) → cells rs ≡ first.now.cells → cells ss ≡ last.now.cells → HasNumbers operation rs numbers.now → IfOk result (λ p. IsPartOf operation first.now.class last.now.class rs ss p) }
    {
        match operation {
            EndOperation::Reduce(reduction) => Ok(reduction_part(alloc, reduction, first)),
            EndOperation::Head(k) => ends_part(alloc, false, k, first, 0, numbers),
            EndOperation::Tail(k) => {
                let (from, _) = operation.kept_rows(first.len());
                ends_part(alloc, true, k, first, from, numbers)
            }
            EndOperation::Distinct => distinct_part(alloc, first),
            EndOperation::Group(method) => group_part(alloc, method, first, last),
        }
    }

    /// Goes on with the part of later rows, of the same operation and classes. It asks for fewer than 2^40 rows together.
    /// Refused for want of memory alone; a refused part is only dropped.
    pub fn join(&mut self, later: EndPart) -> Result<(), AllocError>
        requires { (op : EndOperation) × (a b : Class) × (n m : ℕ) × IsPart op a b n self.old × IsPart op a b m later × (n + m < 2 ^ 40) }
        ensures some { (op : EndOperation) (a b : Class) (n m : ℕ) → IsPart op a b n self.old → IsPart op a b m later → n + m < 2 ^ 40 → IfOk result (λ _. IsPart op a b (n + m) self.new) }
        ensures rows { (op : EndOperation) (a b : Class) (rs ss js ws : Rows) → IsPartOf op a b rs ss self.old → IsPartOf op a b js ws later → length rs + length js < 2 ^ 40 → IfOk result (λ _. IsPartOf op a b (rs ++ js) (ss ++ ws) self.new) }
    {
        match self {
            EndPart::Summary(first) => {
                join_summaries(first, later);
                Ok(())
            }
            EndPart::Rows(first) => join_ends(first, later),
            EndPart::Distinct(first) => join_distinct(first, later),
            EndPart::Groups(first) => join_groups(first, later),
        }
    }

    /// What all rows come to, for the expression of a number and a line: the columns in their order, each with the numbers of
    /// its rows, of which a scalar has none.
    ///
    /// # Errors
    /// `Data` with the fault of the expression, which is that of each of the columns; `Memory` for want of memory alone.
    pub fn finish(self, alloc: Global, number: u32, line: u32) -> Result<Vec<EndColumn>, EndFault>
        requires { (op : EndOperation) × (a b : Class) × (n : ℕ) × IsPart op a b n self }
        ensures classes { (op : EndOperation) (a b : Class) (n : ℕ) → IsPart op a b n self → IfOk result (λ v. HaveClasses op a b v.items) }
        ensures heights { (op : EndOperation) (a b : Class) (n : ℕ) → IsPart op a b n self → IfOk result (λ v. AreHigh op n v.items) }
        ensures outcomes { (op : EndOperation) (a b : Class) (rs ss : Rows) → IsPartOf op a b rs ss self → IfOk result (λ v. AreOutcomes (record { number = number; line = line }) op a b rs ss v.items) }
        ensures fault { (op : EndOperation) (a b : Class) (rs ss : Rows) → IsPartOf op a b rs ss self → IfErr result (λ e. IsFaultOf (record { number = number; line = line }) op a b rs ss e) }
    {
        match self {
            EndPart::Summary(summary) => scalar(alloc, summary.finish(), number, line),
            EndPart::Rows(ends) => end_rows(alloc, ends),
            EndPart::Distinct(fold) => distinct_cells(alloc, fold),
            EndPart::Groups(fold) => group_columns(alloc, fold, number, line),
        }
    }
}
