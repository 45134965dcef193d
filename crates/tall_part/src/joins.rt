//! The parts of some rows and of those behind them, each by what is kept.
ghost use Rattle.std.specs.Prelude.{◌≡◌, ◌+◌, ◌++◌, ◌<◌, ◌^◌, ℕ, Bool, IfOk, List, length};
ghost use Rattle.tall_value.specs.declared.class.Class.{Class};
ghost use Rattle.tall_value.specs.declared.functions.Method.{Method};
ghost use Rattle.tall_value.specs.declared.functions.Reduction.{Reduction};
ghost use Rattle.tall_value.specs.Cells.{Seen};
ghost use Rattle.tall_blocks.specs.Carries.{Rows};
ghost use Rattle.tall_part.specs.declared.part.EndPart.TheVariants as part;
ghost use Rattle.tall_part.specs.Parts.{AreEndsOf, IsDistinctOf, IsGroupsOf, IsReductionOf};

use crate::part::EndPart;
use std::alloc::AllocError;
use tall_fold::{Ends, Summary};
use tall_group::{GroupFold, UniqueFold};

/// The summary of both parts' rows.
pub(crate) fn join_summaries(first: &mut Summary, later: EndPart)
    requires { (r : Reduction) × (a : Class) × (cs ds : List Seen) × IsReductionOf r a cs (part.Summary first.old) × IsReductionOf r a ds later × (length cs + length ds < 2 ^ 40) }
    ensures { (r : Reduction) (a : Class) (cs ds : List Seen) → IsReductionOf r a cs (part.Summary first.old) → IsReductionOf r a ds later → IsReductionOf r a (cs ++ ds) (part.Summary first.new) }
{
    let EndPart::Summary(summary) = later else {
        unreachable!()
    };
    first.join(summary);
}

/// The first or the last rows of both parts.
pub(crate) fn join_ends(first: &mut Ends, later: EndPart) -> Result<(), AllocError>
    requires { (last : Bool) × (most : ℕ) × (a : Class) × (rs js : Rows) × AreEndsOf last most a rs (part.Rows first.old) × AreEndsOf last most a js later }
    ensures { (last : Bool) (most : ℕ) (a : Class) (rs js : Rows) → AreEndsOf last most a rs (part.Rows first.old) → AreEndsOf last most a js later → IfOk result (λ _. AreEndsOf last most a (rs ++ js) (part.Rows first.new)) }
{
    let EndPart::Rows(ends) = later else {
        unreachable!()
    };
    first.join(ends)
}

/// The distinct cells of both parts.
pub(crate) fn join_distinct(first: &mut UniqueFold, later: EndPart) -> Result<(), AllocError>
    requires { (a : Class) × (cs ds : List Seen) × IsDistinctOf a cs (part.Distinct first.old) × IsDistinctOf a ds later }
    ensures { (a : Class) (cs ds : List Seen) → IsDistinctOf a cs (part.Distinct first.old) → IsDistinctOf a ds later → IfOk result (λ _. IsDistinctOf a (cs ++ ds) (part.Distinct first.new)) }
{
    let EndPart::Distinct(cells) = later else {
        unreachable!()
    };
    first.join(cells)
}

/// The groups of both parts.
pub(crate) fn join_groups(first: &mut GroupFold, later: EndPart) -> Result<(), AllocError>
    requires { (m : Method) × (a b : Class) × (ks ds js ws : List Seen) × IsGroupsOf m a b ks ds (part.Groups first.old) × IsGroupsOf m a b js ws later × (length ks + length js < 2 ^ 40) }
    ensures { (m : Method) (a b : Class) (ks ds js ws : List Seen) → IsGroupsOf m a b ks ds (part.Groups first.old) → IsGroupsOf m a b js ws later → length ks + length js < 2 ^ 40
        → IfOk result (λ _. IsGroupsOf m a b (ks ++ js) (ds ++ ws) (part.Groups first.new)) }
{
    let EndPart::Groups(groups) = later else {
        unreachable!()
    };
    first.join(groups)
}
