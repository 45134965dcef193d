//! States of all groups, by what is kept.
ghost use Rattle.std.specs.Prelude.{◌≡◌, ◌<◌, ◌+◌, ◌++◌, ◌^◌, ℤ, [], ◌∷◌, IfErr, IfOk, IfSome, IsOk, List, length, map, option_map};
ghost use Rattle.tall_value.specs.Cells.{Seen, seen, seen_kind};
ghost use Rattle.std.specs.List.{All};
ghost use Rattle.tall_value.specs.Classes.{kind_of};
ghost use Rattle.tall_value.specs.Columns.{HasKind};
ghost use Rattle.tall_value.specs.FunctionClasses.{method_kind};
ghost use Rattle.tall_value.specs.declared.class.Kind.{Kind};
ghost use Rattle.tall_value.specs.declared.functions.Method.{Method};
ghost use Rattle.tall_dense.specs.Columns.{class_of_cell};
ghost use Rattle.tall_group.specs.GroupFolds.{AreGroupsOf, AreSame, form_of, served};
ghost use Rattle.tall_group.specs.Summaries.{all_columns, cells_of, classes_by, columns_by};

use crate::bests::Best;
use crate::group_columns::{GroupColumns, counted, summarised};
use crate::groups::{add_row, add_rows, join_groups};
use crate::natives::NativeSum;
use crate::table::KeyTable;
use crate::tallies::{Missing, Never, NumberButZero, Tally};
use crate::totals::Total;
use std::alloc::{AllocError, Global};
use tall_clamp::{Larger, Smaller};
use tall_column::Column;
use tall_value::{Cell, Kind, Method};

/// A state for each group, of what a method keeps.
#[derive(Drop)]
pub(crate) enum GroupStates {
    Rows(Vec<Tally<Never>>),
    Totals(Vec<Total>),
    Natives(Vec<NativeSum>),
    Least(Vec<Best<Smaller>>),
    Greatest(Vec<Best<Larger>>),
    Nonzero(Vec<Tally<NumberButZero>>),
    Missing(Vec<Tally<Missing>>),
}

impl GroupStates {
    /// No groups yet, of a method that takes data of the kind.
    pub(crate) fn new(alloc: Global, method: Method, kind: Kind) -> GroupStates
        requires { IsOk (method_kind method kind) }
        ensures serves { served result ≡ form_of method kind }
        ensures none { AreGroupsOf kind [] result [] [] }
    {
        match method {
            Method::Count => GroupStates::Rows(Vec::new(alloc)),
            Method::Sum => GroupStates::Totals(Vec::new(alloc)),
            Method::SumNative => match kind {
                Kind::Integer(_) => GroupStates::Natives(Vec::new(alloc)),
                _ => GroupStates::Totals(Vec::new(alloc)),
            },
            Method::Min => GroupStates::Least(Vec::new(alloc)),
            Method::Max => GroupStates::Greatest(Vec::new(alloc)),
            Method::Nnz => GroupStates::Nonzero(Vec::new(alloc)),
            Method::Nummissing => GroupStates::Missing(Vec::new(alloc)),
        }
    }

    /// One row more.
    pub(crate) fn add(
        &mut self,
        keys: &mut KeyTable,
        key: &Cell<'_>,
        value: &Cell<'_>,
    ) -> Result<(), AllocError>
        requires class { class_of_cell (seen key.now) ≡ keys.old.class }
        requires groups { (ks vs : List Seen) × AreGroupsOf (seen_kind (seen value.now)) keys.old.cells self.old ks vs × (length ks + 1 < 2 ^ 40) }
        ensures class { keys.new.class ≡ keys.old.class }
        ensures alike { served self.new ≡ served self.old }
        ensures groups { (ks vs : List Seen) → AreGroupsOf (seen_kind (seen value.now)) keys.old.cells self.old ks vs → length ks + 1 < 2 ^ 40
            → IfOk result (λ _. AreGroupsOf (seen_kind (seen value.now)) keys.new.cells self.new (ks ++ seen key.now ∷ []) (vs ++ seen value.now ∷ [])) }
        ensures refused { IfErr result (λ _. (keys.new.cells ≡ keys.old.cells) × AreSame self.new self.old) }
    {
        match self {
            GroupStates::Rows(v) => add_row(keys, v, key, value),
            GroupStates::Totals(v) => add_row(keys, v, key, value),
            GroupStates::Natives(v) => add_row(keys, v, key, value),
            GroupStates::Least(v) => add_row(keys, v, key, value),
            GroupStates::Greatest(v) => add_row(keys, v, key, value),
            GroupStates::Nonzero(v) => add_row(keys, v, key, value),
            GroupStates::Missing(v) => add_row(keys, v, key, value),
        }
    }

    /// The rows of two columns more.
    pub(crate) fn add_columns(
        &mut self,
        keys: &mut KeyTable,
        more: &Column,
        values: &Column,
    ) -> Result<(), AllocError>
        requires class { more.now.class ≡ keys.old.class }
        requires even { length more.now.cells ≡ length values.now.cells }
        requires groups { (ks vs : List Seen) × AreGroupsOf (kind_of values.now.class) keys.old.cells self.old ks vs × (length ks + length more.now.cells < 2 ^ 40) }
        ensures class { keys.new.class ≡ keys.old.class }
        ensures kinds { IfOk result (λ _. All (HasKind (kind_of more.now.class)) more.now.cells × All (HasKind (kind_of values.now.class)) values.now.cells) }
        ensures alike { served self.new ≡ served self.old }
        ensures groups { (ks vs : List Seen) → AreGroupsOf (kind_of values.now.class) keys.old.cells self.old ks vs → length ks + length more.now.cells < 2 ^ 40
            → IfOk result (λ _. AreGroupsOf (kind_of values.now.class) keys.new.cells self.new (ks ++ more.now.cells) (vs ++ values.now.cells)) }
        ensures refused { IfErr result (λ _. (keys.new.cells ≡ keys.old.cells) × AreSame self.new self.old) }
    {
        match self {
            GroupStates::Rows(v) => add_rows(keys, v, more, values),
            GroupStates::Totals(v) => add_rows(keys, v, more, values),
            GroupStates::Natives(v) => add_rows(keys, v, more, values),
            GroupStates::Least(v) => add_rows(keys, v, more, values),
            GroupStates::Greatest(v) => add_rows(keys, v, more, values),
            GroupStates::Nonzero(v) => add_rows(keys, v, more, values),
            GroupStates::Missing(v) => add_rows(keys, v, more, values),
        }
    }

    /// The groups of later rows behind.
    pub(crate) fn join(
        &mut self,
        keys: &mut KeyTable,
        later_keys: &KeyTable,
        later: &GroupStates,
    ) -> Result<(), AllocError>
        requires class { later_keys.now.class ≡ keys.old.class }
        requires alike { served later.now ≡ served self.old }
        requires groups { (a : Kind) × (ks vs js ws : List Seen) × AreGroupsOf a keys.old.cells self.old ks vs × AreGroupsOf a later_keys.now.cells later.now js ws × (length ks + length js < 2 ^ 40) }
        ensures class { keys.new.class ≡ keys.old.class }
        ensures alike { served self.new ≡ served self.old }
        ensures groups { (a : Kind) (ks vs js ws : List Seen) → AreGroupsOf a keys.old.cells self.old ks vs → AreGroupsOf a later_keys.now.cells later.now js ws → length ks + length js < 2 ^ 40
            → IfOk result (λ _. AreGroupsOf a keys.new.cells self.new (ks ++ js) (vs ++ ws)) }
        ensures refused { IfErr result (λ _. (keys.new.cells ≡ keys.old.cells) × AreSame self.new self.old) }
    {
        match self {
            GroupStates::Rows(v) => {
                let GroupStates::Rows(w) = later else {
                    unreachable!()
                };
                join_groups(keys, v, later_keys, w.as_slice())
            }
            GroupStates::Totals(v) => {
                let GroupStates::Totals(w) = later else {
                    unreachable!()
                };
                join_groups(keys, v, later_keys, w.as_slice())
            }
            GroupStates::Natives(v) => {
                let GroupStates::Natives(w) = later else {
                    unreachable!()
                };
                join_groups(keys, v, later_keys, w.as_slice())
            }
            GroupStates::Least(v) => {
                let GroupStates::Least(w) = later else {
                    unreachable!()
                };
                join_groups(keys, v, later_keys, w.as_slice())
            }
            GroupStates::Greatest(v) => {
                let GroupStates::Greatest(w) = later else {
                    unreachable!()
                };
                join_groups(keys, v, later_keys, w.as_slice())
            }
            GroupStates::Nonzero(v) => {
                let GroupStates::Nonzero(w) = later else {
                    unreachable!()
                };
                join_groups(keys, v, later_keys, w.as_slice())
            }
            GroupStates::Missing(v) => {
                let GroupStates::Missing(w) = later else {
                    unreachable!()
                };
                join_groups(keys, v, later_keys, w.as_slice())
            }
        }
    }

    /// The columns that the groups give of data of a kind; none where a sum of doubles is above 2^53 in magnitude.
    pub(crate) fn columns(
        self,
        keys: KeyTable,
        kind: Kind,
    ) -> Result<Option<GroupColumns>, AllocError>
        requires groups { (ks vs : List Seen) × AreGroupsOf kind keys.cells self ks vs }
        ensures classes { IfOk result (λ o. IfSome o (λ g. map (λ c. c.class) (all_columns g) ≡ classes_by (served self) keys.class kind)) }
        ensures cells { (ks vs : List Seen) → AreGroupsOf kind keys.cells self ks vs → All (HasKind (kind_of keys.class)) ks → IfOk result (λ o. option_map cells_of o ≡ columns_by (served self) kind ks vs) }
    {
        match self {
            GroupStates::Rows(v) => counted(keys, v.as_slice(), kind),
            GroupStates::Totals(v) => summarised(keys, v.as_slice(), kind),
            GroupStates::Natives(v) => summarised(keys, v.as_slice(), kind),
            GroupStates::Least(v) => summarised(keys, v.as_slice(), kind),
            GroupStates::Greatest(v) => summarised(keys, v.as_slice(), kind),
            GroupStates::Nonzero(v) => summarised(keys, v.as_slice(), kind),
            GroupStates::Missing(v) => summarised(keys, v.as_slice(), kind),
        }
    }
}
