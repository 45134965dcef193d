//! What a walk of a pass is given.
ghost use Rattle.std.specs.Prelude.{ℕ, List, Option};
ghost use Rattle.tall_pass.specs.Taken.{Inputs};

use std::marker::Brand;
use tall_fuse::Known;
use tall_graph::{Graph, NodeId};
use tall_piece::Wanted;
use tall_store::Datastore;

/// What a pass works with, for clauses alone. It has no calls.
pub(crate) trait PassGiven {
    /// What the work on all blocks shares.
    ghost inputs: { Option Inputs };
    /// The numbers of the files' records that were known before.
    ghost counts: { List (Option ℕ) };
}

impl PassGiven for Brand {
    ghost use Rattle.std.specs.Prelude.{None, []};

    ghost inputs = { None };

    ghost counts = { [] };
}

/// What the work on all blocks shares: the datastore, the graph, what is known, the places that are computed by blocks, and
/// what is wanted.
#[derive(Clone, Copy)]
pub(crate) struct Shared<'a> {
    pub(crate) store: &'a Datastore,
    pub(crate) graph: &'a Graph,
    pub(crate) known: &'a Known,
    pub(crate) all: &'a [NodeId],
    pub(crate) wanted: &'a [Wanted],
}
