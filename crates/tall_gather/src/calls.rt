//! The call of a datastore.
ghost use Rattle.std.specs.Prelude.{◌≡◌, ℕ, Some, slice_get};
ghost use Rattle.tall_semantics.specs.Deferred.{Vertex};
ghost use Rattle.tall_semantics.specs.Reach.{IsOfStore};
ghost use Rattle.tall_graph.specs.Vertices.{made_of};
ghost use Rattle.tall_gather.specs.Candidates.{HasVariable, IsCall, is_of_store};

use crate::candidate::StoreReading;
use tall_graph::{Graph, NodeOp};
use tall_store::ReadingFault;

fn is_of_store(op: &NodeOp, store: u32) -> bool
    ensures { result ≡ is_of_store (made_of op.now) store }
{
    match op {
        NodeOp::Stored { store: s, .. } => *s == store,
        _ => false,
    }
}

/// The reading fault of a datastore of which the graph has a variable, with the number and the line of its call.
pub(crate) fn reading_of(graph: &Graph, store: u32, fault: ReadingFault) -> StoreReading
    requires { HasVariable graph.now store }
    ensures fault { (result.store ≡ store) × (result.fault ≡ fault) }
    ensures call { IsCall graph.now store (record { number = result.number; line = result.line }) }
{
    for place in 0..graph.len() {
        let node = graph.node_at(place);
        if is_of_store(graph.op_of(node), store) {
            return StoreReading {
                store,
                number: graph.number_of(node),
                line: graph.line_of(node),
                fault,
            };
        }
    }
    unreachable!()
}
