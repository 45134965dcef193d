//! The graph, and what it tells of its nodes.
ghost use Rattle.std.specs.Prelude.{◌≡◌, ◌<◌, ◌≤◌, [], IfSome, Some, length, slice_get};
ghost use Rattle.tall_semantics.specs.Equality.{same_space};
ghost use Rattle.tall_semantics.specs.Forms.{form, space_number};
ghost use Rattle.tall_semantics.specs.Plans.{store_at};
ghost use Rattle.tall_semantics.specs.Shapes.{level};
ghost use Rattle.tall_semantics.specs.ShapesInOrder.{shape_at};
ghost use Rattle.tall_semantics.specs.Spaces.{is_single, store_of};
ghost use Rattle.tall_graph.specs.Kept.{AreFacts, vertex_of};
ghost use Rattle.tall_graph.specs.Trees.{spaces_of, trees_of};
ghost use Rattle.tall_graph.specs.Vertices.{made_of};

use crate::keys::{FormKey, SpaceKey};
use crate::nodes::Node;
use crate::operations::{NodeId, NodeOp, Space};
use indexmap::{IndexMap, IndexSet};
use std::alloc::Global;
use std::marker::Model;
use tall_value::Class;

/// Deferred values, which contracts see as a list of vertices: each has its expression's number and line, what makes it, and
/// its operands by their places in the list.
#[derive(Drop)]
pub struct Graph {
    pub(crate) alloc: Global,
    pub(crate) nodes: Vec<Node>,
    pub(crate) texts: IndexSet<String>,
    pub(crate) forms: IndexMap<FormKey, usize>,
    pub(crate) spaces: IndexMap<SpaceKey, usize>,
}

impl Model for Graph {
    ghost use Rattle.std.specs.Prelude.{List, map, string_bytes};
    ghost use Rattle.tall_semantics.specs.Deferred.{Vertex};

    ghost Value = { List Vertex };

    ghost use Rattle.tall_graph.specs.Kept.{IsKept, vertices};

    ghost view = { λ g. vertices g.nodes.items };

    ghost invariant = { λ g. IsKept g.nodes.items (map string_bytes g.texts.keys) g.forms.entries g.spaces.entries };
}

impl Graph {
    /// A graph without nodes.
    pub fn new(alloc: Global) -> Graph
        ensures { result ≡ [] }
    {
        Graph {
            alloc,
            nodes: Vec::new(alloc),
            texts: IndexSet::new(alloc),
            forms: IndexMap::new(alloc),
            spaces: IndexMap::new(alloc),
        }
    }

    /// How many nodes it has.
    pub fn len(&self) -> usize
        ensures { result ≡ length self.now }
    {
        self.nodes.len()
    }

    /// The node at a place.
    pub fn node_at(&self, place: usize) -> NodeId
        requires { place < length self.now }
        ensures { result ≡ place }
    {
        NodeId::at(place)
    }

    pub(crate) fn node(&self, n: NodeId) -> &Node
        requires { n < length self.now }
        ensures vertex { slice_get self.now n ≡ Some (vertex_of result.now) }
        ensures facts { AreFacts self.now n result.now.facts }
        ensures chain { result.now.facts.chain < length self.now }
    {
        let place = n.place();
        &self.nodes[place]
    }

    /// The class of the node's value.
    pub fn class_of(&self, n: NodeId) -> Class
        requires { n < length self.now }
        ensures { result ≡ (shape_at self.now n).class }
    {
        self.node(n).facts.class
    }

    /// The node's space: the place of the first node with an equal one.
    pub fn space_of(&self, n: NodeId) -> Space
        requires { n < length self.now }
        ensures { result ≡ space_number (shape_at self.now n).space (spaces_of self.now) }
    {
        Space::of(self.node(n).facts.space)
    }

    /// Whether two nodes have equal spaces.
    pub(crate) fn have_one_space(&self, x: NodeId, y: NodeId) -> bool
        requires left { x < length self.now }
        requires right { y < length self.now }
        ensures { result ≡ same_space (shape_at self.now x).space (shape_at self.now y).space }
    {
        self.space_of(x) == self.space_of(y)
    }

    /// Whether the value is a scalar.
    pub fn is_scalar(&self, n: NodeId) -> bool
        requires { n < length self.now }
        ensures { result ≡ is_single (shape_at self.now n).space }
    {
        self.node(n).facts.is_single
    }

    /// The node's form: the place of the first node whose tree is equal.
    pub fn form_of(&self, n: NodeId) -> u64
        requires { n < length self.now }
        ensures { result ≡ form (shape_at self.now n).tree (trees_of self.now) }
    {
        self.node(n).facts.form as u64
    }

    /// The number of the node's expression.
    pub fn number_of(&self, n: NodeId) -> u32
        requires { n < length self.now }
        ensures { IfSome (slice_get self.now n) (λ v. result ≡ v.at.number) }
    {
        self.node(n).number
    }

    /// The line of the node's statement.
    pub fn line_of(&self, n: NodeId) -> u32
        requires { n < length self.now }
        ensures { IfSome (slice_get self.now n) (λ v. result ≡ v.at.line) }
    {
        self.node(n).line
    }

    /// What makes the value.
    pub fn op_of(&self, n: NodeId) -> &NodeOp
        requires { n < length self.now }
        ensures { IfSome (slice_get self.now n) (λ v. made_of result.now ≡ v.made) }
    {
        &self.node(n).op
    }

    /// The operands.
    pub fn args_of(&self, n: NodeId) -> &[NodeId]
        requires { n < length self.now }
        ensures { IfSome (slice_get self.now n) (λ v. result.now ≡ v.args) }
    {
        self.node(n).args.as_slice()
    }

    /// How many passes over datastores must be done before a pass that computes the value.
    pub fn chain_of(&self, n: NodeId) -> u64
        requires { n < length self.now }
        ensures count { result ≡ (shape_at self.now n).chain }
        ensures small { result < length self.now }
    {
        self.node(n).facts.chain
    }

    /// The datastore whose rows the value has: all of them, or those that masks keep.
    pub fn rows_of(&self, n: NodeId) -> Option<u32>
        requires { n < length self.now }
        ensures { result ≡ store_of (shape_at self.now n).space }
    {
        self.node(n).facts.rows
    }

    /// How many passes over datastores give the value.
    pub fn level_of(&self, n: NodeId) -> u64
        requires { n < length self.now }
        ensures count { result ≡ level (shape_at self.now n) }
        ensures small { result ≤ length self.now }
    {
        let _nodes = self.len();
        match self.rows_of(n) {
            Some(_) => self.chain_of(n) + 1,
            None => self.chain_of(n),
        }
    }

    /// The datastore that a pass goes over to compute the value: that of its rows or of an operand's, none where neither it
    /// nor an operand has a datastore's rows.
    pub fn store_of(&self, n: NodeId) -> Option<u32>
        requires { n < length self.now }
        ensures { result ≡ store_at self.now n }
    {
        self.node(n).facts.store
    }
}
