//! The numbers of a node's operands and of its space, and what is known of its passes.
ghost use Rattle.std.specs.Prelude.{◌≡◌, ◌<◌, ◌≤◌, ◌∷◌, List, [], length, map};
ghost use Rattle.tall_semantics.specs.Equality.{same_space, same_tree};
ghost use Rattle.tall_semantics.specs.Plans.{first_store, or_else};
ghost use Rattle.tall_semantics.specs.Shapes.{greatest_chain, greatest_level};
ghost use Rattle.tall_semantics.specs.ShapesInOrder.{shape_at};
ghost use Rattle.tall_semantics.specs.Spaces.{is_single, store_of};
ghost use Rattle.tall_graph.specs.Keys.{AreForms};
ghost use Rattle.tall_graph.specs.Numbers.{IsNumber};
ghost use Rattle.tall_graph.specs.Places.{AreWithin, IsSpaceNumber, IsWithin, chain_over, places, space_told, tree_at};
ghost use Rattle.tall_graph.specs.Trees.{spaces_of, trees_of};
ghost use Rattle.tall_graph.specs.Vertices.{made_of};

use crate::graph::Graph;
use crate::keys::{Forms, SpaceKey};
use crate::operands::{NewSpace, Operands, SpaceNumber};
use crate::operations::{NodeId, NodeOp};

pub(crate) fn or_else(rows: Option<u32>, other: Option<u32>) -> Option<u32>
    ensures { result ≡ or_else rows other }
{
    match rows {
        None => other,
        Some(store) => Some(store),
    }
}

impl Graph {
    #[tactic(auto, using(crate::proofs::ShapeLists::tree_numbered))]
    fn form_place(&self, x: NodeId) -> usize
        requires { x < length self.now }
        ensures { IsNumber same_tree (trees_of self.now) result (shape_at self.now x).tree }
    {
        self.node(x).facts.form
    }

    #[tactic(auto, using(crate::proofs::ShapeLists::space_numbered))]
    fn space_place(&self, x: NodeId) -> usize
        requires { x < length self.now }
        ensures { IsNumber same_space (spaces_of self.now) result (shape_at self.now x).space }
    {
        self.node(x).facts.space
    }

    /// The forms of operands.
    pub(crate) fn forms(&self, operands: &Operands) -> Forms
        requires { AreWithin (length self.now) operands.now }
        ensures { AreForms (trees_of self.now) result (map (tree_at self.now) (places operands.now)) }
    {
        match operands {
            Operands::Nothing => Forms::None,
            Operands::One(x) => Forms::One(self.form_place(*x)),
            Operands::Two(x, y) => Forms::Two(self.form_place(*x), self.form_place(*y)),
        }
    }

    fn group_key(&self, method: tall_value::Method, key: NodeId, column: Option<NodeId>) -> SpaceKey
        requires { IsWithin (length self.now) (NewSpace.Groups method key column) }
        ensures { IsSpaceNumber self.now (SpaceNumber.New result) (space_told self.now (NewSpace.Groups method key column)) }
    {
        match column {
            None => SpaceKey::Groups {
                method,
                key: self.form_place(key),
                column: None,
            },
            Some(data) => SpaceKey::Groups {
                method,
                key: self.form_place(key),
                column: Some(self.form_place(data)),
            },
        }
    }

    /// The number of a space, or its key.
    pub(crate) fn space_number(&self, space: &NewSpace) -> SpaceNumber
        requires { IsWithin (length self.now) space.now }
        ensures { IsSpaceNumber self.now result (space_told self.now space.now) }
    {
        match space {
            NewSpace::Of(x) => SpaceNumber::Known(self.space_place(*x)),
            NewSpace::Single => SpaceNumber::New(SpaceKey::Single),
            NewSpace::RowsOf(store) => SpaceNumber::New(SpaceKey::RowsOf(*store)),
            NewSpace::Kept { column, mask } => SpaceNumber::New(SpaceKey::Kept {
                space: self.space_place(*column),
                mask: self.form_place(*mask),
            }),
            NewSpace::First { k, column } => SpaceNumber::New(SpaceKey::First {
                k: *k,
                space: self.space_place(*column),
            }),
            NewSpace::Last { k, column } => SpaceNumber::New(SpaceKey::Last {
                k: *k,
                space: self.space_place(*column),
            }),
            NewSpace::Distinct(x) => SpaceNumber::New(SpaceKey::Distinct(self.form_place(*x))),
            NewSpace::Groups {
                method,
                key,
                column,
            } => SpaceNumber::New(self.group_key(*method, *key, *column)),
        }
    }

    /// The datastore whose rows a space has.
    pub(crate) fn rows_in(&self, space: &NewSpace) -> Option<u32>
        requires { IsWithin (length self.now) space.now }
        ensures { result ≡ store_of (space_told self.now space.now) }
    {
        match space {
            NewSpace::Of(x) => self.rows_of(*x),
            NewSpace::RowsOf(store) => Some(*store),
            NewSpace::Kept { column, .. } => self.rows_of(*column),
            NewSpace::Single
            | NewSpace::First { .. }
            | NewSpace::Last { .. }
            | NewSpace::Distinct(_)
            | NewSpace::Groups { .. } => None,
        }
    }

    pub(crate) fn is_single(&self, space: &NewSpace) -> bool
        requires { IsWithin (length self.now) space.now }
        ensures { result ≡ is_single (space_told self.now space.now) }
    {
        match space {
            NewSpace::Of(x) => self.is_scalar(*x),
            NewSpace::Single => true,
            NewSpace::RowsOf(_)
            | NewSpace::Kept { .. }
            | NewSpace::First { .. }
            | NewSpace::Last { .. }
            | NewSpace::Distinct(_)
            | NewSpace::Groups { .. } => false,
        }
    }

    /// The datastore whose rows an operand has.
    pub(crate) fn first_store(&self, operands: &Operands) -> Option<u32>
        requires { AreWithin (length self.now) operands.now }
        ensures { result ≡ first_store (map (shape_at self.now) (places operands.now)) }
    {
        match operands {
            Operands::Nothing => None,
            Operands::One(x) => or_else(self.rows_of(*x), None),
            Operands::Two(x, y) => or_else(self.rows_of(*x), or_else(self.rows_of(*y), None)),
        }
    }

    fn greatest_level(&self, operands: &Operands) -> u64
        requires { AreWithin (length self.now) operands.now }
        ensures { result ≡ greatest_level (map (shape_at self.now) (places operands.now)) }
    {
        match operands {
            Operands::Nothing => 0,
            Operands::One(x) => self.level_of(*x).max(0),
            Operands::Two(x, y) => self.level_of(*x).max(self.level_of(*y).max(0)),
        }
    }

    fn greatest_chain(&self, operands: &Operands) -> u64
        requires { AreWithin (length self.now) operands.now }
        ensures { result ≡ greatest_chain (map (shape_at self.now) (places operands.now)) }
    {
        match operands {
            Operands::Nothing => 0,
            Operands::One(x) => self.chain_of(*x).max(0),
            Operands::Two(x, y) => self.chain_of(*x).max(self.chain_of(*y).max(0)),
        }
    }

    /// How many passes must be done before a pass that computes what is made: one more where the operation needs all rows
    /// of a datastore before it has a result.
    pub(crate) fn chain(&self, op: &NodeOp, operands: &Operands) -> u64
        requires { AreWithin (length self.now) operands.now }
        ensures { result ≡ chain_over (made_of op.now) (map (shape_at self.now) (places operands.now)) }
    {
        match op {
            NodeOp::Stored { .. } => 0,
            NodeOp::Constant(_) | NodeOp::Unary(_) | NodeOp::Binary(_) | NodeOp::Filter => {
                self.greatest_chain(operands)
            }
            NodeOp::Reduce(_)
            | NodeOp::Scan(_)
            | NodeOp::Head(_)
            | NodeOp::Tail(_)
            | NodeOp::Distinct
            | NodeOp::Group { .. } => self.greatest_level(operands),
        }
    }
}
