//! What each graph keeps, for the crates above: the equations of its nodes have a solution, and its numbers are such that
//! the least fault can be found level by level.
ghost use Rattle.std.specs.Prelude.{◌≡◌, ◌<◌, ◌↔◌, ℕ, List, Some, length, slice_get};
ghost use Rattle.tall_semantics.specs.Additions.{MayAdd};
ghost use Rattle.tall_semantics.specs.Deferred.{AllBelow, IsMeaning, IsOrdered, Vertex};
ghost use Rattle.tall_semantics.specs.Forms.{form, space_number};
ghost use Rattle.tall_semantics.specs.Numbered.{AreLevels, AreNumbered, AreReadings, levels_in};
ghost use Rattle.tall_semantics.specs.Plans.{HasRowsOf, store_at};
ghost use Rattle.tall_semantics.specs.Ranks.{ranks_in};
ghost use Rattle.tall_semantics.specs.ShapesInOrder.{IsMade, shape_at};
ghost use Rattle.tall_semantics.specs.Talls.{Columns, Tall};
ghost use Rattle.tall_graph.specs.Later.{IsAbove, IsOperation};
ghost use Rattle.tall_graph.specs.Trees.{spaces_of, trees_of};

use crate::graph::Graph;

impl Graph {
    /// What each graph keeps: operands stand before what is made of them, each operation is accepted, and numbers are such
    /// that operands never have greater ones. So its equations have a solution whatever the columns are, and levels and
    /// ranks serve to find the least fault.
    pub fn keeps_its_rules(&self)
        ensures made { IsMade self.now }
        ensures ordered { IsOrdered self.now }
        ensures numbered { AreNumbered self.now }
        ensures solved { (columns : Columns) → (f : ℕ → Tall) × IsMeaning columns self.now f }
        ensures levels { (columns : Columns) (f : ℕ → Tall) → IsMeaning columns self.now f → AreReadings columns self.now → AreLevels self.now f (levels_in f) }
        ensures ranks { (columns : Columns) (f : ℕ → Tall) → IsMeaning columns self.now f → AreReadings columns self.now → AreLevels self.now f (ranks_in self.now f) }
    {
        let _nodes = &self.nodes;
    }

    /// Two nodes have equal forms exactly where their trees are equal, and equal spaces exactly where these are equal. A
    /// node's datastore is the one whose rows it or an operand has.
    pub fn numbers_tell_forms_and_spaces(&self)
        ensures forms { (i j : ℕ) → i < length self.now → j < length self.now → (form (shape_at self.now i).tree (trees_of self.now) ≡ form (shape_at self.now j).tree (trees_of self.now)) ↔ ((shape_at self.now i).tree ≡ (shape_at self.now j).tree) }
        ensures spaces { (i j : ℕ) → i < length self.now → j < length self.now → (space_number (shape_at self.now i).space (spaces_of self.now) ≡ space_number (shape_at self.now j).space (spaces_of self.now)) ↔ ((shape_at self.now i).space ≡ (shape_at self.now j).space) }
        ensures stores { (i store : ℕ) (v : Vertex) → slice_get self.now i ≡ Some v → (store_at self.now i ≡ Some store) ↔ HasRowsOf self.now store i }
    {
        let _nodes = &self.nodes;
    }
}

/// An operation whose number is above all numbers of the list may be added, over operands of the list.
pub fn a_later_operation_may_be_added()
    ensures may { (vs : List Vertex) (v : Vertex) → AllBelow (length vs) v.args → IsAbove vs v.at.number → IsOperation v.made → MayAdd vs v }
{}
