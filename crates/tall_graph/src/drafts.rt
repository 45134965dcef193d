//! An operation over nodes: refused, or put behind the others.
ghost use Rattle.std.specs.Prelude.{◌≡◌, ◌++◌, ◌∷◌, Err, IfErr, IfOk, List, Ok, OnErr, OnOk, [], false, length, map};
ghost use Rattle.tall_semantics.specs.Additions.{MayAdd};
ghost use Rattle.tall_semantics.specs.Shapes.{Shape};
ghost use Rattle.tall_semantics.specs.ShapesInOrder.{CanBeMade, made_shape, shape_at};
ghost use Rattle.tall_graph.specs.Accepted.{shape_placed};
ghost use Rattle.tall_graph.specs.Drafts.{IsDraft, draft_vertex};
ghost use Rattle.tall_graph.specs.Places.{AreWithin, IsWithin, made_place, places, space_told};
ghost use Rattle.tall_graph.specs.Vertices.{HasPart, is_memory, made_of, refusal_of, vertex};

use crate::adding::insert;
use crate::graph::Graph;
use crate::nodes::Draft;
use crate::numbering::or_else;
use crate::operands::{Operands, Placed, listed};
use crate::operations::{GraphFault, NodeId, NodeOp};
use std::alloc::AllocError;

impl Graph {
    #[tactic(auto, using(crate::proofs::AcceptLaws::made_accepted))]
    fn draft(
        &self,
        number: u32,
        line: u32,
        op: NodeOp,
        args: &[NodeId],
        operands: &Operands,
        placed: &Placed,
    ) -> Result<Draft, AllocError>
        requires may { MayAdd self.now (vertex number line op args.now) }
        requires listed { args.now ≡ places operands.now }
        requires operands { AreWithin (length self.now) operands.now }
        requires space { IsWithin (length self.now) placed.now.space }
        requires placed { made_place (made_of op) (map (shape_at self.now) args.now) ≡ Ok (placed.now.class, space_told self.now placed.now.space) }
        ensures vertex { IfOk result (λ d. draft_vertex d ≡ vertex number line op args.now) }
        ensures draft { IfOk result (λ d. IsDraft self.now d (shape_placed self.now (made_of op) args.now placed.now)) }
    {
        let args = Vec::from_slice(self.alloc, args)?;
        let chain = self.chain(&op, operands);
        let rows = self.rows_in(&placed.space);
        let store = or_else(rows, self.first_store(operands));
        Ok(Draft {
            number,
            line,
            op,
            args,
            class: placed.class,
            chain,
            is_single: self.is_single(&placed.space),
            rows,
            store,
            operands: self.forms(operands),
            space: self.space_number(&placed.space),
        })
    }

    fn push(&mut self, draft: Draft) -> Result<NodeId, GraphFault>
        requires { (s : Shape) × IsDraft self.old draft s }
        ensures added { IfOk result (λ n. (n ≡ length self.old) × (self.new ≡ self.old ++ draft_vertex draft ∷ [])) }
        ensures memory { IfErr result (λ e. e ≡ GraphFault.Memory) }
        ensures kept { OnErr result (self.new ≡ self.old) }
    {
        let inserted = insert(
            self.alloc,
            &mut self.nodes,
            &mut self.texts,
            &mut self.forms,
            &mut self.spaces,
            draft,
        );
        match inserted {
            Ok(place) => Ok(NodeId::at(place)),
            Err(_) => Err(GraphFault::Memory),
        }
    }

    fn accept(
        &mut self,
        number: u32,
        line: u32,
        op: NodeOp,
        args: &[NodeId],
        operands: &Operands,
        placed: &Placed,
    ) -> Result<NodeId, GraphFault>
        requires may { MayAdd self.old (vertex number line op args.now) }
        requires listed { args.now ≡ places operands.now }
        requires operands { AreWithin (length self.old) operands.now }
        requires space { IsWithin (length self.old) placed.now.space }
        requires placed { made_place (made_of op) (map (shape_at self.old) args.now) ≡ Ok (placed.now.class, space_told self.old placed.now.space) }
        ensures added { IfOk result (λ n. (n ≡ length self.old) × (self.new ≡ self.old ++ vertex number line op args.now ∷ [])) }
        ensures accepted { CanBeMade self.old (made_of op) args.now }
        ensures memory { IfErr result (λ e. e ≡ GraphFault.Memory) }
        ensures kept { OnErr result (self.new ≡ self.old) }
    {
        match self.draft(number, line, op, args, operands, placed) {
            Ok(draft) => self.push(draft),
            Err(_) => Err(GraphFault::Memory),
        }
    }

    /// Puts an operation over nodes behind the others. Refused are operands that the operation doesn't take: BadArgument
    /// where a column is needed or by their number, MixedClass and BadClass by their classes, and then Incompatible by
    /// their spaces. Then, and without memory, the graph stays.
    ///
    /// Asked are operands of this graph, and numbers by which the least fault can be found level by level: an operand's is
    /// at most that of what is made of it, the variables of a datastore have one number and one line, and of two nodes of
    /// one number both are variables, or both are columns of one `groupsummary`, or one never fails.
    pub fn add_node(
        &mut self,
        number: u32,
        line: u32,
        op: NodeOp,
        args: &[NodeId],
    ) -> Result<NodeId, GraphFault>
        requires part { HasPart op }
        requires may { MayAdd self.old (vertex number line op args.now) }
        ensures added { IfOk result (λ n. (n ≡ length self.old) × (self.new ≡ self.old ++ vertex number line op args.now ∷ [])) }
        ensures accepted { OnOk result (CanBeMade self.old (made_of op) args.now) }
        ensures refused { IfErr result (λ e. is_memory e ≡ false → made_shape (made_of op) (map (shape_at self.old) args.now) ≡ Err (refusal_of e)) }
        ensures kept { OnErr result (self.new ≡ self.old) }
    {
        match listed(args) {
            Ok(operands) => match self.placed(&op, &operands) {
                Ok(placed) => self.accept(number, line, op, args, &operands, &placed),
                Err(fault) => Err(fault),
            },
            Err(fault) => Err(fault),
        }
    }
}
