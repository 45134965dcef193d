//! The class and the space of what an operation makes of nodes, or why it is refused. The cases stand in the order of
//! docs/LANGUAGE.md, operators, indexing and then functions. That an operand has to be a column is looked at first, then
//! classes, then spaces.
ghost use Rattle.std.specs.Prelude.{◌≡◌, ◌<◌, ◌∷◌, Err, IfOk, List, Ok, [], length, map};
ghost use Rattle.tall_semantics.specs.Plans.{first_store, or_else};
ghost use Rattle.tall_semantics.specs.Shapes.{bad_argument, common, counted, greatest_chain, greatest_level, masked, on_column, placed, summarised, summary};
ghost use Rattle.tall_semantics.specs.Spaces.{is_single, store_of};
ghost use Rattle.tall_semantics.specs.ShapesInOrder.{shape_at};
ghost use Rattle.tall_graph.specs.Places.{AreWithin, IsWithin, chain_over, made_place, place_result, places, space_result, space_told};
ghost use Rattle.tall_graph.specs.Vertices.{class_seen, made_of, part_seen};

use crate::classes::{Part, allowed, group_class, masked_class};
use crate::graph::Graph;
use crate::operands::{NewSpace, Operands, Placed};
use crate::operations::{GraphFault, NodeId, NodeOp};
use tall_value::{Class, Method, reduction_class, result_class, scan_class, unary_class};

impl Graph {
    /// The class is looked at before the space.
    fn together(
        &self,
        class: Result<Class, GraphFault>,
        space: Result<NewSpace, GraphFault>,
    ) -> Result<Placed, GraphFault>
        requires { IfOk space (λ s. IsWithin (length self.now) s) }
        ensures within { IfOk result (λ p. IsWithin (length self.now) p.space) }
        ensures is { place_result self.now result ≡ placed (class_seen class) (space_result self.now space) }
    {
        match class {
            Ok(class) => match space {
                Ok(space) => Ok(Placed { class, space }),
                Err(e) => Err(e),
            },
            Err(e) => Err(e),
        }
    }

    /// A scalar meets each row; two columns need equal spaces.
    fn common(&self, x: NodeId, y: NodeId) -> Result<NewSpace, GraphFault>
        requires left { x < length self.now }
        requires right { y < length self.now }
        ensures within { IfOk result (λ s. IsWithin (length self.now) s) }
        ensures is { space_result self.now result ≡ common (shape_at self.now x).space (shape_at self.now y).space }
    {
        if self.is_scalar(x) {
            Ok(NewSpace::Of(y))
        } else if self.is_scalar(y) {
            Ok(NewSpace::Of(x))
        } else if self.have_one_space(x, y) {
            Ok(NewSpace::Of(x))
        } else {
            Err(GraphFault::Incompatible)
        }
    }

    fn masked(&self, x: NodeId, mask: NodeId) -> Result<NewSpace, GraphFault>
        requires left { x < length self.now }
        requires right { mask < length self.now }
        ensures within { IfOk result (λ s. IsWithin (length self.now) s) }
        ensures is { space_result self.now result ≡ masked (shape_at self.now x).space (shape_at self.now mask).space (shape_at self.now mask).tree }
    {
        if self.have_one_space(x, mask) {
            Ok(NewSpace::Kept { column: x, mask })
        } else {
            Err(GraphFault::Incompatible)
        }
    }

    fn summarised(
        &self,
        method: Method,
        key: NodeId,
        column: NodeId,
    ) -> Result<NewSpace, GraphFault>
        requires left { key < length self.now }
        requires right { column < length self.now }
        ensures within { IfOk result (λ s. IsWithin (length self.now) s) }
        ensures is { space_result self.now result ≡ summarised method (shape_at self.now key) (shape_at self.now column) }
    {
        if self.have_one_space(key, column) {
            Ok(NewSpace::Groups {
                method,
                key,
                column: Some(column),
            })
        } else {
            Err(GraphFault::Incompatible)
        }
    }

    /// The key of `groupsummary` without a method, which has no values.
    fn counted(&self, method: Method, part: Part, key: NodeId) -> Result<Placed, GraphFault>
        requires { key < length self.now }
        ensures within { IfOk result (λ p. IsWithin (length self.now) p.space) }
        ensures is { place_result self.now result ≡ counted method (part_seen part) (shape_at self.now key) }
    {
        match (method, part) {
            (Method::Count, Part::Keys | Part::Counts) => {
                let class = self.class_of(key);
                let space = NewSpace::Groups {
                    method: Method::Count,
                    key,
                    column: None,
                };
                self.together(group_class(Method::Count, part, class, class), Ok(space))
            }
            _ => Err(GraphFault::BadArgument),
        }
    }

    fn summary(
        &self,
        method: Method,
        part: Part,
        key: NodeId,
        column: NodeId,
    ) -> Result<Placed, GraphFault>
        requires left { key < length self.now }
        requires right { column < length self.now }
        ensures within { IfOk result (λ p. IsWithin (length self.now) p.space) }
        ensures is { place_result self.now result ≡ summary method (part_seen part) (shape_at self.now key) (shape_at self.now column) }
    {
        match method {
            Method::Count => Err(GraphFault::BadArgument),
            Method::Sum
            | Method::SumNative
            | Method::Min
            | Method::Max
            | Method::Nnz
            | Method::Nummissing => self.together(
                group_class(method, part, self.class_of(key), self.class_of(column)),
                self.summarised(method, key, column),
            ),
        }
    }

    fn on_column(&self, x: NodeId, placed: Result<Placed, GraphFault>) -> Result<Placed, GraphFault>
        requires there { x < length self.now }
        requires inside { IfOk placed (λ p. IsWithin (length self.now) p.space) }
        ensures within { IfOk result (λ p. IsWithin (length self.now) p.space) }
        ensures is { place_result self.now result ≡ on_column (shape_at self.now x) (place_result self.now placed) }
    {
        if self.is_scalar(x) {
            Err(GraphFault::BadArgument)
        } else {
            placed
        }
    }

    fn placed_alone(&self, op: &NodeOp) -> Result<Placed, GraphFault>
        ensures within { IfOk result (λ p. IsWithin (length self.now) p.space) }
        ensures is { place_result self.now result ≡ made_place (made_of op.now) [] }
    {
        match op {
            NodeOp::Stored { store, class, .. } => Ok(Placed {
                class: *class,
                space: NewSpace::RowsOf(*store),
            }),
            NodeOp::Constant(cell) => Ok(Placed {
                class: cell.cell().class(),
                space: NewSpace::Single,
            }),
            NodeOp::Unary(_)
            | NodeOp::Binary(_)
            | NodeOp::Filter
            | NodeOp::Reduce(_)
            | NodeOp::Scan(_)
            | NodeOp::Head(_)
            | NodeOp::Tail(_)
            | NodeOp::Distinct
            | NodeOp::Group { .. } => Err(GraphFault::BadArgument),
        }
    }

    /// A function that keeps the class of its column.
    fn of_column(&self, x: NodeId, space: NewSpace) -> Result<Placed, GraphFault>
        requires there { x < length self.now }
        requires inside { IsWithin (length self.now) space }
        ensures within { IfOk result (λ p. IsWithin (length self.now) p.space) }
        ensures is { place_result self.now result ≡ on_column (shape_at self.now x) (Ok ((shape_at self.now x).class, space_told self.now space)) }
    {
        let class = self.class_of(x);
        self.on_column(x, Ok(Placed { class, space }))
    }

    fn placed_one(&self, op: &NodeOp, x: NodeId) -> Result<Placed, GraphFault>
        requires { x < length self.now }
        ensures within { IfOk result (λ p. IsWithin (length self.now) p.space) }
        ensures is { place_result self.now result ≡ made_place (made_of op.now) (shape_at self.now x ∷ []) }
    {
        let class = self.class_of(x);
        match op {
            NodeOp::Unary(f) => self.together(allowed(unary_class(*f, class)), Ok(NewSpace::Of(x))),
            NodeOp::Reduce(r) => {
                self.together(allowed(reduction_class(*r, class)), Ok(NewSpace::Single))
            }
            NodeOp::Scan(s) => self.on_column(
                x,
                self.together(allowed(scan_class(*s, class)), Ok(NewSpace::Of(x))),
            ),
            NodeOp::Head(k) => self.of_column(x, NewSpace::First { k: *k, column: x }),
            NodeOp::Tail(k) => self.of_column(x, NewSpace::Last { k: *k, column: x }),
            NodeOp::Distinct => self.of_column(x, NewSpace::Distinct(x)),
            NodeOp::Group { method, part } => {
                self.on_column(x, self.counted(*method, Part::of(*part), x))
            }
            NodeOp::Stored { .. } | NodeOp::Constant(_) | NodeOp::Binary(_) | NodeOp::Filter => Err(
                GraphFault::BadArgument,
            ),
        }
    }

    fn placed_two(&self, op: &NodeOp, x: NodeId, y: NodeId) -> Result<Placed, GraphFault>
        requires left { x < length self.now }
        requires right { y < length self.now }
        ensures within { IfOk result (λ p. IsWithin (length self.now) p.space) }
        ensures is { place_result self.now result ≡ made_place (made_of op.now) (shape_at self.now x ∷ shape_at self.now y ∷ []) }
    {
        let a = self.class_of(x);
        let b = self.class_of(y);
        match op {
            NodeOp::Binary(f) => {
                let class = result_class(*f, a, self.is_scalar(x), b, self.is_scalar(y));
                self.together(allowed(class), self.common(x, y))
            }
            NodeOp::Filter => {
                let placed = self.together(allowed(masked_class(a, b)), self.masked(x, y));
                self.on_column(x, self.on_column(y, placed))
            }
            NodeOp::Group { method, part } => {
                let placed = self.summary(*method, Part::of(*part), x, y);
                self.on_column(x, self.on_column(y, placed))
            }
            NodeOp::Stored { .. }
            | NodeOp::Constant(_)
            | NodeOp::Unary(_)
            | NodeOp::Reduce(_)
            | NodeOp::Scan(_)
            | NodeOp::Head(_)
            | NodeOp::Tail(_)
            | NodeOp::Distinct => Err(GraphFault::BadArgument),
        }
    }

    /// The class and the space of what an operation makes of nodes, or why it is refused.
    pub(crate) fn placed(&self, op: &NodeOp, operands: &Operands) -> Result<Placed, GraphFault>
        requires { AreWithin (length self.now) operands.now }
        ensures within { IfOk result (λ p. IsWithin (length self.now) p.space) }
        ensures is { place_result self.now result ≡ made_place (made_of op.now) (map (shape_at self.now) (places operands.now)) }
    {
        match operands {
            Operands::Nothing => self.placed_alone(op),
            Operands::One(x) => self.placed_one(op, *x),
            Operands::Two(x, y) => self.placed_two(op, *x, *y),
        }
    }
}
