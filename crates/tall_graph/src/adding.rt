//! A node more.
ghost use Rattle.std.specs.Prelude.{◌≡◌, ◌<◌, ◌++◌, ◌∷◌, IfErr, IfOk, List, Ok, Err, OnErr, OnOk, [], false, length, map, string_bytes};
ghost use Rattle.indexmap.specs.IndexMap.{spare};
ghost use Rattle.tall_value.specs.Cells.{seen};
ghost use Rattle.tall_semantics.specs.Shapes.{Shape};
ghost use Rattle.tall_graph.specs.Drafts.{IsDraft, IsSpaceLookedUp, draft_vertex};
ghost use Rattle.tall_graph.specs.Kept.{IsKept, vertices};
ghost use Rattle.tall_graph.specs.Keys.{IsCellKey, IsKeyFor};
ghost use Rattle.tall_graph.specs.Numbers.{Grows};
ghost use Rattle.tall_graph.specs.Vertices.{made_of};

use crate::classes::Part;
use crate::keys::{CellKey, FormKey, Forms, OpKey, SpaceKey};
use crate::nodes::{Draft, Facts, Node};
use crate::operands::SpaceNumber;
use crate::operations::NodeOp;
use crate::tables::{number_of, text_number};
use indexmap::{IndexMap, IndexSet};
use std::alloc::{AllocError, Global};
use tall_value::{Cell, Content};

#[tactic(auto, using(crate::proofs::PushLaws::grows_none))]
fn cell_key(
    alloc: Global,
    texts: &mut IndexSet<String>,
    cell: &Cell<'_>,
) -> Result<CellKey, AllocError>
    ensures key { IfOk result (λ k. IsCellKey (map string_bytes texts.new.keys) k (seen cell.now)) }
    ensures grows { Grows (map string_bytes texts.old.keys) (map string_bytes texts.new.keys) }
{
    match cell.content() {
        Content::Whole(kind, n) => Ok(CellKey::Whole(kind, n)),
        Content::Logical(b) => Ok(CellKey::Logical(b)),
        Content::Double(d) => Ok(CellKey::Double(d.get())),
        Content::Text(text) => Ok(CellKey::Text(text_number(alloc, texts, text)?)),
    }
}

#[tactic(auto, using(crate::proofs::PushLaws::grows_none))]
fn form_key(
    alloc: Global,
    texts: &mut IndexSet<String>,
    op: &NodeOp,
    operands: Forms,
) -> Result<FormKey, AllocError>
    ensures key { IfOk result (λ k. IsKeyFor (map string_bytes texts.new.keys) (made_of op.now) operands k) }
    ensures grows { Grows (map string_bytes texts.old.keys) (map string_bytes texts.new.keys) }
{
    match op {
        NodeOp::Stored {
            store,
            variable,
            class,
        } => Ok(FormKey::Column {
            store: *store,
            variable: *variable,
            class: *class,
        }),
        NodeOp::Constant(cell) => {
            let key = cell_key(alloc, texts, &cell.cell())?;
            Ok(over(OpKey::Constant(key), operands))
        }
        NodeOp::Unary(f) => Ok(over(OpKey::Unary(*f), operands)),
        NodeOp::Binary(f) => Ok(over(OpKey::Binary(*f), operands)),
        NodeOp::Filter => Ok(over(OpKey::Filter, operands)),
        NodeOp::Reduce(r) => Ok(over(OpKey::Reduce(*r), operands)),
        NodeOp::Scan(s) => Ok(over(OpKey::Scan(*s), operands)),
        NodeOp::Head(k) => Ok(over(OpKey::Head(*k), operands)),
        NodeOp::Tail(k) => Ok(over(OpKey::Tail(*k), operands)),
        NodeOp::Distinct => Ok(over(OpKey::Distinct, operands)),
        NodeOp::Group { method, part } => {
            let part = Part::of(*part);
            Ok(over(
                OpKey::Group {
                    method: *method,
                    part,
                },
                operands,
            ))
        }
    }
}

fn over(op: OpKey, operands: Forms) -> FormKey
    ensures { result ≡ FormKey.Over op operands }
{
    FormKey::Over { op, operands }
}

fn space_in(spaces: &mut IndexMap<SpaceKey, usize>, space: SpaceNumber, place: usize) -> usize
    requires { 0 < spare spaces.old }
    ensures { IsSpaceLookedUp spaces.old.entries space place result spaces.new.entries }
{
    match space {
        SpaceNumber::Known(number) => number,
        SpaceNumber::New(key) => number_of(spaces, key, place),
    }
}

/// Puts a node behind the others, with the numbers of its form and its space. Without memory the nodes stay.
pub(crate) fn insert(
    alloc: Global,
    nodes: &mut Vec<Node>,
    texts: &mut IndexSet<String>,
    forms: &mut IndexMap<FormKey, usize>,
    spaces: &mut IndexMap<SpaceKey, usize>,
    draft: Draft,
) -> Result<usize, AllocError>
    requires kept { IsKept nodes.old.items (map string_bytes texts.old.keys) forms.old.entries spaces.old.entries }
    requires accepted { (s : Shape) × IsDraft (vertices nodes.old.items) draft s }
    ensures kept { IsKept nodes.new.items (map string_bytes texts.new.keys) forms.new.entries spaces.new.entries }
    ensures added { IfOk result (λ n. (n ≡ length nodes.old.items) × (vertices nodes.new.items ≡ vertices nodes.old.items ++ draft_vertex draft ∷ [])) }
    ensures unchanged { OnErr result (nodes.new.items ≡ nodes.old.items) }
{
    nodes.reserve(1)?;
    forms.reserve(1)?;
    spaces.reserve(1)?;
    let key = form_key(alloc, texts, &draft.op, draft.operands)?;
    let place = nodes.len();
    let form = number_of(forms, key, place);
    let space = space_in(spaces, draft.space, place);
    nodes.push_reserved(Node {
        number: draft.number,
        line: draft.line,
        op: draft.op,
        args: draft.args,
        facts: Facts {
            class: draft.class,
            chain: draft.chain,
            is_single: draft.is_single,
            rows: draft.rows,
            store: draft.store,
            form,
            space,
        },
    });
    Ok(place)
}
