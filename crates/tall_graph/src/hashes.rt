//! How keys are hashed.
ghost use Rattle.std.specs.Prelude.{◌≡◌, ◌++◌, fold};
ghost use Rattle.std.proofs.Common.{ap};
ghost use Rattle.tall_graph.specs.KeyTests.{form_same, space_same};
ghost use Rattle.tall_graph.specs.Hashes.{cell_input, form_input, number_input, op_input, operands_input, space_input};

use crate::keys::{CellKey, FormKey, Forms, OpKey, SpaceKey};
use std::hash::{Hash, Hasher};

impl Hash for FormKey {
    ghost hash_input = { form_input };

    ghost respects_eq = { λ a b e. ap form_input (form_same a b e) };

    fn hash<H: Hasher>(&self, state: &mut H) {
        match self {
            FormKey::Column {
                store,
                variable,
                ..
            } => {
                state.write_u32(*store);
                state.write_u64(*variable);
            }
            FormKey::Over { op, operands } => {
                hash_op(op, state);
                hash_operands(operands, state);
            }
        }
    }
}

fn hash_operands<H: Hasher>(operands: &Forms, state: &mut H)
    ensures { state.new ≡ fold H.write state.old (operands_input operands.now) }
{
    match operands {
        Forms::None => state.write_u8(0),
        Forms::One(a) => state.write_usize(*a),
        Forms::Two(a, b) => {
            state.write_usize(*a);
            state.write_usize(*b);
        }
    }
}

fn hash_op<H: Hasher>(op: &OpKey, state: &mut H)
    ensures { state.new ≡ fold H.write state.old (op_input op.now) }
{
    match op {
        OpKey::Constant(c) => hash_cell(c, state),
        OpKey::Unary(_) => state.write_u8(1),
        OpKey::Binary(_) => state.write_u8(2),
        OpKey::Filter => state.write_u8(3),
        OpKey::Reduce(_) => state.write_u8(4),
        OpKey::Scan(_) => state.write_u8(5),
        OpKey::Head(k) => state.write_u64(*k),
        OpKey::Tail(k) => state.write_u64(*k),
        OpKey::Distinct => state.write_u8(6),
        OpKey::Group { .. } => state.write_u8(7),
    }
}

fn hash_cell<H: Hasher>(cell: &CellKey, state: &mut H)
    ensures { state.new ≡ fold H.write state.old (cell_input cell.now) }
{
    match cell {
        CellKey::Whole(_, n) => state.write_i128(*n),
        CellKey::Logical(b) => state.write_u8(if *b { 1 } else { 0 }),
        CellKey::Double(d) => hash_number(*d, state),
        CellKey::Text(n) => state.write_usize(*n),
    }
}

fn hash_number<H: Hasher>(number: Option<i64>, state: &mut H)
    ensures { state.new ≡ fold H.write state.old (number_input number) }
{
    match number {
        None => state.write_u8(0),
        Some(n) => state.write_i64(n),
    }
}

impl Hash for SpaceKey {
    ghost hash_input = { space_input };

    ghost respects_eq = { λ a b e. ap space_input (space_same a b e) };

    fn hash<H: Hasher>(&self, state: &mut H) {
        match self {
            SpaceKey::Single => state.write_u8(0),
            SpaceKey::RowsOf(store) => state.write_u32(*store),
            SpaceKey::Kept { space, mask } => {
                state.write_usize(*space);
                state.write_usize(*mask);
            }
            SpaceKey::First { k, space } | SpaceKey::Last { k, space } => {
                state.write_u64(*k);
                state.write_usize(*space);
            }
            SpaceKey::Distinct(form) => state.write_usize(*form),
            SpaceKey::Groups { key, .. } => state.write_usize(*key),
        }
    }
}
