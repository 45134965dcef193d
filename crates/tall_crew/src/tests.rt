use crate::{work, work_beside};
use std::test::Fail;
use tall_board::{Right, Task};
use tall_outside::{HoldGate, OpenGate};

// The piece of a place is its number.
#[derive(Drop)]
struct Numbers;

impl Right for Numbers {
    ghost use Rattle.std.specs.Prelude.{◌≡◌};

    type Piece = u64;

    ghost right = { λ _ place piece. piece ≡ place };
}

impl Task for Numbers {
    fn piece(&self, place: u64) -> u64 {
        place
    }
}

#[test]
fn workers_give_pieces_in_place_order(rt: HostRuntime) -> Result<(), Fail> {
    for workers in 1..=4u32 {
        let pieces = work(&rt, rt.alloc(), &OpenGate, Numbers, 5, workers)?;
        assert!(rt; pieces.as_slice() == [0, 1, 2, 3, 4].as_slice());
    }
    Ok(())
}

// The worker of place 0 waits until another one has come for three other places.
#[test]
fn two_workers_run_side_by_side(rt: HostRuntime) -> Result<(), Fail> {
    let gate = HoldGate::new(0, 3, 100_000_000);
    let (pieces, answer) = work_beside(&rt, rt.alloc(), &gate, Numbers, 4, 2, || 7u8);
    assert!(rt; pieces?.as_slice() == [0, 1, 2, 3].as_slice() && answer == 7);
    assert!(rt; !gate.spent() && gate.calls() == 4);
    Ok(())
}
