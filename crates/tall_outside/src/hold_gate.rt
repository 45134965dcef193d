//! A gate that holds one worker until others have come.
use crate::gate::Gate;
use std::sync::atomic::Ordering::SeqCst;
use std::sync::atomic::{AtomicBool, AtomicU64};
use std::thread::yield_now;

/// A gate for tests: the call for one place is held until so many calls for other places have come, or until its
/// turns are spent. No clause says what it counts, since other threads change the counts at any time.
#[derive(Drop)]
pub struct HoldGate {
    place: u64,
    others: u64,
    turns: u64,
    calls: AtomicU64,
    came: AtomicU64,
    spent: AtomicBool,
}

impl HoldGate {
    pub fn new(place: u64, others: u64, turns: u64) -> HoldGate {
        HoldGate {
            place,
            others,
            turns,
            calls: AtomicU64::new(0),
            came: AtomicU64::new(0),
            spent: AtomicBool::new(false),
        }
    }

    /// Whether a call was let go because its turns ran out.
    pub fn spent(&self) -> bool {
        self.spent.load(SeqCst)
    }

    /// How many calls of `between` came.
    pub fn calls(&self) -> u64 {
        self.calls.load(SeqCst)
    }

    fn have_come(&self) -> bool {
        self.came.load(SeqCst) >= self.others
    }
}

impl Gate for HoldGate {
    fn between(&self, place: u64) {
        self.calls.fetch_add(1, SeqCst);
        if place != self.place {
            self.came.fetch_add(1, SeqCst);
            return;
        }
        for _turn in 0..self.turns {
            if self.have_come() {
                return;
            }
            yield_now();
        }
        if !self.have_come() {
            self.spent.store(true, SeqCst);
        }
    }
}

#[cfg(test)]
#[test]
fn a_held_call_is_let_go_once_others_came(rt: HostRuntime) {
    let gate = HoldGate::new(3, 1, 10);
    gate.between(3);
    assert!(rt; gate.spent() && gate.calls() == 1);
    let gate = HoldGate::new(3, 1, 10);
    gate.between(4);
    gate.between(3);
    assert!(rt; !gate.spent() && gate.calls() == 2);
}
