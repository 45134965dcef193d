//! The machine of the board: workers claim places, lay a piece for each and publish it, one event at a time.
//!
//! Each place is claimed once, whatever the order of the events, so the pieces stand in place order and none is
//! missing or double.
#![tactic(auto)]

mod event;
mod laws;
mod machine;
#[cfg(test)]
mod tests;

pub use event::{Event, Held};
pub use laws::each_place_once;
pub use machine::Machine;
