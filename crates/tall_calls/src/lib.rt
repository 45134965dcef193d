//! Small tables of calls of the crates that read scripts and data, at concrete types: tests alone.
//!
//! Tests of a crate prove that crate once more. Here each crate is a library, which is proved once.
#![tactic(auto)]

#[cfg(test)]
mod cases;
#[cfg(test)]
mod counting;
#[cfg(test)]
mod scripts;
#[cfg(test)]
mod stores;
