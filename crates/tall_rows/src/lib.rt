//! Scripts with their files, and what the program prints of them: tests alone, of the one call that does all.
#![tactic(auto)]

#[cfg(test)]
mod outside;
#[cfg(test)]
mod tests;
