//! Blocks of whole records of a CSV text, found without reading its fields.
#![tactic(auto)]

mod finding;
mod front;
mod laws;
mod raw;
mod scanning;
mod source;
mod state;
mod text;
mod words;

pub use finding::{Found, find_block};
pub use raw::RawBlock;
pub use scanning::{Scan, scan_records};
pub use source::Source;
pub use state::ScanState;
pub use text::Text;
