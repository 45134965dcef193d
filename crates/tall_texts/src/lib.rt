//! Texts in one buffer: their bytes one after the other, and the place where each ends.
//!
//! A list of texts costs two blocks of memory, however many texts there are. A part of it is copied as two blocks, and
//! no byte is validated again.
#![tactic(auto)]

mod texts;

pub use texts::Texts;
