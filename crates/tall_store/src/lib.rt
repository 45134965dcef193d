//! Datastores: options, the names and formats of variables, and blocks of records as columns.
#![tactic(auto)]

mod choices;
mod columns;
mod faults;
mod file_end;
mod file_rows;
mod format;
mod laws;
mod names;
mod open;
mod opening;
mod options;
mod order;
mod part;
mod properties;
mod record;
mod store;
mod texts;
mod values;

pub use faults::{ColumnsFault, ReadingFault, ReadingKind, StoreFault};
pub use file_end::FileEnd;
pub use file_rows::{FileBlock, FileRows, FileStep, RefusedFile};
pub use format::Format;
pub use laws::{blocks_make_the_whole, files_follow};
pub use options::{OptionName, Options, Property};
pub use store::Datastore;
