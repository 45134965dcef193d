//! The options of a datastore.

use crate::format::Format;
use tall_cut::ReadSize;

/// An option of `tabularTextDatastore` (MathWorks, tabularTextDatastore).
#[derive(Clone, Copy, Debug, PartialEq, Eq)]
pub enum OptionName {
    /// The byte between two fields.
    Delimiter,
    /// How many records a block has.
    ReadSize,
    /// The spellings that are missing values of a number.
    TreatAsMissing,
    /// The variables that are read.
    SelectedVariableNames,
    /// The formats of all variables of the file.
    TextscanFormats,
    /// Whether the first record of each file is its header.
    ReadVariableNames,
}

/// A property of a datastore that a script may change (MathWorks, TabularTextDatastore).
#[derive(Clone, Copy, Debug, PartialEq, Eq)]
pub enum Property {
    /// How many records a block has.
    ReadSize,
    /// The variables that are read.
    SelectedVariableNames,
    /// The formats of all variables of the file.
    TextscanFormats,
}

/// What a datastore is made of (MathWorks, tabularTextDatastore).
#[derive(Drop)]
pub struct Options {
    /// The names of the files.
    pub files: Vec<String>,
    /// The byte between two fields.
    pub delimiter: u8,
    /// How many records a block has.
    pub size: ReadSize,
    /// The spellings that are missing values of a number, besides the empty field.
    pub missing: Vec<String>,
    /// The variables that are read, in the order of the table's columns; all of the file where none are named.
    pub selected: Option<Vec<String>>,
    /// The formats of all variables of the file; detected where none are given.
    pub formats: Option<Vec<Format>>,
    /// Whether the first record of each file is its header.
    pub header: bool,
}
