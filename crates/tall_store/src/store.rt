//! Datastores.
ghost use Rattle.std.specs.Prelude.{◌≡◌, ◌<◌, ◌≤◌, ◌^◌, ◌+◌, ◌-◌, length, get_or, []};
ghost use Rattle.tall_cut.specs.Cuts.{rows_of};
ghost use Rattle.tall_store.specs.Formats.{class_of_format};
ghost use Rattle.tall_store.specs.Stores.{IsStore, format_at, name_at, selected_names};
ghost use Rattle.tall_store.specs.Choices.{place_of};
ghost use Rattle.tall_store.specs.Headers.{is_one_record};
ghost use Rattle.tall_store.specs.declared.format.Format.TheVariants as format;

use crate::format::Format;
use crate::record::is_same;
use csv::ByteRecord;
use std::alloc::Global;
use std::marker::Model;
use tall_cut::{ReadSize, Records};
use tall_value::{Class, Text};

/// Files with one set of variables (MathWorks, TabularTextDatastore), which contracts see as plain data. Its variables
/// are those that the first record of the first file gave at the opening. It keeps its allocator.
#[derive(Drop)]
pub struct Datastore {
    pub(crate) files: Vec<Text>,
    pub(crate) delimiter: u8,
    pub(crate) size: ReadSize,
    pub(crate) missing: Vec<Text>,
    pub(crate) header: bool,
    pub(crate) names: Vec<Text>,
    pub(crate) formats: Vec<Format>,
    // Places among the names.
    pub(crate) selected: Vec<usize>,
    pub(crate) first: ByteRecord,
    pub(crate) alloc: Global,
}

impl Model for Datastore {
    ghost use Rattle.csv.specs.Records.{fields_of};
    ghost use Rattle.tall_store.specs.Stores.{IsStore, SeenStore};

    ghost Value = { SeenStore };

    ghost view = { λ d. record { files = d.files.items; delimiter = d.delimiter; size = d.size; missing = d.missing.items; header = d.header; names = d.names.items; formats = d.formats.items; selected = d.selected.items; first = fields_of d.first } };

    ghost invariant = { λ d. IsStore (record { files = d.files.items; delimiter = d.delimiter; size = d.size; missing = d.missing.items; header = d.header; names = d.names.items; formats = d.formats.items; selected = d.selected.items; first = fields_of d.first }) };
}

impl Datastore {
    /// How many files there are.
    pub fn file_count(&self) -> u32
        ensures count { result ≡ length self.now.files }
        ensures store { IsStore self.now }
    {
        self.files.len() as u32
    }

    /// The byte between two fields.
    pub fn delimiter(&self) -> u8
        ensures { result ≡ self.now.delimiter }
    {
        self.delimiter
    }

    /// How many records a block has.
    pub fn size(&self) -> ReadSize
        ensures size { result ≡ self.now.size }
        ensures some { 0 < rows_of result }
    {
        self.size
    }

    /// Whether the first record of each file is its header.
    pub fn has_header(&self) -> bool
        ensures { result ≡ self.now.header }
    {
        self.header
    }

    /// The name of a file, from 0.
    pub fn file_name(&self, k: u32) -> &str
        requires { k < length self.now.files }
        ensures { result.now ≡ get_or self.now.files k [] }
    {
        self.files[k as usize].as_str()
    }

    /// The name of the variable of a column of the file, from 1.
    pub fn variable_name(&self, column: u32) -> &str
        requires some { 0 < column }
        requires few { column ≤ length self.now.names }
        ensures { result.now ≡ name_at self.now (column - 1) }
    {
        self.names[column as usize - 1].as_str()
    }

    /// How many variables are selected.
    pub fn selected_count(&self) -> u32
        ensures { result ≡ length self.now.selected }
    {
        self.selected.len() as u32
    }

    /// The name of the selected variable at a place of the selection, from 0.
    pub fn selected_name(&self, k: u32) -> &str
        requires { k < length self.now.selected }
        ensures name { result.now ≡ name_at self.now (get_or self.now.selected k 0) }
    {
        self.names[self.selected[k as usize]].as_str()
    }

    /// The class of the selected variable at a place of the selection, from 0.
    pub fn class_at(&self, k: u32) -> Class
        requires { k < length self.now.selected }
        ensures class { result ≡ class_of_format (format_at self.now (get_or self.now.selected k 0)) }
        ensures store { IsStore self.now }
    {
        self.formats[self.selected[k as usize]].class()
    }

    /// The place of the selected variable of a name in the selection, from 0; None exactly where no selected variable has
    /// the name.
    pub fn find(&self, name: &str) -> Option<u32>
        ensures { result ≡ place_of (selected_names self.now) name.now }
    {
        find_name(self, name)
    }

    /// Whether there is one record, and it is equal, field by field, to the first record that the opening read.
    pub fn same_header(&self, first: &Records) -> bool
        ensures { result ≡ is_one_record self.now.first first.now }
    {
        first.len() == 1 && is_same(&self.first, first)
    }

    // The allocator.
    pub(crate) fn alloc(&self) -> Global {
        self.alloc
    }

    // The spellings of missing values.
    pub(crate) fn missing(&self) -> &[Text]
        ensures { result.now ≡ self.now.missing }
    {
        self.missing.as_slice()
    }

    /// How many variables a file has, selected or not.
    pub fn variable_count(&self) -> usize
        ensures { result ≡ length self.now.names }
    {
        self.names.len()
    }

    // The places of the selected variables among all.
    pub(crate) fn places(&self) -> &[usize]
        ensures places { result.now ≡ self.now.selected }
        ensures store { IsStore self.now }
    {
        self.selected.as_slice()
    }

    // The names of all variables.
    pub(crate) fn names(&self) -> &[Text]
        ensures { result.now ≡ self.now.names }
    {
        self.names.as_slice()
    }

    // The formats of all variables.
    pub(crate) fn formats(&self) -> &[Format]
        ensures formats { result.now ≡ self.now.formats }
        ensures store { IsStore self.now }
    {
        self.formats.as_slice()
    }

    // The name of the variable at a place among all.
    pub(crate) fn name(&self, place: usize) -> &str
        requires { place < length self.now.names }
        ensures { result.now ≡ name_at self.now place }
    {
        self.names[place].as_str()
    }

    // The format of the variable at a place among all.
    pub(crate) fn format(&self, place: usize) -> Format
        requires { place < length self.now.names }
        ensures { result ≡ format_at self.now place }
    {
        self.formats[place]
    }
}

// The place of a name among those of the selected variables.
#[tactic(auto, using(crate::proofs::Finding::place_found, crate::proofs::Finding::place_passed, crate::proofs::Finding::place_none))]
fn find_name(store: &Datastore, name: &str) -> Option<u32>
    ensures { result ≡ place_of (selected_names store.now) name.now }
{
    let places = store.places();
    for k in 0..places.len() {
        if store.name(places[k]) == name {
            return Some(k as u32);
        }
    }
    None
}
