//! Keys with their places, for each kind of key.
ghost use Rattle.std.specs.Prelude.{◌≡◌, ◌<◌, [], IfOk, MatchResult, Some, length, map, slice_get, string_bytes, take};
ghost use Rattle.tall_value.specs.declared.class.Class.TheVariants as class;
ghost use Rattle.tall_value.specs.declared.class.Kind.{Kind};
ghost use Rattle.tall_value.specs.declared.class.Kind.TheVariants.{Text};
ghost use Rattle.tall_value.specs.Cells.{seen, seen_kind, text};
ghost use Rattle.std.specs.List.{All};
ghost use Rattle.tall_value.specs.Classes.{kind_of};
ghost use Rattle.tall_value.specs.Columns.{HasKind};
ghost use Rattle.tall_dense.specs.Columns.{class_of_cell};
ghost use Rattle.tall_group.specs.Keys.{AreSorted, IsPlaced};
ghost use Rattle.tall_group.specs.Tables.{AreExact, ArePlaces, IsNumeric, IsTable, keys_shown, number_cells};

use crate::numbers::{Number, key_cell, number_of};
use indexmap::IndexMap;
use std::alloc::{AllocError, Global};
use tall_column::Column;
use tall_value::{Cell, Class};

/// The keys, each with its place: numbers for all classes but texts.
#[derive(Drop)]
pub(crate) enum Keys {
    Numbers(IndexMap<Number, usize>),
    Texts(IndexMap<String, usize>),
}

/// The place of a cell's number among the keys, to which it is added where it isn't there.
fn number_place(map: &mut IndexMap<Number, usize>, cell: &Cell<'_>) -> Result<usize, AllocError>
    requires numeric { IsNumeric (seen_kind (seen cell.now)) }
    requires exact { AreExact (seen_kind (seen cell.now)) map.old.entries }
    requires places { ArePlaces map.old.entries }
    ensures key { MatchResult result (λ p. IsPlaced (number_cells (seen_kind (seen cell.now)) map.old.entries) (number_cells (seen_kind (seen cell.now)) map.new.entries) (seen cell.now) p) (λ _. map.new.entries ≡ map.old.entries) }
    ensures exact { AreExact (seen_kind (seen cell.now)) map.new.entries }
    ensures places { ArePlaces map.new.entries }
{
    let number = number_of(cell);
    if let Some(place) = map.get_index_of(&number) {
        return Ok(place);
    }
    let place = map.len();
    match map.insert(number, place) {
        Ok(_) => Ok(place),
        Err(_) => Err(AllocError),
    }
}

/// The place of a text among the keys, to which it is added where it isn't there.
fn text_place(
    alloc: Global,
    texts: &mut IndexMap<String, usize>,
    key: &str,
) -> Result<usize, AllocError>
    requires places { ArePlaces texts.old.entries }
    ensures key { MatchResult result (λ p. IsPlaced (map (λ e. text (string_bytes e.0)) texts.old.entries) (map (λ e. text (string_bytes e.0)) texts.new.entries) (text key.now) p) (λ _. texts.new.entries ≡ texts.old.entries) }
    ensures places { ArePlaces texts.new.entries }
{
    if let Some(place) = texts.get_index_of(key) {
        return Ok(place);
    }
    let place = texts.len();
    let kept = String::from_str(alloc, key)?;
    texts.insert(kept, place)?;
    Ok(place)
}

impl Keys {
    /// The place of a cell among the keys, to which it is added where it isn't there.
    pub(crate) fn place(&mut self, alloc: Global, cell: &Cell<'_>) -> Result<usize, AllocError>
        requires { IsTable (seen_kind (seen cell.now)) self.old }
        ensures key { MatchResult result (λ p. IsPlaced (keys_shown (seen_kind (seen cell.now)) self.old) (keys_shown (seen_kind (seen cell.now)) self.new) (seen cell.now) p) (λ _. keys_shown (seen_kind (seen cell.now)) self.new ≡ keys_shown (seen_kind (seen cell.now)) self.old) }
        ensures table { IsTable (seen_kind (seen cell.now)) self.new }
    {
        match (self, cell) {
            (Keys::Texts(map), Cell::Text(text)) => text_place(alloc, map, text),
            (Keys::Texts(_), _) => unreachable!(),
            (Keys::Numbers(map), _) => number_place(map, cell),
        }
    }
}

/// Keys in a column, and the place of each.
#[derive(Drop)]
pub(crate) struct PlacedKeys {
    pub column: Column,
    pub places: Vec<usize>,
}

/// The numbers as cells, and their places, in the order of the map.
fn number_column(
    alloc: Global,
    class: Class,
    numbers: &IndexMap<Number, usize>,
) -> Result<PlacedKeys, AllocError>
    ensures column { IfOk result (λ r. r.column ≡ record { class = class; cells = number_cells (kind_of class) numbers.now.entries }) }
    ensures places { IfOk result (λ r. r.places.items ≡ map (λ e. e.1) numbers.now.entries) }
{
    let kind = class.kind();
    let mut column = Column::new(alloc, class);
    let mut places = Vec::with_capacity(alloc, numbers.len())?;
    for i in 0..numbers.len() {
        let Some((number, place)) = numbers.get_index(i) else {
            unreachable!()
        };
        column.push(&key_cell(kind, *number))?;
        places.push(*place)?;
    }
    Ok(PlacedKeys { column, places })
}

/// The texts as cells, and their places, in the order of the map.
fn text_column(alloc: Global, texts: &IndexMap<String, usize>) -> Result<PlacedKeys, AllocError>
    ensures column { IfOk result (λ r. r.column ≡ record { class = class.Text; cells = map (λ e. text (string_bytes e.0)) texts.now.entries }) }
    ensures places { IfOk result (λ r. r.places.items ≡ map (λ e. e.1) texts.now.entries) }
{
    let mut column = Column::new(alloc, Class::Text);
    let mut places = Vec::with_capacity(alloc, texts.len())?;
    for i in 0..texts.len() {
        let Some((key, place)) = texts.get_index(i) else {
            unreachable!()
        };
        column.push(&Cell::Text(key.as_str()))?;
        places.push(*place)?;
    }
    Ok(PlacedKeys { column, places })
}

/// The numbers as cells in rising order, each with its place.
fn sorted_numbers(
    alloc: Global,
    class: Class,
    mut numbers: IndexMap<Number, usize>,
) -> Result<PlacedKeys, AllocError>
    requires numeric { IsNumeric (kind_of class) }
    requires exact { AreExact (kind_of class) numbers.entries }
    requires places { ArePlaces numbers.entries }
    ensures class { IfOk result (λ r. r.column.class ≡ class) }
    ensures sorted { IfOk result (λ r. AreSorted (number_cells (kind_of class) numbers.entries) r.places.items r.column.cells) }
    ensures kinds { IfOk result (λ r. All (HasKind (kind_of class)) r.column.cells) }
{
    numbers.sort_keys()?;
    number_column(alloc, class, &numbers)
}

/// The texts as cells in rising order, each with its place.
fn sorted_texts(alloc: Global, mut texts: IndexMap<String, usize>) -> Result<PlacedKeys, AllocError>
    requires places { ArePlaces texts.entries }
    ensures class { IfOk result (λ r. r.column.class ≡ class.Text) }
    ensures sorted { IfOk result (λ r. AreSorted (map (λ e. text (string_bytes e.0)) texts.entries) r.places.items r.column.cells) }
    ensures kinds { IfOk result (λ r. All (HasKind Text) r.column.cells) }
{
    texts.sort_keys()?;
    text_column(alloc, &texts)
}

/// The cell of the number at a place.
fn number_at<'a>(numbers: &IndexMap<Number, usize>, class: Class, place: usize) -> Cell<'a>
    requires { place < length (number_cells (kind_of class) numbers.now.entries) }
    ensures cell { slice_get (number_cells (kind_of class) numbers.now.entries) place ≡ Some (seen result) }
    ensures class { class_of_cell (seen result) ≡ class }
{
    let Some((number, _)) = numbers.get_index(place) else {
        unreachable!()
    };
    key_cell(class.kind(), *number)
}

/// The cell of the text at a place.
fn text_at(texts: &IndexMap<String, usize>, place: usize) -> Cell<'_>
    requires { place < length (map (λ e. text (string_bytes e.0)) texts.now.entries) }
    ensures cell { slice_get (map (λ e. text (string_bytes e.0)) texts.now.entries) place ≡ Some (seen result) }
    ensures class { class_of_cell (seen result) ≡ class.Text }
{
    let Some((key, _)) = texts.get_index(place) else {
        unreachable!()
    };
    Cell::Text(key.as_str())
}

impl Keys {
    /// The keys in rising order, each with its place.
    pub(crate) fn sorted(self, alloc: Global, class: Class) -> Result<PlacedKeys, AllocError>
        requires { IsTable (kind_of class) self }
        ensures class { IfOk result (λ r. r.column.class ≡ class) }
        ensures sorted { IfOk result (λ r. AreSorted (keys_shown (kind_of class) self) r.places.items r.column.cells) }
        ensures kinds { IfOk result (λ r. All (HasKind (kind_of class)) r.column.cells) }
    {
        match self {
            Keys::Numbers(numbers) => sorted_numbers(alloc, class, numbers),
            Keys::Texts(texts) => sorted_texts(alloc, texts),
        }
    }

    /// The key at a place.
    pub(crate) fn get(&self, class: Class, place: usize) -> Cell<'_>
        requires table { IsTable (kind_of class) self.now }
        requires within { place < length (keys_shown (kind_of class) self.now) }
        ensures cell { slice_get (keys_shown (kind_of class) self.now) place ≡ Some (seen result) }
        ensures class { class_of_cell (seen result) ≡ class }
    {
        match self {
            Keys::Numbers(numbers) => number_at(numbers, class, place),
            Keys::Texts(texts) => text_at(texts, place),
        }
    }

    /// Keeps the first keys, so many.
    pub(crate) fn truncate(&mut self, len: usize)
        ensures keys { (kind : Kind) → keys_shown kind self.new ≡ take len (keys_shown kind self.old) }
        ensures table { (kind : Kind) → IsTable kind self.old → IsTable kind self.new }
    {
        match self {
            Keys::Numbers(numbers) => numbers.truncate(len),
            Keys::Texts(texts) => texts.truncate(len),
        }
    }

    /// The number of keys.
    pub(crate) fn len(&self) -> usize
        ensures count { (kind : Kind) → result ≡ length (keys_shown kind self.now) }
    {
        match self {
            Keys::Numbers(numbers) => numbers.len(),
            Keys::Texts(texts) => texts.len(),
        }
    }
}

/// No keys of a class.
pub(crate) fn no_keys(alloc: Global, class: Class) -> Keys
    ensures table { IsTable (kind_of class) result }
    ensures none { keys_shown (kind_of class) result ≡ [] }
{
    match class {
        Class::Text => Keys::Texts(IndexMap::new(alloc)),
        _ => Keys::Numbers(IndexMap::new(alloc)),
    }
}
