//! The names of variables.
ghost use Rattle.std.specs.Prelude.{◌≡◌, ◌<◌, ◌^◌, ◌||◌, ◌++◌, ◌∷◌, [], ℕ, IfOk, OnOk, List, Some, cond, is_some, length, true};
ghost use Rattle.std.specs.BTreeMap.{get_by_text};
ghost use Rattle.std.specs.BTreeSet.{contains_text};
ghost use Rattle.std.specs.List.{IsDistinct, list_all};
ghost use Rattle.std.specs.Map.{update};
ghost use Rattle.std.specs.Str.{bytes_eq, is_utf8};
ghost use Rattle.csv.specs.Records.{fields_of};
ghost use Rattle.tall_store.specs.Names.{distinct_name, field_name, header_names, numbered_name, numbered_names, suffix_of, suffixed, variable_names};
ghost use Rattle.tall_store.specs.NamesSoFar.{HasNames, IsNaming, IsPassed};

use crate::record::field_at;
use csv::ByteRecord;
use std::alloc::{AllocError, Global};
use std::collections::{BTreeMap, BTreeSet};
use std::str::from_utf8;
use tall_value::Text;

// `Var` with a position.
fn numbered_name(alloc: Global, position: usize) -> Result<Text, AllocError>
    ensures { IfOk result (λ text. text ≡ numbered_name position) }
{
    let name = format!(in alloc; "Var{position}")?;
    Text::of(alloc, name.as_str())
}

// The name that a header field gives by itself.
fn field_name(alloc: Global, position: usize, field: &[u8]) -> Result<Text, AllocError>
    requires { is_utf8 field.now ≡ true }
    ensures { IfOk result (λ text. text ≡ field_name position field.now) }
{
    if field.is_empty() {
        return numbered_name(alloc, position);
    }
    match from_utf8(field) {
        Ok(text) => Text::of(alloc, text),
        Err(_) => unreachable!(),
    }
}

// A name with a suffix.
fn suffixed(alloc: Global, name: &Text, k: usize) -> Result<Text, AllocError>
    ensures { IfOk result (λ text. text ≡ suffixed name.now k) }
{
    let name = name.as_str();
    let text = format!(in alloc; "{name}_{k}")?;
    Text::of(alloc, text.as_str())
}

// Adds a name to a set.
fn add_name(alloc: Global, set: &mut BTreeSet<String>, name: &str) -> Result<(), AllocError>
    ensures { OnOk result ((text : List ℕ) → contains_text set.new text ≡ cond (bytes_eq name.now text) true (contains_text set.old text)) }
{
    let key = String::from_str(alloc, name)?;
    set.insert(key)?;
    Ok(())
}

// Adds a field to a set.
fn add_field(alloc: Global, set: &mut BTreeSet<String>, field: &[u8]) -> Result<(), AllocError>
    requires { is_utf8 field.now ≡ true }
    ensures { OnOk result ((text : List ℕ) → contains_text set.new text ≡ cond (bytes_eq field.now text) true (contains_text set.old text)) }
{
    match from_utf8(field) {
        Ok(name) => add_name(alloc, set, name),
        Err(_) => unreachable!(),
    }
}

// The fields in a set.
#[tactic(auto, using(crate::proofs::TakenNames::fields_start, crate::proofs::TakenNames::fields_more, crate::proofs::TakenNames::fields_all, crate::proofs::HeaderNames::field_utf8))]
fn field_set(alloc: Global, fields: &ByteRecord) -> Result<BTreeSet<String>, AllocError>
    requires { list_all is_utf8 (fields_of fields.now) ≡ true }
    ensures { IfOk result (λ set. HasNames set (fields_of fields.now)) }
{
    let mut set = BTreeSet::new(alloc);
    for k in 0..fields.len() {
        add_field(alloc, &mut set, field_at(fields, k))?;
    }
    Ok(set)
}

// The names of the first variables of a header, with what tells quickly whether a name is taken.
#[derive(Drop)]
pub(crate) struct Naming<'r> {
    fields: &'r ByteRecord,
    field_set: BTreeSet<String>,
    names: Vec<Text>,
    // For the name of each earlier variable the first suffix that may still be free for it. As each suffix of a name is
    // tried once, naming takes as many tries as there are fields and names in all.
    next: BTreeMap<String, usize>,
}

impl<'r> Naming<'r> {
    // No name yet.
    #[tactic(auto, using(crate::proofs::TakenNames::known_start))]
    fn new(alloc: Global, fields: &'r ByteRecord) -> Result<Naming<'r>, AllocError>
        requires { list_all is_utf8 (fields_of fields.now) ≡ true }
        ensures naming { IfOk result (λ naming. IsNaming naming) }
        ensures fields { IfOk result (λ naming. naming.fields.now ≡ fields.now) }
        ensures names { IfOk result (λ naming. naming.names.items ≡ []) }
    {
        Ok(Naming {
            fields,
            field_set: field_set(alloc, fields)?,
            names: Vec::new(alloc),
            next: BTreeMap::new(alloc),
        })
    }

    // Whether a field or an earlier variable has this name.
    fn is_taken(&self, name: &str) -> bool
        ensures { result ≡ (contains_text self.now.field_set name.now || is_some (get_by_text self.now.next name.now)) }
    {
        self.field_set.contains(name) || self.next.contains_key(name)
    }

    // The first suffix that may be free for the name of an earlier variable.
    fn next_suffix(&self, name: &Text) -> Option<usize>
        ensures { result ≡ get_by_text self.now.next name.now }
    {
        self.next.get(name.as_str()).copied()
    }

    // The least suffix that gives a name which neither a field nor an earlier variable has, from `start` on.
    fn free_suffix(&self, alloc: Global, name: &Text, start: usize) -> Result<usize, AllocError>
        requires naming { IsNaming self.now }
        requires fields { length (fields_of self.now.fields.now) < 2 ^ 20 }
        requires names { length self.now.names.items < 2 ^ 20 }
        requires passed { IsPassed (fields_of self.now.fields.now) self.now.names.items name.now start }
        ensures suffix { IfOk result (λ k. k ≡ suffix_of (fields_of self.now.fields.now) self.now.names.items name.now) }
        ensures few { IfOk result (λ k. k < 2 ^ 21) }
    {
        let most = self.fields.len() + self.names.len();
        for k in start..most + 1 {
            let candidate = suffixed(alloc, name, k)?;
            if !self.is_taken(candidate.as_str()) {
                return Ok(k);
            }
        }
        Ok(most + 1)
    }

    // Keeps the first suffix that may be free for the name of an earlier variable.
    fn set_next(&mut self, alloc: Global, name: &Text, suffix: usize) -> Result<(), AllocError>
        ensures same { (self.new.fields.now ≡ self.old.fields.now) × (self.new.field_set ≡ self.old.field_set) × (self.new.names.items ≡ self.old.names.items) }
        ensures next { OnOk result ((key : List ℕ) → get_by_text self.new.next key ≡ update bytes_eq (get_by_text self.old.next) name.now (Some suffix) key) }
    {
        let key = String::from_str(alloc, name.as_str())?;
        self.next.insert(key, suffix)?;
        Ok(())
    }

    // Adds the name of the next variable as it is.
    fn push(&mut self, alloc: Global, name: Text) -> Result<(), AllocError>
        requires { IsNaming self.old }
        ensures naming { OnOk result (IsNaming self.new) }
        ensures fields { self.new.fields.now ≡ self.old.fields.now }
        ensures names { OnOk result (self.new.names.items ≡ self.old.names.items ++ name ∷ []) }
    {
        self.set_next(alloc, &name, 1)?;
        self.names.push(name)?;
        Ok(())
    }

    // Adds a name that an earlier variable has, with its least free suffix.
    fn push_suffixed(&mut self, alloc: Global, name: &Text, start: usize) -> Result<(), AllocError>
        requires naming { IsNaming self.old }
        requires fields { length (fields_of self.old.fields.now) < 2 ^ 20 }
        requires names { length self.old.names.items < 2 ^ 20 }
        requires start { get_by_text self.old.next name.now ≡ Some start }
        ensures naming { OnOk result (IsNaming self.new) }
        ensures fields { self.new.fields.now ≡ self.old.fields.now }
        ensures names { OnOk result (self.new.names.items ≡ self.old.names.items ++ suffixed name.now (suffix_of (fields_of self.old.fields.now) self.old.names.items name.now) ∷ []) }
    {
        let suffix = self.free_suffix(alloc, name, start)?;
        self.push(alloc, suffixed(alloc, name, suffix)?)?;
        self.set_next(alloc, name, suffix + 1)
    }

    // Adds the name of the next variable, by the name that its field gives.
    fn add(&mut self, alloc: Global, name: Text) -> Result<(), AllocError>
        requires naming { IsNaming self.old }
        requires fields { length (fields_of self.old.fields.now) < 2 ^ 20 }
        requires names { length self.old.names.items < 2 ^ 20 }
        ensures naming { OnOk result (IsNaming self.new) }
        ensures fields { self.new.fields.now ≡ self.old.fields.now }
        ensures names { OnOk result (self.new.names.items ≡ self.old.names.items ++ distinct_name (fields_of self.old.fields.now) self.old.names.items name ∷ []) }
    {
        match self.next_suffix(&name) {
            Some(start) => self.push_suffixed(alloc, &name, start),
            None => self.push(alloc, name),
        }
    }
}

// The names that a header gives.
#[tactic(auto, using(crate::proofs::HeaderNames::names_more, crate::proofs::HeaderNames::names_all, crate::proofs::HeaderNames::distinct_header, crate::proofs::HeaderNames::field_utf8))]
fn header_names(alloc: Global, fields: &ByteRecord) -> Result<Vec<Text>, AllocError>
    requires few { length (fields_of fields.now) < 2 ^ 20 }
    requires utf8 { list_all is_utf8 (fields_of fields.now) ≡ true }
    ensures names { IfOk result (λ names. names.items ≡ header_names (fields_of fields.now)) }
    ensures distinct { IfOk result (λ names. IsDistinct bytes_eq names.items) }
{
    let mut naming = Naming::new(alloc, fields)?;
    for k in 0..fields.len() {
        let name = field_name(alloc, k + 1, field_at(fields, k))?;
        naming.add(alloc, name)?;
    }
    let Naming { names, .. } = naming;
    Ok(names)
}

// The names of so many variables without a header.
#[tactic(auto, using(crate::proofs::HeaderNames::range_all, crate::proofs::HeaderNames::distinct_numbers))]
fn numbered_names(alloc: Global, n: usize) -> Result<Vec<Text>, AllocError>
    requires { n < 2 ^ 20 }
    ensures names { IfOk result (λ names. names.items ≡ numbered_names n) }
    ensures distinct { IfOk result (λ names. IsDistinct bytes_eq names.items) }
{
    let mut names = Vec::new(alloc);
    for k in 0..n {
        names.push(numbered_name(alloc, k + 1)?)?;
    }
    Ok(names)
}

/// The names of the variables, by the first record of the first file.
pub(crate) fn variable_names(
    alloc: Global,
    header: bool,
    first: &ByteRecord,
) -> Result<Vec<Text>, AllocError>
    requires few { length (fields_of first.now) < 2 ^ 20 }
    requires utf8 { header ≡ true → list_all is_utf8 (fields_of first.now) ≡ true }
    ensures names { IfOk result (λ names. names.items ≡ variable_names header (fields_of first.now)) }
    ensures distinct { IfOk result (λ names. IsDistinct bytes_eq names.items) }
{
    if header {
        header_names(alloc, first)
    } else {
        numbered_names(alloc, first.len())
    }
}
