//! Texts in one buffer.
ghost use Rattle.std.specs.Prelude.{◌≡◌, ◌<◌, ◌≤◌, ◌++◌, [], ◌∷◌, IfOk, MatchResult, Some, if◌then◌else◌, is_ok, length, map, slice_get};
ghost use Rattle.std.specs.List.{slice_range};
ghost use Rattle.std.specs.Str.{IsUtf8};
ghost use Rattle.tall_value.specs.declared.class.Class.TheVariants as class;
ghost use Rattle.tall_value.specs.Cells.{logical, seen, seen_kind, text};
ghost use Rattle.tall_value.specs.Filters.{kept};
ghost use Rattle.tall_value.specs.Classes.{class_of};
ghost use Rattle.tall_texts.specs.Texts.{IsCut, begin_at, further, nearer, texts_from};

use std::alloc::{AllocError, Global};
use std::marker::Model;
use tall_value::Cell;

/// The place where a text begins, or where the last one ends.
fn begin(ends: &[usize], at: usize) -> usize
    requires { at ≤ length ends.now }
    ensures { result ≡ begin_at 0 ends.now at }
{
    if at == 0 { 0 } else { ends[at - 1] }
}

/// Where the text at a place begins and ends.
fn place(bytes: &[u8], ends: &[usize], at: usize) -> (usize, usize)
    requires cut { IsCut bytes.now 0 ends.now }
    requires within { at < length ends.now }
    ensures ordered { result.0 ≤ result.1 }
    ensures inside { result.1 ≤ length bytes.now }
    ensures utf8 { IsUtf8 (slice_range bytes.now result.0 result.1) }
    ensures is { slice_get (texts_from bytes.now 0 ends.now) at ≡ Some (slice_range bytes.now result.0 result.1) }
{
    let start = begin(ends, at);
    let end = ends[at];
    (start, end)
}

/// The text at a place.
fn text_at<'a>(bytes: &'a [u8], ends: &[usize], at: usize) -> &'a str
    requires cut { IsCut bytes.now 0 ends.now }
    requires within { at < length ends.now }
    ensures { slice_get (texts_from bytes.now 0 ends.now) at ≡ Some result.now }
{
    let (start, end) = place(bytes, ends, at);
    // Each text was one when it was added.
    unsafe { std::str::from_utf8_unchecked(&bytes[start..end]) }
}

/// Where the texts from one place to before another begin and end.
fn window(bytes: &[u8], ends: &[usize], from: usize, to: usize) -> (usize, usize)
    requires cut { IsCut bytes.now 0 ends.now }
    requires ordered { from ≤ to }
    requires within { to ≤ length ends.now }
    ensures first { result.0 ≡ begin_at 0 ends.now from }
    ensures last { result.1 ≡ begin_at 0 ends.now to }
    ensures ordered { result.0 ≤ result.1 }
    ensures inside { result.1 ≤ length bytes.now }
{
    let start = begin(ends, from);
    let end = begin(ends, to);
    (start, end)
}

/// Places so much nearer to the front.
fn nearer(alloc: Global, ends: &[usize], by: usize) -> Result<Vec<usize>, AllocError>
    ensures { IfOk result (λ v. v.items ≡ nearer by ends.now) }
{
    let mut out = Vec::with_capacity(alloc, ends.len())?;
    for end in ends {
        out.push_reserved(end.saturating_sub(by));
    }
    Ok(out)
}

/// The texts from one place to before another, copied as two blocks.
fn part_of(
    alloc: Global,
    bytes: &[u8],
    ends: &[usize],
    from: usize,
    to: usize,
) -> Result<Texts, AllocError>
    requires cut { IsCut bytes.now 0 ends.now }
    requires ordered { from ≤ to }
    requires within { to ≤ length ends.now }
    ensures { IfOk result (λ t. t ≡ slice_range (texts_from bytes.now 0 ends.now) from to) }
{
    let (start, end) = window(bytes, ends, from, to);
    let bytes = Vec::from_slice(alloc, &bytes[start..end])?;
    let ends = nearer(alloc, &ends[from..to], start)?;
    Ok(Texts { bytes, ends })
}

/// The number of texts that a mask keeps, and of their bytes.
fn kept_size(texts: &Texts, mask: &[bool]) -> (usize, usize)
    requires { length mask.now ≡ length texts.now }
{
    let mut count = 0usize;
    let mut bytes = 0usize;
    for row in 0..texts.len() {
        if mask[row] {
            count = count.saturating_add(1);
            bytes = bytes.saturating_add(texts.get(row).len());
        }
    }
    (count, bytes)
}

/// Adds the bytes of a text, and the place where it ends.
fn add_bytes(bytes: &mut Vec<u8>, ends: &mut Vec<usize>, text: &[u8]) -> Result<(), AllocError>
    ensures bytes { bytes.new.items ≡ (if is_ok result then bytes.old.items ++ text.now else bytes.old.items) }
    ensures ends { ends.new.items ≡ (if is_ok result then ends.old.items ++ length (bytes.old.items ++ text.now) ∷ [] else ends.old.items) }
{
    let before = bytes.len();
    bytes.extend_from_slice(text)?;
    let end = bytes.len();
    if ends.push(end).is_err() {
        bytes.truncate(before);
        return Err(AllocError);
    }
    Ok(())
}

/// Adds the bytes of texts, and the places where they end.
fn append(
    bytes: &mut Vec<u8>,
    ends: &mut Vec<usize>,
    more: &[u8],
    more_ends: &[usize],
) -> Result<(), AllocError>
    requires { IsCut more.now 0 more_ends.now }
    ensures bytes { bytes.new.items ≡ (if is_ok result then bytes.old.items ++ more.now else bytes.old.items) }
    ensures ends { ends.new.items ≡ (if is_ok result then ends.old.items ++ further (length bytes.old.items) more_ends.now else ends.old.items) }
{
    let before = bytes.len();
    ends.reserve(more_ends.len())?;
    bytes.extend_from_slice(more)?;
    for end in more_ends {
        ends.push_reserved(before + *end);
    }
    Ok(())
}

/// A list of texts: their bytes one after the other, and the place where each ends.
#[derive(Drop)]
pub struct Texts {
    bytes: Vec<u8>,
    ends: Vec<usize>,
}

impl Model for Texts {
    ghost use Rattle.std.specs.Prelude.{List, ℕ};

    ghost Value = { List (List ℕ) };

    ghost use Rattle.tall_texts.specs.Texts.{IsCut, texts_from};

    ghost view = { λ t. texts_from t.bytes.items 0 t.ends.items };

    ghost invariant = { λ t. IsCut t.bytes.items 0 t.ends.items };
}

impl Texts {
    /// No texts.
    pub fn new(alloc: Global) -> Texts
        ensures { result ≡ [] }
    {
        Texts {
            bytes: Vec::new(alloc),
            ends: Vec::new(alloc),
        }
    }

    /// No texts, with room for so many texts of so many bytes in all.
    fn with_capacity(alloc: Global, count: usize, bytes: usize) -> Result<Texts, AllocError>
        ensures { IfOk result (λ t. t ≡ []) }
    {
        let bytes = Vec::with_capacity(alloc, bytes)?;
        let ends = Vec::with_capacity(alloc, count)?;
        Ok(Texts { bytes, ends })
    }

    /// The number of texts.
    pub fn len(&self) -> usize
        ensures { result ≡ length self.now }
    {
        self.ends.as_slice().len()
    }

    /// The text at a place, counted from 0.
    pub fn get(&self, at: usize) -> &str
        requires { at < length self.now }
        ensures { slice_get self.now at ≡ Some result.now }
    {
        text_at(self.bytes.as_slice(), self.ends.as_slice(), at)
    }

    /// Adds a text at the end; refused for want of memory alone, with the texts as they were.
    pub fn push(&mut self, text: &str) -> Result<(), AllocError>
        ensures { MatchResult result (λ _. self.new ≡ self.old ++ text.now ∷ []) (λ _. self.new ≡ self.old) }
    {
        add_bytes(&mut self.bytes, &mut self.ends, text.as_bytes())
    }

    /// The cell at a row.
    pub fn cell(&self, row: usize) -> Cell<'_>
        requires { row < length (map (λ s. text s) self.now) }
        ensures cell { slice_get (map (λ s. text s) self.now) row ≡ Some (seen result) }
        ensures class { class_of (seen_kind (seen result)) ≡ class.Text }
    {
        Cell::Text(self.get(row))
    }

    /// Adds a cell of the class at the end.
    pub fn add(&mut self, cell: &Cell<'_>) -> Result<(), AllocError>
        requires { class_of (seen_kind (seen cell.now)) ≡ class.Text }
        ensures { MatchResult result (λ _. map (λ s. text s) self.new ≡ map (λ s. text s) self.old ++ seen cell.now ∷ []) (λ _. self.new ≡ self.old) }
    {
        match *cell {
            Cell::Text(text) => self.push(text),
            _ => unreachable!(),
        }
    }

    /// The texts from one row to before another, copied as two blocks.
    pub fn part(&self, alloc: Global, from: usize, to: usize) -> Result<Texts, AllocError>
        requires ordered { from ≤ to }
        requires within { to ≤ length (map (λ s. text s) self.now) }
        ensures { IfOk result (λ t. map (λ s. text s) t ≡ slice_range (map (λ s. text s) self.now) from to) }
    {
        let texts = part_of(alloc, self.bytes.as_slice(), self.ends.as_slice(), from, to)?;
        Ok(texts)
    }

    /// The texts that a mask keeps.
    pub fn kept(&self, alloc: Global, mask: &[bool]) -> Result<Texts, AllocError>
        requires { length (map (λ s. text s) self.now) ≡ length (map (λ b. logical b) mask.now) }
        ensures { IfOk result (λ t. map (λ s. text s) t ≡ kept (map (λ s. text s) self.now) (map (λ b. logical b) mask.now)) }
    {
        let (count, bytes) = kept_size(self, mask);
        let mut out = Texts::with_capacity(alloc, count, bytes)?;
        for row in 0..self.len() {
            if mask[row] {
                out.push(self.get(row))?;
            }
        }
        Ok(out)
    }

    /// Adds texts at the end.
    pub fn add_all(&mut self, more: &Texts) -> Result<(), AllocError>
        ensures { MatchResult result (λ _. map (λ s. text s) self.new ≡ map (λ s. text s) self.old ++ map (λ s. text s) more.now) (λ _. self.new ≡ self.old) }
    {
        append(
            &mut self.bytes,
            &mut self.ends,
            more.bytes.as_slice(),
            more.ends.as_slice(),
        )
    }
}
