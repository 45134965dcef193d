// Records that stand one after the other in one buffer.

ghost use Rattle.std.specs.Prelude.{◌≡◌, ◌+◌, ◌≤◌, ◌<◌, ◌++◌, ◌∷◌, [], length, get_or, OnOk};
ghost use Rattle.csv.specs.Records.{fields_of, partial_of, prev};
ghost use Rattle.tall_cut.specs.Blocks.{ends_from, joined};

use csv::ByteRecord;
use std::alloc::{AllocError, Global};

// Records: the bytes of their fields, where each field ends in the bytes, and after how many fields each record ends.
#[derive(Drop)]
pub(crate) struct Block {
    pub(crate) bytes: Vec<u8>,
    pub(crate) fields: Vec<usize>,
    pub(crate) ends: Vec<usize>,
}

impl Block {
    ghost use Rattle.tall_cut.specs.Blocks.{IsClosed, IsInside, block_fields, block_records};

    // No record.
    pub(crate) fn new(alloc: Global) -> Block
        ensures closed { IsClosed result }
        ensures none { result.ends.items ≡ [] }
    {
        Block {
            bytes: Vec::new(alloc),
            fields: Vec::new(alloc),
            ends: Vec::new(alloc),
        }
    }

    // Takes all records out, and keeps their memory.
    pub(crate) fn clear(&mut self)
        ensures closed { IsClosed self.new }
        ensures none { self.new.ends.items ≡ [] }
    {
        self.bytes.clear();
        self.fields.clear();
        self.ends.clear();
    }

    // The field at this place of all fields.
    pub(crate) fn field(&self, place: usize) -> &[u8]
        requires inside { IsInside self.now }
        requires place { place < length (block_fields self.now) }
        ensures { result.now ≡ get_or (block_fields self.now) place [] }
    {
        let start = start_of(&self.fields, place);
        &self.bytes.as_slice()[start..self.fields[place]]
    }

    // Adds a record.
    pub(crate) fn add(&mut self, row: &mut ByteRecord) -> Result<(), AllocError>
        requires { IsClosed self.old }
        ensures closed { OnOk result (IsClosed self.new) }
        ensures count { OnOk result (length self.new.ends.items ≡ length self.old.ends.items + 1) }
        ensures records { OnOk result (block_records self.new ≡ block_records self.old ++ fields_of row.old ∷ []) }
    {
        if row.len() == 1 {
            return self.add_field(row);
        }
        close(row)?;
        let from = self.bytes.len();
        self.bytes.extend_from_slice(row.as_slice())?;
        add_ends(&mut self.fields, row, from, self.bytes.len())?;
        self.ends.push(self.fields.len())?;
        Ok(())
    }

    // Adds a record of one field: nothing has to be known of bytes behind it.
    fn add_field(&mut self, row: &ByteRecord) -> Result<(), AllocError>
        requires closed { IsClosed self.old }
        requires one { length (fields_of row.now) ≡ 1 }
        ensures closed { OnOk result (IsClosed self.new) }
        ensures count { OnOk result (length self.new.ends.items ≡ length self.old.ends.items + 1) }
        ensures records { OnOk result (block_records self.new ≡ block_records self.old ++ fields_of row.now ∷ []) }
    {
        self.bytes.extend_from_slice(field_at(row, 0))?;
        self.fields.push(self.bytes.len())?;
        self.ends.push(self.fields.len())?;
        Ok(())
    }
}

// Where the part at this place starts, of parts that end at these places.
pub(crate) fn start_of(ends: &Vec<usize>, i: usize) -> usize
    requires { i < length ends.now.items }
    ensures { result ≡ prev 0 ends.now.items i }
{
    if i == 0 { 0 } else { ends[i - 1] }
}

// The field at this place of a record.
fn field_at(row: &ByteRecord, i: usize) -> &[u8]
    requires { i < length (fields_of row.now) }
    ensures { result.now ≡ get_or (fields_of row.now) i [] }
{
    match row.get(i) {
        Some(field) => field,
        None => unreachable!(),
    }
}

// Lets go of bytes of a record after its last field.
fn close(row: &mut ByteRecord) -> Result<(), AllocError>
    ensures fields { OnOk result (fields_of row.new ≡ fields_of row.old) }
    ensures partial { OnOk result (partial_of row.new ≡ []) }
{
    let count = row.len();
    row.push_field(b"")?;
    row.truncate(count);
    Ok(())
}

// Adds the ends of a record's fields, where these fill the bytes from one place to another.
fn add_ends(
    ends: &mut Vec<usize>,
    row: &ByteRecord,
    from: usize,
    to: usize,
) -> Result<(), AllocError>
    requires { from ≤ to }
    ensures ends { OnOk result (ends.new.items ≡ ends.old.items ++ ends_from from (fields_of row.now)) }
    ensures all { OnOk result (from + length (joined (fields_of row.now)) ≡ to) }
{
    ends.reserve(row.len())?;
    let mut end = from;
    for k in 0..row.len() {
        let width = field_at(row, k).len();
        if to - end < width {
            return Err(AllocError);
        }
        end += width;
        ends.push_reserved(end);
    }
    if end == to { Ok(()) } else { Err(AllocError) }
}
