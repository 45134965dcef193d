//! Blocks of records as tables.
ghost use Rattle.std.specs.Prelude.{◌≡◌, ◌<◌, ◌≤◌, ◌+◌, ◌^◌, ◌++◌, ◌∷◌, [], length, IfErr, IfOk, MatchResult, None};
ghost use Rattle.tall_column.specs.Tables.{FitsHeight, HasHeight, column_named};
ghost use Rattle.tall_store.specs.ReadingOrder.{earlier_of, first_reading_fault};
ghost use Rattle.tall_store.specs.declared.format.Format.TheVariants as format;
ghost use Rattle.tall_store.specs.Stores.{format_at, name_at};
ghost use Rattle.tall_store.specs.Stored.{unless_fault, variable_of, variables_of};
ghost use Rattle.tall_store.specs.Reads.{Answers, ReadsColumn, column_faults, first_of_columns, first_width_fault};
ghost use Rattle.tall_store.specs.Parts.{part_records};
ghost use Rattle.tall_store.specs.Blocks.{block_table};

use crate::faults::{ColumnsFault, ReadingFault, ReadingKind};
use crate::format::Format;
use crate::order::earlier;
use crate::part::Part;
use crate::store::Datastore;
use crate::values::{DoubleFields, FieldReader, IntegerFields, read_text};
use tall_column::{Column, Table};
use tall_cut::Records;
use tall_value::{Cell, Class};

// The first record with too many fields.
#[tactic(auto, using(crate::proofs::PartRows::rest_start, crate::proofs::PartRows::rest_end, crate::proofs::PartRows::width_passed, crate::proofs::PartRows::width_found))]
fn first_wide(store: &Datastore, part: &Part<'_>) -> Option<ReadingFault>
    ensures { result ≡ first_width_fault store.now (part_records part.now) }
{
    for i in 0..part.rows {
        if part.block.width(i) > store.variable_count() {
            return Some(part.fault(ReadingKind::TooManyFields, i, 0));
        }
    }
    None
}

#[tactic(auto, using(crate::proofs::PartRows::rest_start, crate::proofs::PartRows::column_read))]
// The column of a variable of a numeric format, by its place among all, or the first fault of its fields: one loop for each
// format.
fn read_values<R: FieldReader>(
    store: &Datastore,
    part: &Part<'_>,
    place: usize,
) -> Result<Column, ColumnsFault>
    requires few { length store.now.names < 2 ^ 20 }
    requires place { place < length store.now.names }
    requires format { R.format ≡ format_at store.now place }
    ensures { ReadsColumn store.now (part_records part.now) place result }
{
    let missing = store.missing();
    let Ok(mut values) = Vec::with_capacity(store.alloc(), part.rows) else {
        return Err(ColumnsFault::Memory);
    };
    for i in 0..part.rows {
        match R::read(missing, part.field(i, place)) {
            Ok(value) => values.push_reserved(value),
            Err(kind) => {
                let fault = part.fault(kind, i, place as u32 + 1);
                return Err(ColumnsFault::Reading(fault));
            }
        }
    }
    Ok(Column::of(store.alloc(), values))
}

#[tactic(auto, using(crate::proofs::PartRows::rest_start, crate::proofs::PartRows::column_read))]
// The column of a variable of the format `%q`, by its place among all, or the first fault of its fields.
fn read_texts(store: &Datastore, part: &Part<'_>, place: usize) -> Result<Column, ColumnsFault>
    requires few { length store.now.names < 2 ^ 20 }
    requires place { place < length store.now.names }
    requires format { format_at store.now place ≡ format.Text }
    ensures { ReadsColumn store.now (part_records part.now) place result }
{
    let mut column = Column::new(store.alloc(), Class::Text);
    for i in 0..part.rows {
        match read_text(part.field(i, place)) {
            Ok(text) => {
                if column.push(&Cell::Text(text)).is_err() {
                    return Err(ColumnsFault::Memory);
                }
            }
            Err(kind) => {
                let fault = part.fault(kind, i, place as u32 + 1);
                return Err(ColumnsFault::Reading(fault));
            }
        }
    }
    Ok(column)
}

// The column of the variable at a place among all, or the first fault of its fields.
fn read_column(store: &Datastore, part: &Part<'_>, place: usize) -> Result<Column, ColumnsFault>
    requires few { length store.now.names < 2 ^ 20 }
    requires place { place < length store.now.names }
    ensures { ReadsColumn store.now (part_records part.now) place result }
{
    match store.format(place) {
        Format::Int8 => read_values::<IntegerFields<i8>>(store, part, place),
        Format::Int16 => read_values::<IntegerFields<i16>>(store, part, place),
        Format::Int32 => read_values::<IntegerFields<i32>>(store, part, place),
        Format::Int64 => read_values::<IntegerFields<i64>>(store, part, place),
        Format::Uint8 => read_values::<IntegerFields<u8>>(store, part, place),
        Format::Uint16 => read_values::<IntegerFields<u16>>(store, part, place),
        Format::Uint32 => read_values::<IntegerFields<u32>>(store, part, place),
        Format::Uint64 => read_values::<IntegerFields<u64>>(store, part, place),
        Format::Double => read_values::<DoubleFields>(store, part, place),
        Format::Text => read_texts(store, part, place),
    }
}

// Adds a column under a name to a table.
fn add(table: &mut Table, name: &str, column: Column) -> Result<(), ColumnsFault>
    requires new_name { column_named name.now table.old ≡ None }
    requires same_height { FitsHeight (length column.cells) table.old }
    ensures { MatchResult result (λ _. table.new ≡ table.old ++ (name.now, column) ∷ []) (λ fault. fault ≡ ColumnsFault.Memory) }
{
    match table.add(name, column) {
        Ok(()) => Ok(()),
        Err(_) => Err(ColumnsFault::Memory),
    }
}

// The first fault so far and that of one more variable, whose column goes into the table where there is none.
#[tactic(auto, using(crate::proofs::ReadingLaws::earlier_none))]
fn read_next(
    store: &Datastore,
    part: &Part<'_>,
    place: usize,
    fault: Option<ReadingFault>,
    table: &mut Table,
) -> Result<Option<ReadingFault>, ColumnsFault>
    requires few { length store.now.names < 2 ^ 20 }
    requires place { place < length store.now.names }
    requires new_name { fault ≡ None → column_named (name_at store.now place) table.old ≡ None }
    requires height { HasHeight (length (part_records part.now)) table.old }
    ensures fault { IfOk result (λ f. f ≡ earlier_of fault (first_reading_fault (column_faults store.now (part_records part.now) place))) }
    ensures before { IfOk result (λ f. f ≡ None → fault ≡ None) }
    ensures table { IfOk result (λ f. f ≡ None → table.new ≡ table.old ++ variable_of store.now (part_records part.now) place ∷ []) }
    ensures height { IfOk result (λ f. HasHeight (length (part_records part.now)) table.new) }
    ensures memory { IfErr result (λ f. f ≡ ColumnsFault.Memory) }
{
    match read_column(store, part, place) {
        Ok(column) => {
            if fault.is_some() {
                return Ok(fault);
            }
            return match add(table, store.name(place), column) {
                Ok(()) => Ok(None),
                Err(fault) => Err(fault),
            };
        }
        Err(ColumnsFault::Reading(found)) => return Ok(Some(earlier(fault, found))),
        Err(ColumnsFault::Memory) => return Err(ColumnsFault::Memory),
    }
}

// The selected variables as a table, or the first fault of the part.
#[tactic(auto, using(crate::proofs::TableRows::variables_more, crate::proofs::TableRows::columns_more, crate::proofs::TableRows::variables_end, crate::proofs::TableRows::columns_end))]
fn read_columns(store: &Datastore, part: &Part<'_>) -> Result<Table, ColumnsFault>
    ensures { Answers (unless_fault (first_of_columns store.now (part_records part.now) (first_width_fault store.now (part_records part.now)) store.now.selected) (variables_of store.now (part_records part.now))) result }
{
    let mut fault = first_wide(store, part);
    let mut table = Table::new(store.alloc());
    for place in store.places() {
        fault = read_next(store, part, *place, fault, &mut table)?;
    }
    match fault {
        Some(fault) => Err(ColumnsFault::Reading(fault)),
        None => Ok(table),
    }
}

impl Datastore {
    /// The selected variables of consecutive records of a file as a table, each in its format, in the order of the
    /// selection. The file is given by its place in the list, from 0, and the first record by its row, from 1 over all
    /// files. Variables that are not selected are not converted.
    ///
    /// # Errors
    /// `Reading` with the first fault of the block by row, then column of the file, then kind; `Memory` for want of memory.
    pub fn to_columns(
        &self,
        block: &Records,
        file: u32,
        first_row: u64,
    ) -> Result<Table, ColumnsFault>
        requires file { file < length self.now.files }
        requires first { 1 ≤ first_row }
        requires last { first_row ≤ 2 ^ 40 }
        ensures table { Answers (block_table self.now (record { file = file; row = first_row; records = block.now })) result }
        ensures room { IfOk result (λ table. first_row + length block.now ≤ 2 ^ 40) }
    {
        let part = Part::of(block, file, first_row);
        match read_columns(self, &part) {
            Ok(table) => {
                if part.is_whole() {
                    return Ok(table);
                }
                return Err(ColumnsFault::Reading(ReadingFault {
                    kind: ReadingKind::TooManyRows,
                    file,
                    row: 1 << 40,
                    column: 0,
                }));
            }
            Err(fault) => return Err(fault),
        }
    }
}
