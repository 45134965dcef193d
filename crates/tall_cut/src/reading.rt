// Reading the records of a raw block.

ghost use Rattle.std.specs.Prelude.{◌≡◌, [], IfOk, OnOk, Some, true};
ghost use Rattle.csv.specs.Records.{fields_of};
ghost use Rattle.tall_scan.specs.Rows.{IsCutting, records_left};
ghost use Rattle.tall_scan.specs.Finding.{raw_records};
ghost use Rattle.tall_scan.specs.Texts.{text_left};
ghost use Rattle.tall_cut.specs.Blocks.{IsClosed, block_records};
ghost use Rattle.tall_cut.specs.Reading.{TakesRow};

use crate::block::Block;
use csv::{ByteRecord, Reader, ReaderBuilder};
use std::alloc::{AllocError, Global};
use tall_scan::{RawBlock, Text};

// A reader of all records of a raw block, as they stand.
fn reader_of(alloc: Global, raw: &RawBlock) -> Reader<Text<'_>>
    ensures cutting { IsCutting result }
    ensures left { records_left text_left result ≡ Some (raw_records raw.now) }
{
    let text = Text::new(raw.bytes());
    ReaderBuilder::new()
        .delimiter(raw.delimiter())
        .has_headers(false)
        .flexible(true)
        .from_reader(alloc, text)
}

// Reads the next record into `row`, if there is one.
fn read_row(reader: &mut Reader<Text<'_>>, row: &mut ByteRecord) -> Result<bool, AllocError>
    requires { IsCutting reader.old }
    ensures cutting { IfOk result (λ some. some ≡ true → IsCutting reader.new) }
    ensures takes { IfOk result (λ some. TakesRow some (records_left text_left reader.old) (fields_of row.new) (records_left text_left reader.new)) }
{
    match reader.read_byte_record(row) {
        Ok(true) => return Ok(true),
        Ok(false) => return Ok(false),
        // A text in memory is always read, so memory was wanting.
        Err(_) => return Err(AllocError),
    }
}

// Reads all records of a raw block into a block that has none.
#[tactic(auto, using(crate::proofs::Blocks::groups_none, crate::proofs::Blocks::groups_length, tall_scan::proofs::Rows::many_start, tall_scan::proofs::Rows::many_rows, crate::proofs::Taken::all_taken, crate::proofs::Taken::one_is_left))]
pub(crate) fn read_records(
    alloc: Global,
    raw: &RawBlock,
    block: &mut Block,
) -> Result<(), AllocError>
    requires closed { IsClosed block.old }
    requires none { block.old.ends.items ≡ [] }
    ensures closed { OnOk result (IsClosed block.new) }
    ensures records { OnOk result (block_records block.new ≡ raw_records raw.now) }
{
    let mut reader = reader_of(alloc, raw);
    let mut row = ByteRecord::new(alloc);
    for _taken in 0..raw.count() {
        let some = read_row(&mut reader, &mut row)?;
        if some {
            block.add(&mut row)?;
        } else {
            unreachable!();
        }
    }
    Ok(())
}
