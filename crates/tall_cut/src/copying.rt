// Records of a block, copied into another.

ghost use Rattle.std.specs.Prelude.{◌≡◌, ◌+◌, ◌-◌, ◌≤◌, ◌<◌, ◌++◌, ◌∷◌, [], drop, length, get_or, take, OnOk};
ghost use Rattle.tall_cut.specs.Blocks.{IsClosed, block_records, ends_from, joined};

use crate::block::Block;
use crate::records::Records;
use std::alloc::AllocError;

// Adds the fields of a record, and where they end.
fn add_fields(
    bytes: &mut Vec<u8>,
    ends: &mut Vec<usize>,
    from: &Records,
    i: usize,
) -> Result<(), AllocError>
    requires { i < length from.now }
    ensures bytes { OnOk result (bytes.new.items ≡ bytes.old.items ++ joined (get_or from.now i [])) }
    ensures ends { OnOk result (ends.new.items ≡ ends.old.items ++ ends_from (length bytes.old.items) (get_or from.now i [])) }
{
    for k in 0..from.width(i) {
        bytes.extend_from_slice(from.field(i, k))?;
        ends.push(bytes.len())?;
    }
    Ok(())
}

// Adds a record.
fn add_record(block: &mut Block, from: &Records, i: usize) -> Result<(), AllocError>
    requires closed { IsClosed block.old }
    requires place { i < length from.now }
    ensures closed { OnOk result (IsClosed block.new) }
    ensures records { OnOk result (block_records block.new ≡ block_records block.old ++ get_or from.now i [] ∷ []) }
{
    add_fields(&mut block.bytes, &mut block.fields, from, i)?;
    block.ends.push(block.fields.len())?;
    Ok(())
}

// Adds the records from one place to another.
pub(crate) fn copy_records(
    block: &mut Block,
    from: &Records,
    start: usize,
    end: usize,
) -> Result<(), AllocError>
    requires closed { IsClosed block.old }
    requires none { block_records block.old ≡ [] }
    requires start { start ≤ end }
    requires end { end ≤ length from.now }
    ensures closed { OnOk result (IsClosed block.new) }
    ensures records { OnOk result (block_records block.new ≡ take (end - start) (drop start from.now)) }
{
    for i in start..end {
        add_record(block, from, i)?;
    }
    Ok(())
}
