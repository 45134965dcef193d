//! A record that is kept.
ghost use Rattle.std.specs.Prelude.{◌≡◌, ◌<◌, [], IfOk, get_or, length};
ghost use Rattle.csv.specs.Records.{fields_of};
ghost use Rattle.tall_store.specs.Headers.{is_same_record};

use csv::ByteRecord;
use std::alloc::{AllocError, Global};
use tall_cut::Records;

// The field at a place of a record.
pub(crate) fn field_at(fields: &ByteRecord, k: usize) -> &[u8]
    requires { k < length (fields_of fields.now) }
    ensures { result.now ≡ get_or (fields_of fields.now) k [] }
{
    match fields.get(k) {
        Some(field) => field,
        None => unreachable!(),
    }
}

// Whether the first of some records has these fields.
#[tactic(auto, using(crate::proofs::Finding::other_width, crate::proofs::Finding::same_more, crate::proofs::Finding::same_not, crate::proofs::Finding::same_all))]
pub(crate) fn is_same(fields: &ByteRecord, records: &Records) -> bool
    requires { 0 < length records.now }
    ensures { result ≡ is_same_record (get_or records.now 0 []) (fields_of fields.now) }
{
    if records.width(0) != fields.len() {
        return false;
    }
    for k in 0..fields.len() {
        if records.field(0, k) != field_at(fields, k) {
            return false;
        }
    }
    true
}

// A record of a block, to keep.
pub(crate) fn keep_record(
    alloc: Global,
    records: &Records,
    i: usize,
) -> Result<ByteRecord, AllocError>
    requires { i < length records.now }
    ensures { IfOk result (λ kept. fields_of kept ≡ get_or records.now i []) }
{
    let mut kept = ByteRecord::new(alloc);
    for k in 0..records.width(i) {
        kept.push_field(records.field(i, k))?;
    }
    Ok(kept)
}
