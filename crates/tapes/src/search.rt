// What is looked for in the records of a tape: one without its mark, and the last of a replica.
ghost use Rattle.std.specs.Prelude.{◌≡◌, ◌<◌, length, not, position, slice_get, IfSome};
ghost use Rattle.std.specs.Option.{option_and_then};
ghost use Rattle.tapes.specs.Records.{marked};
ghost use Rattle.tapes.specs.Tapes.{last_of, inspected};

use crate::record::{RECORD_SIZE, is_marked};
use stores::StoreFault;

// The place of the first of these records that has no mark.
fn first_unmarked(records: &[[u8; RECORD_SIZE]]) -> Option<usize>
    ensures { result ≡ position (λ r. not (marked r)) records.now }
{
    records.iter().position(|record| !is_marked(record))
}

// The place of the last of these records that is of this replica.
#[inline(never)]
pub(crate) fn last_record(records: &[[u8; RECORD_SIZE]], number: u8) -> Option<usize>
    ensures within { IfSome result (λ i. i < length records.now) }
    ensures value { option_and_then (slice_get records.now) result ≡ last_of records.now number }
{
    records.iter().rposition(|record| number == record[4])
}

// Whether the used bytes are whole records with their marks.
pub(crate) fn inspect(bytes: &[u8], used: usize) -> Result<(), StoreFault>
    ensures { result ≡ inspected bytes.now used }
{
    let whole = (bytes.len() / RECORD_SIZE) as u64;
    let bytes = bytes.get(..used).ok_or(StoreFault::Damaged(whole))?;
    let (records, rest) = bytes.as_chunks::<RECORD_SIZE>();
    if !rest.is_empty() {
        return Err(StoreFault::Damaged(records.len() as u64));
    }
    match first_unmarked(records) {
        Some(record) => Err(StoreFault::Damaged(record as u64)),
        None => Ok(()),
    }
}
