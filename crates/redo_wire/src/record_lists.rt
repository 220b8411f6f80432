//! Reading and writing lists of records.

ghost use Rattle.redo_wire.specs.Outcomes.{Gives};
ghost use Rattle.redo_wire.specs.DeltaReading.{next_record_at};

use crate::faults::{WireError, WireFault};
use crate::lists::{ListReader, ListWriter};
use crate::places::is_above;
use crate::records::{put_record, read_record};
use bytes::BytesMut;
use redo_core::{Key, Record};
use std::alloc::{AllocError, Global};
use std::mem::size_of;

/// The size of a record in memory, without what it points to.
pub(crate) const RECORD_SIZE: usize = size_of::<Record>();

/// Records by epoch and LSN, each with its tag.
#[derive(Clone, Copy)]
pub struct RecordList;

impl ListReader for RecordList {
    ghost use Rattle.redo_wire.specs.DeltaReading.{next_record_at, record_place};

    type Item = Record;

    /// The key of the record before.
    type State = Key;

    ghost step = { λ _. next_record_at };

    ghost next = { record_place };

    fn read_next(
        self,
        last: Key,
        alloc: Global,
        bytes: &[u8],
    ) -> Result<(Record, &[u8]), WireError> {
        read_next_record(alloc, last, bytes)
    }

    fn state_after(self, _last: Key, redo: &Record) -> Key {
        redo.key()
    }
}

impl ListWriter for RecordList {
    ghost use Rattle.redo_wire.specs.Records.{IsWireRecord, record_bytes};

    type Item = Record;

    ghost encode = { λ _. record_bytes };

    ghost fits = { λ _. IsWireRecord };

    fn put(self, out: &mut BytesMut, redo: &Record) -> Result<(), AllocError> {
        put_record(out, redo)
    }
}

fn read_next_record(alloc: Global, last: Key, bytes: &[u8]) -> Result<(Record, &[u8]), WireError>
    ensures { Gives (λ x. (x.0, x.1.now)) result (next_record_at last bytes.now) }
{
    let (record, rest) = read_record(alloc, bytes)?;
    if !is_above(last, record.key()) {
        return Err(WireError::Fault(WireFault::Order));
    }
    Ok((record, rest))
}
