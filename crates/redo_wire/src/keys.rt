//! Reading and writing keys of records.

ghost use Rattle.std.specs.Prelude.{◌≡◌, ◌<◌, ◌^◌, ◌++◌, OnOk};
ghost use Rattle.redo_wire.specs.Outcomes.{Gives};
ghost use Rattle.redo_wire.specs.Summaries.{key_bytes};
ghost use Rattle.redo_wire.specs.SummaryReading.{key_at, next_key_at};

use crate::faults::{WireError, WireFault};
use crate::fields::{put_u16, put_u48, read_u16, read_u48};
use crate::lists::{ListReader, ListWriter};
use crate::places::is_above;
use bytes::BytesMut;
use redo_core::Key;
use std::alloc::{AllocError, Global};

/// Keys by epoch and LSN.
#[derive(Clone, Copy)]
pub struct KeyList;

impl ListReader for KeyList {
    ghost use Rattle.redo_wire.specs.SummaryReading.{next_key_at, key_place};

    type Item = Key;

    /// The key before.
    type State = Key;

    ghost step = { λ _. next_key_at };

    ghost next = { key_place };

    fn read_next(self, last: Key, _alloc: Global, bytes: &[u8]) -> Result<(Key, &[u8]), WireError> {
        read_next_key(last, bytes)
    }

    fn state_after(self, _last: Key, key: &Key) -> Key {
        *key
    }
}

impl ListWriter for KeyList {
    ghost use Rattle.std.specs.Prelude.{◌<◌, ◌^◌};
    ghost use Rattle.redo_wire.specs.Summaries.{key_bytes};

    type Item = Key;

    ghost encode = { λ _. key_bytes };

    ghost fits = { λ _ k. k.epoch < 2 ^ 16 };

    fn put(self, out: &mut BytesMut, key: &Key) -> Result<(), AllocError> {
        put_u16(out, key.epoch)?;
        put_u48(out, key.number)?;
        Ok(())
    }
}

#[tactic(auto, unfolding(crate::specs::SummaryReading::key_at))]
fn read_key(bytes: &[u8]) -> Result<(Key, &[u8]), WireError>
    ensures { Gives (λ x. (x.0, x.1.now)) result (key_at bytes.now) }
{
    let (epoch, rest) = read_u16(bytes)?;
    let (number, rest) = read_u48(rest)?;
    if number == 0 {
        return Err(WireError::Fault(WireFault::Shape));
    }
    Ok((Key { epoch, number }, rest))
}

fn read_next_key(last: Key, bytes: &[u8]) -> Result<(Key, &[u8]), WireError>
    ensures { Gives (λ x. (x.0, x.1.now)) result (next_key_at last bytes.now) }
{
    let (key, rest) = read_key(bytes)?;
    if !is_above(last, key) {
        return Err(WireError::Fault(WireFault::Order));
    }
    Ok((key, rest))
}
