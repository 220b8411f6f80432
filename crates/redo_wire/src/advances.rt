//! Reading and writing advances of readers' points, as facts and as those that wait in a book.

ghost use Rattle.std.specs.Prelude.{◌≡◌, ◌≤◌, ◌+◌, ◌++◌, OnOk};
ghost use Rattle.redo_core.specs.Shape.{max_readers};
ghost use Rattle.redo_wire.specs.Outcomes.{Gives};
ghost use Rattle.redo_wire.specs.Facts.{IsWireAdvance, advance_bytes, tagged_advance_bytes};
ghost use Rattle.redo_wire.specs.FactReading.{advance_at, tagged_advance_at};
ghost use Rattle.redo_wire.specs.BookReading.{next_wait_at};

use crate::faults::{WireError, WireFault};
use crate::fields::{put_u16, put_u48, read_u16, read_u48};
use crate::forms::{put_form, put_within, read_form, read_within};
use crate::lists::{ListReader, ListWriter};
use crate::places::is_wait_above;
use crate::tags;
use bytes::BytesMut;
use redo_core::{Advance, MAX_READERS};
use std::alloc::{AllocError, Global};

/// The advances that wait in a book by epoch, reader and point, each of an epoch above the complete one and of one of so many
/// readers.
#[derive(Clone, Copy)]
pub struct WaitList {
    pub has_many: bool,
    pub complete: u16,
    pub readers: u8,
    ghost roster: { readers ≤ max_readers },
}

impl ListReader for WaitList {
    ghost use Rattle.redo_wire.specs.BookReading.{next_wait_at, wait_place};

    type Item = Advance;

    /// The epoch, reader and point of the advance before.
    type State = (u16, u8, u64);

    ghost step = { λ l. next_wait_at l.has_many l.complete l.readers };

    ghost next = { wait_place };

    fn read_next(
        self,
        last: (u16, u8, u64),
        _alloc: Global,
        bytes: &[u8],
    ) -> Result<(Advance, &[u8]), WireError> {
        read_next_wait(self, last, bytes)
    }

    fn state_after(self, _last: (u16, u8, u64), wait: &Advance) -> (u16, u8, u64) {
        (wait.epoch(), wait.reader(), wait.point())
    }
}

/// Advances with their readers or, in the form for one reader, without.
#[derive(Clone, Copy)]
pub struct AdvanceList {
    pub has_many: bool,
}

impl ListWriter for AdvanceList {
    ghost use Rattle.redo_wire.specs.Facts.{IsWireAdvance, advance_bytes};

    type Item = Advance;

    ghost encode = { λ l. advance_bytes l.has_many };

    ghost fits = { λ _. IsWireAdvance };

    fn put(self, out: &mut BytesMut, wait: &Advance) -> Result<(), AllocError> {
        put_advance(out, self.has_many, wait)
    }
}

// ---- reading

/// An advance of an epoch from `least` on, and of a reader from `first` to `last` in the form for several readers.
#[tactic(auto, unfolding(crate::specs::FactReading::advance_at))]
fn read_advance(
    has_many: bool,
    least: u32,
    first: u8,
    last: u8,
    bytes: &[u8],
) -> Result<(Advance, &[u8]), WireError>
    requires first { 1 ≤ first }
    requires last { last ≤ max_readers }
    ensures { Gives (λ x. (x.0, x.1.now)) result (advance_at has_many least first last bytes.now) }
{
    let (epoch, rest) = read_u16(bytes)?;
    if (epoch as u32) < least {
        return Err(WireError::Fault(WireFault::Shape));
    }
    let (reader, rest) = read_within(has_many, 1, first, last, rest)?;
    let (point, rest) = read_u48(rest)?;
    match Advance::of_reader(reader, epoch, point) {
        Ok(advance) => Ok((advance, rest)),
        Err(_) => Err(WireError::Fault(WireFault::Shape)),
    }
}

fn read_next_wait(
    list: WaitList,
    last: (u16, u8, u64),
    bytes: &[u8],
) -> Result<(Advance, &[u8]), WireError>
    ensures { Gives (λ x. (x.0, x.1.now)) result (next_wait_at list.has_many list.complete list.readers last bytes.now) }
{
    match read_advance(
        list.has_many,
        list.complete as u32 + 1,
        1,
        list.readers,
        bytes,
    ) {
        Err(e) => Err(e),
        Ok((wait, rest)) => {
            if !is_wait_above(last, (wait.epoch(), wait.reader(), wait.point())) {
                return Err(WireError::Fault(WireFault::Order));
            }
            Ok((wait, rest))
        }
    }
}

/// An advance with its tag: of reader 1, or of one of the others.
#[tactic(auto, unfolding(crate::specs::FactReading::tagged_advance_at))]
pub(crate) fn read_tagged_advance(bytes: &[u8]) -> Result<(Advance, &[u8]), WireError>
    ensures { Gives (λ x. (x.0, x.1.now)) result (tagged_advance_at bytes.now) }
{
    match read_form(tags::ADVANCE, tags::READER_ADVANCE, bytes) {
        Err(e) => Err(e),
        Ok((has_many, rest)) => read_advance(has_many, 0, 2, MAX_READERS, rest),
    }
}

// ---- writing

fn put_advance(out: &mut BytesMut, has_many: bool, advance: &Advance) -> Result<(), AllocError>
    ensures ok { OnOk result (out.new.items ≡ out.old.items ++ advance_bytes has_many advance.now) }
    ensures wire { OnOk result (IsWireAdvance advance.now) }
{
    put_u16(out, advance.epoch())?;
    put_within(out, has_many, advance.reader())?;
    put_u48(out, advance.point())?;
    Ok(())
}

/// Appends the advance with its tag.
pub(crate) fn put_tagged_advance(out: &mut BytesMut, advance: &Advance) -> Result<(), AllocError>
    ensures ok { OnOk result (out.new.items ≡ out.old.items ++ tagged_advance_bytes advance.now) }
    ensures wire { OnOk result (IsWireAdvance advance.now) }
{
    let is_of_other = advance.reader() > 1;
    put_form(out, tags::ADVANCE, tags::READER_ADVANCE, is_of_other)?;
    put_advance(out, is_of_other, advance)?;
    Ok(())
}
