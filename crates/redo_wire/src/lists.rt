//! Reading and writing counted lists: one loop reads the elements of every list, and one writes them.

ghost use Rattle.std.specs.Prelude.{◌≡◌, ◌<◌, ◌++◌, IfOk, OnOk};
ghost use Rattle.std.specs.List.{AllByRecursion, flat_map};
ghost use Rattle.redo_wire.specs.Lists.{each_at};
ghost use Rattle.redo_wire.specs.Outcomes.{Gives};

use crate::faults::WireError;
use crate::room::list_with_room;
use bytes::BytesMut;
use std::alloc::{AllocError, Global};

/// How the elements of one kind of list are read, each in the state that those before it left.
pub trait ListReader: Copy {
    ghost use Rattle.std.specs.Prelude.{ℕ, List};
    ghost use Rattle.redo_wire.specs.Reading.{Read};

    type Item: Drop;

    type State: Copy;

    ghost step: { Self → Self.State → List ℕ → Read Self.Item };

    ghost next: { Self.State → Self.Item → Self.State };

    fn read_next(
        self,
        state: Self::State,
        alloc: Global,
        bytes: &[u8],
    ) -> Result<(Self::Item, &[u8]), WireError>
        ensures { Gives (λ x. (x.0, x.1.now)) result (step self state bytes.now) };

    fn state_after(self, state: Self::State, item: &Self::Item) -> Self::State
        ensures { result ≡ next state item.now };
}

/// How the elements of one kind of list are written.
pub trait ListWriter: Copy {
    ghost use Rattle.std.specs.Prelude.{ℕ, List};

    type Item;

    ghost encode: { Self → Self.Item → List ℕ };

    ghost fits: { Self → Self.Item → Type 0 };

    fn put(self, out: &mut BytesMut, item: &Self::Item) -> Result<(), AllocError>
        ensures ok { OnOk result (out.new.items ≡ out.old.items ++ encode self item.now) }
        ensures wire { OnOk result (fits self item.now) };
}

/// Reads `count` elements, one after the other. `size` is the size of an element in memory; what the count promises is reserved
/// only as far as the bytes that are left.
pub(crate) fn read_list<R: ListReader>(
    reader: R,
    start: R::State,
    size: usize,
    count: usize,
    alloc: Global,
    bytes: &[u8],
) -> Result<(Vec<R::Item>, &[u8]), WireError>
    requires { 0 < size }
    ensures { Gives (λ x. (x.0.items, x.1.now)) result (each_at (R.step reader) R.next count start bytes.now) }
{
    let mut items = list_with_room(alloc, count, size, bytes)?;
    let mut state = start;
    let mut rest = bytes;
    for _ in 0..count {
        let (item, after) = reader.read_next(state, alloc, rest)?;
        state = reader.state_after(state, &item);
        items.push(item)?;
        rest = after;
    }
    Ok((items, rest))
}

/// Appends the elements, one after the other. It fails only if memory runs out: some of the bytes may then be appended.
pub(crate) fn put_list<W: ListWriter>(
    writer: W,
    out: &mut BytesMut,
    items: &[W::Item],
) -> Result<(), AllocError>
    ensures ok { OnOk result (out.new.items ≡ out.old.items ++ flat_map (W.encode writer) items.now) }
    ensures wire { OnOk result (AllByRecursion (W.fits writer) items.now) }
{
    for item in items {
        writer.put(out, item)?;
    }
    Ok(())
}
