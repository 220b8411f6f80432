ghost use Rattle.std.specs.Prelude.{◌≡◌, ◌≢◌, ℕ, ◌<◌, ◌≤◌, ◌+◌, ◌∷◌, ◌++◌, List, length, slice_index, OnOk};
ghost use Rattle.std.specs.Vec.{vec_capacity};
ghost use Rattle.std.specs.VecDeque.{deque_len, deque_capacity};
ghost use Rattle.redo_core.specs.Data.{RecordData};
ghost use Rattle.redo_core.specs.declared.facts.Fact.{Fact};
ghost use Rattle.std.specs.List.{Contains};
ghost use Rattle.redo_core.specs.Order.{IsRising};
ghost use Rattle.redo_writer.specs.declared.parts.AliveRecord.{AliveRecord as Entry};
ghost use Rattle.redo_writer.specs.Changes.{DropsAbove};
ghost use Rattle.redo_writer.specs.Tracks.{IsAliveRecord, IsNewer, LinksPages, PutsTop, Tracks, newest_number};

use crate::parts::AliveRecord;
use std::alloc::AllocError;
use std::collections::VecDeque;

/// The newest entry's number, or else `settled`.
pub(crate) fn number_on_top(settled: u64, alive: &VecDeque<AliveRecord>) -> u64
    ensures { result ≡ newest_number settled alive.now.items }
{
    match alive.front() {
        Some(entry) => entry.number,
        None => settled,
    }
}

/// The greatest number of a page, or 0.
pub(crate) fn top_of(page_tops: &[u64], page: u16) -> u64
    ensures { result ≡ slice_index page_tops.now page }
{
    page_tops.get(usize::from(page)).copied().unwrap_or(0)
}

/// Makes room for a page's number. It fails only if memory runs out.
pub(crate) fn reserve_top(page_tops: &mut Vec<u64>, page: u16) -> Result<(), AllocError>
    ensures items { page_tops.new.items ≡ page_tops.old.items }
    ensures room { OnOk result (page < vec_capacity page_tops.new) }
{
    let len = usize::from(page) + 1;
    page_tops.reserve(len.saturating_sub(page_tops.len()))
}

/// Sets a page's number, for which there is room.
pub(crate) fn put_top(page_tops: &mut Vec<u64>, page: u16, number: u64)
    requires { page < vec_capacity page_tops.old }
    ensures { PutsTop page number page_tops.old.items page_tops.new.items }
{
    let place = usize::from(page);
    if page_tops.len() <= place {
        page_tops.resize(place + 1, 0).unwrap();
    }
    page_tops[place] = number;
}

/// Puts an entry on top, for which there is room.
pub(crate) fn keep_newest(
    alive: &mut VecDeque<AliveRecord>,
    page_tops: &mut Vec<u64>,
    entry: AliveRecord,
)
    requires room { deque_len alive.old < deque_capacity alive.old }
    requires page { entry.page < vec_capacity page_tops.old }
    ensures alive { alive.new.items ≡ entry ∷ alive.old.items }
    ensures tops { PutsTop entry.page entry.number page_tops.old.items page_tops.new.items }
{
    alive.push_front(entry).unwrap();
    put_top(page_tops, entry.page, entry.number);
}

/// Sets the number of a page that has one.
fn restore_top(page_tops: &mut Vec<u64>, page: u16, number: u64)
    ensures { 0 < slice_index page_tops.old.items page → PutsTop page number page_tops.old.items page_tops.new.items }
{
    let place = usize::from(page);
    if place < page_tops.len() {
        page_tops[place] = number;
    }
}

/// Drops the entries above `lo`, and gives each page the number that it had before them.
pub(crate) fn annul_above(alive: &mut VecDeque<AliveRecord>, page_tops: &mut Vec<u64>, lo: u64)
    ensures entries { DropsAbove lo alive.old.items alive.new.items }
    ensures tracks { (log : List Fact) (k settled : ℕ) → LinksPages (IsAliveRecord log k) → settled ≤ lo
        → Tracks (IsAliveRecord log k) settled page_tops.old.items alive.old.items
        → Tracks (λ r. IsAliveRecord log k r × (r.number ≤ lo)) settled page_tops.new.items alive.new.items }
{
    while number_on_top(0, alive) > lo {
        if let Some(entry) = alive.pop_front() {
            restore_top(page_tops, entry.page, entry.block_back);
        }
    }
}

/// Drops the entries up to a point, and returns the greatest dropped number, or else `settled`.
pub(crate) fn settle(alive: &mut VecDeque<AliveRecord>, settled: u64, point: u64) -> u64
    ensures tracks { (log : List Fact) (k : ℕ) (tops : List ℕ) → settled ≤ point → Tracks (IsAliveRecord log k) settled tops alive.old.items
        → (result ≤ point) × Tracks (IsAliveRecord log k) result tops alive.new.items }
    ensures entries { (dropped : List Entry) × (alive.old.items ≡ alive.new.items ++ dropped) × (result ≡ newest_number settled dropped)
        × ((x : Entry) → Contains dropped x → x.number ≤ point) }
    ensures left { IsRising IsNewer alive.new.items → (x : Entry) → Contains alive.new.items x → point < x.number }
{
    let mut greatest = settled;
    while let Some(oldest) = alive.back().copied() {
        if oldest.number > point {
            break;
        }
        let _ = alive.pop_back();
        greatest = oldest.number;
    }
    greatest
}
