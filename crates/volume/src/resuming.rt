ghost use Rattle.std.specs.Prelude.{◌≡◌, ◌∷◌, [], ℕ, IfOk, IfSome, IfNone, OnOk, slice_index};
ghost use Rattle.segment_theorems.specs.Shows.{Shows};
ghost use Rattle.segment_theorems.specs.HasMeaning.{HasAnchor};
ghost use Rattle.redo_writer.specs.Tracks.{PutsTop};
ghost use Rattle.volume.specs.Planning.{RefusesRead};
ghost use Rattle.volume.specs.Resuming.{OpensVolume, RefusesPage, IsOpened, IsPageTop, IsResumed, AreAliveAbove, IsEntryOfKey};

use crate::actions::{Action, Fault};
use crate::backlog::Backlog;
use crate::page_layout::{header_of, number_of};
use crate::phases::{Phase, Session, Writing};
use crate::turns::{Transition, end};
use redo_core::{Cut, Key, Page, ReadPoints};
use redo_writer::{AliveRecord, RedoWriter, WriterParts};
use segment_core::{ReadFault, Segment, Standing, stored_page_after};
use std::alloc::{AllocError, Global};
use std::collections::VecDeque;

/// Opens the volume in the epoch of a truncation, where the union has taken it.
pub(crate) fn open_volume(
    alloc: Global,
    session: &Session,
    union: &Segment,
    cut: Cut,
) -> Result<Transition, AllocError>
    ensures { IfOk result (OpensVolume session.now union.now cut) }
{
    let Some(first) = page_at(union, 0, cut.lo())? else {
        return end(alloc, Fault::Damaged);
    };
    let Some(page_tops) = tops(alloc, union, cut.lo())? else {
        return end(alloc, Fault::Damaged);
    };
    let mut actions = Vec::new(alloc);
    actions.push(Action::Opened {
        epoch: cut.epoch(),
        commit_point: cut.lo(),
        header: header_of(alloc, &first)?,
    })?;
    let writing = Writing {
        session: *session,
        cut,
        writer: resume(alloc, union, cut, page_tops)?,
        backlog: Backlog::new(alloc),
        reached: [0; 15],
        durable: cut.lo(),
    };
    Ok(Transition::Enter(Phase::Open(writing), actions))
}

/// A page at a point, or None where the union does not show it there.
fn page_at(union: &Segment, page: u16, point: u64) -> Result<Option<Page>, AllocError>
    ensures shows { IfOk result (λ o. IfSome o (Shows union.now page point)) }
    ensures refuses { IfOk result (λ o. IfNone o (RefusesRead union.now page point)) }
{
    match union.read(page, point) {
        Ok(image) => Ok(Some(image)),
        Err(ReadFault::Memory) => Err(AllocError),
        Err(_) => Ok(None),
    }
}

/// The number of each page's last record up to a point, or None where the union does not show a page there.
fn tops(alloc: Global, union: &Segment, point: u64) -> Result<Option<Vec<u64>>, AllocError>
    ensures each { IfOk result (λ o. IfSome o (λ v. (page : ℕ) → IsPageTop union.now point page (slice_index v.items page))) }
    ensures refuses { IfOk result (λ o. IfNone o (RefusesPage union.now point)) }
{
    let mut tops = Vec::new(alloc);
    let mut next = stored_page_after(union, None);
    while let Some(page) = next {
        let Some(image) = page_at(union, page, point)? else {
            return Ok(None);
        };
        put_top(&mut tops, page, number_of(&image))?;
        next = stored_page_after(union, Some(page));
    }
    Ok(Some(tops))
}

/// Sets the number of a page. It fails only if memory runs out.
fn put_top(tops: &mut Vec<u64>, page: u16, number: u64) -> Result<(), AllocError>
    ensures { OnOk result (PutsTop page number tops.old.items tops.new.items) }
{
    let place = usize::from(page);
    if tops.len() <= place {
        tops.resize(place + 1, 0)?;
    }
    tops[place] = number;
    Ok(())
}

/// The writer of an epoch that no record is in, after a union.
fn resume(
    alloc: Global,
    union: &Segment,
    cut: Cut,
    page_tops: Vec<u64>,
) -> Result<RedoWriter, AllocError>
    requires { (page : ℕ) → IsPageTop union.now cut.lo page (slice_index page_tops.items page) }
    ensures { IfOk result (IsResumed union.now cut) }
{
    Ok(RedoWriter::resume(WriterParts {
        epoch: cut.epoch(),
        last: cut.hi(),
        points: ReadPoints::from_vec(Vec::from_slice(alloc, union.points())?),
        page_tops,
        settled: union.anchor(),
        alive: alive_above_anchor(alloc, union)?,
    }))
}

/// The alive records above the anchor, newest first.
fn alive_above_anchor(alloc: Global, union: &Segment) -> Result<VecDeque<AliveRecord>, AllocError>
    ensures { IfOk result (λ v. (anchor : ℕ) → HasAnchor union.now anchor → AreAliveAbove union.now anchor v.items) }
{
    let mut alive = VecDeque::new(alloc);
    let keys = union.kept_keys(union.anchor())?;
    for key in &keys {
        if let Some(entry) = entry_at(union, *key) {
            alive.push_front(entry)?;
        }
    }
    Ok(alive)
}

/// What a writer keeps of the stored record of a key, where that is alive.
fn entry_at(union: &Segment, key: Key) -> Option<AliveRecord>
    ensures { IsEntryOfKey union.now key result }
{
    if union.stands(key.epoch, key.number) != Standing::Alive {
        return None;
    }
    match union.get(key) {
        Some(redo) => Some(AliveRecord {
            number: redo.number(),
            page: redo.page(),
            block_back: redo.block_back(),
        }),
        None => None,
    }
}
