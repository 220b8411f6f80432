//! The requests to the segment itself.
ghost use Rattle.std.specs.Prelude.{◌≡◌, [], IfOk};
ghost use Rattle.read_cache.specs.Cached.{cached as cached_of};
ghost use Rattle.replica.specs.Refused.{IsRefusal};
ghost use Rattle.hot_log.specs.Held.{HoldsKey};
ghost use Rattle.replica.specs.AtSegment.{Opens, Takes, Fronts, ReportsGap, IsStatusOf, ReportsStatus, Reads, Folds, Discards, TidiesUp};
ghost use Rattle.replica.specs.AtSegment.{ReportsRecord, ReportsNext};

use crate::replies::{Reply, Status};
use crate::replying::{fault_reply, gap_reply, read_reply, taken_reply, tidied_reply};
use read_cache::CachedSegment;
use redo_core::{Fact, Key, Roster};
use segment_core::{CommitFault, Segment};
use std::alloc::AllocError;

/// Replaces the segment by one that nothing has reached.
pub(crate) fn open(cached: &mut CachedSegment, roster: Roster) -> Reply
    ensures opens { Opens cached.old roster result cached.new }
    ensures refused { IsRefusal result → cached.new ≡ cached.old }
{
    match Segment::new(cached.segment().allocator(), roster) {
        Ok(fresh) => {
            put(cached, fresh);
            Reply::Opened
        }
        Err(_) => Reply::Memory,
    }
}

/// Replaces the segment by another one. No image stays in the cache.
pub(crate) fn put(cached: &mut CachedSegment, segment: Segment)
    ensures { cached.new ≡ cached_of segment cached.old.pages [] }
{
    *cached.segment_mut() = segment;
}

/// Takes a fact.
pub(crate) fn take(cached: &mut CachedSegment, fact: Fact) -> Reply
    ensures takes { Takes cached.old fact result cached.new }
    ensures refused { IsRefusal result → cached.new ≡ cached.old }
{
    taken_reply(cached.take(fact))
}

/// Replies with the front.
pub(crate) fn front(segment: &Segment) -> Reply
    ensures fronts { Fronts segment.now result }
{
    Reply::Front {
        front: segment.front(),
    }
}

/// Replies with what the complete point waits for.
pub(crate) fn gap(segment: &Segment) -> Reply
    ensures tells { ReportsGap segment.now result }
{
    gap_reply(segment.gap())
}

/// Replies with what is stored.
pub(crate) fn state(segment: &Segment) -> Reply
    ensures tells { ReportsStatus segment.now result }
{
    match status_of(segment) {
        Ok(status) => Reply::State { status },
        Err(_) => Reply::Memory,
    }
}

fn status_of(segment: &Segment) -> Result<Status, AllocError>
    ensures { IfOk result (IsStatusOf segment.now) }
{
    let front = segment.front();
    let anchor = segment.anchor();
    let held = segment.stored()?.len();
    let kept = segment.kept_keys(anchor)?.len();
    Ok(Status {
        epoch: front.epoch,
        complete: front.complete,
        min: front.min,
        anchor,
        base: segment.base_point(),
        held,
        kept,
        images: segment.pages().len(),
        truncations: segment.cuts().len(),
        waiting: segment.waits().len(),
    })
}

/// Reads a page.
pub(crate) fn read(cached: &mut CachedSegment, page: u16, point: u64) -> Reply
    ensures reads { Reads cached.old page point result cached.new }
{
    read_reply(cached.read(page, point))
}

/// Folds a page to the anchor, and commits it.
pub(crate) fn fold(cached: &mut CachedSegment, page: u16) -> Reply
    ensures folds { Folds cached.old page result cached.new }
    ensures refused { IsRefusal result → cached.new ≡ cached.old }
{
    let folded = match cached.plan_fold(page) {
        Ok(plan) => plan.fold(),
        Err(fault) => return fault_reply(fault),
    };
    match cached.commit_fold(folded) {
        Ok(()) => Reply::Folded,
        Err(refused) => match refused.fault {
            CommitFault::Memory => Reply::Memory,
            // The plan's version is the anchor itself.
            CommitFault::Ahead { .. } => unreachable!(),
        },
    }
}

/// Drops the records that the images have.
pub(crate) fn discard(cached: &mut CachedSegment) -> Reply
    ensures discards { Discards cached.old result cached.new }
{
    cached.discard();
    Reply::Discarded
}

/// Folds all, and drops what the meaning does not keep.
pub(crate) fn tidy(cached: &mut CachedSegment) -> Reply
    ensures tidies { TidiesUp cached.old result cached.new }
    ensures refused { IsRefusal result → cached.new ≡ cached.old }
{
    tidied_reply(cached.tidy())
}

/// Replies with the stored record of the least key above the one given.
pub(crate) fn next(segment: &Segment, after: Option<Key>) -> Reply
    ensures tells { ReportsNext segment.now after result }
{
    match segment.key_after(after) {
        Some(key) => tell(segment, key),
        None => Reply::NoNext,
    }
}

/// Replies with the stored record of a key.
fn tell(segment: &Segment, key: Key) -> Reply
    requires { HoldsKey segment.now.held key }
    ensures { ReportsRecord segment.now key result }
{
    let Some(redo) = segment.get(key) else {
        unreachable!();
    };
    match redo.copy() {
        Ok(redo) => Reply::Next { redo },
        Err(_) => Reply::Memory,
    }
}
