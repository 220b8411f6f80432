//! The requests of snapshots and stagings.
ghost use Rattle.std.specs.Prelude.{◌≡◌, ◌⊎◌};
ghost use Rattle.replica.specs.declared.replies.Reply.TheVariants.{Memory as MemoryReply, Piece as PieceReply};
ghost use Rattle.replica.specs.Hydrating.{FreezesAs, Pieces, AddsTo, Finishes, EndsInUnion, JoinsStaged};

use crate::at_segment::put;
use crate::boxes::Boxed;
use crate::replies::Reply;
use crate::replying::{refusal_reply, unadded_reply, unfinished_reply};
use messages::Piece;
use read_cache::CachedSegment;
use segment_core::Segment;
use snapshot::{FreezeFault, Snapshot, Staging, freeze};
use std::alloc::Global;

/// Replaces the kept snapshot by one of the segment.
pub(crate) fn freeze_as(segment: &Segment, name: u64, snapshot: &mut Option<Snapshot>) -> Reply
    ensures freezes { FreezesAs segment.now name snapshot.old result snapshot.new }
{
    match freeze(segment, name) {
        Ok(frozen) => {
            let pieces = frozen.pieces();
            *snapshot = Some(frozen);
            Reply::Frozen { pieces }
        }
        Err(FreezeFault::TooMany) => Reply::TooMany,
        Err(FreezeFault::Memory) => Reply::Memory,
    }
}

/// Replies with a piece of the snapshot.
pub(crate) fn piece(alloc: Global, snapshot: &Option<Snapshot>, index: u32) -> Reply
    ensures pieces { Pieces snapshot.now index result }
{
    let Some(snapshot) = snapshot else {
        return Reply::NoSnapshot;
    };
    if index >= snapshot.pieces() {
        return Reply::NoPiece;
    }
    match snapshot.piece(index) {
        Ok(piece) => piece_reply(alloc, piece),
        Err(_) => Reply::Memory,
    }
}

/// The reply that has a piece, unless memory runs out.
fn piece_reply(alloc: Global, piece: Piece) -> Reply
    ensures { (result ≡ MemoryReply) ⊎ (result ≡ PieceReply piece) }
{
    match Boxed::new(alloc, piece) {
        Ok(piece) => Reply::Piece { piece },
        Err(_) => Reply::Memory,
    }
}

/// Adds a piece to the staging.
pub(crate) fn add(staging: &mut Option<Staging>, piece: Piece) -> Reply
    ensures adds { AddsTo staging.old piece result staging.new }
{
    let Some(staging) = staging else {
        return Reply::NoStaging;
    };
    match staging.add(piece) {
        Ok(()) => Reply::Added,
        Err(refused) => unadded_reply(refused.fault),
    }
}

/// Replaces the segment by the one that the staging's pieces make.
pub(crate) fn finish(cached: &mut CachedSegment, staging: &mut Option<Staging>) -> Reply
    ensures finishes { Finishes cached.old staging.old result cached.new staging.new }
{
    let made = match staging {
        Some(staging) => staging.finish(),
        None => return Reply::NoStaging,
    };
    match made {
        Ok(segment) => {
            put(cached, segment);
            *staging = None;
            Reply::Restored
        }
        Err(fault) => unfinished_reply(fault),
    }
}

/// Joins the segment that the staging's pieces make into the segment.
pub(crate) fn unite(cached: &mut CachedSegment, staging: &mut Option<Staging>) -> Reply
    ensures unites { EndsInUnion cached.old staging.old result cached.new staging.new }
{
    let made = match staging {
        Some(staging) => staging.finish(),
        None => return Reply::NoStaging,
    };
    match made {
        Ok(segment) => join_staged(cached, &segment, staging),
        Err(fault) => unfinished_reply(fault),
    }
}

/// Joins the segment that a staging's pieces made into the segment. The staging is gone then, and stays where the join is refused.
fn join_staged(cached: &mut CachedSegment, made: &Segment, staging: &mut Option<Staging>) -> Reply
    ensures { JoinsStaged cached.old staging.old made.now result cached.new staging.new }
{
    match cached.join(made) {
        Ok(()) => {
            *staging = None;
            Reply::United
        }
        Err(why) => refusal_reply(why),
    }
}
