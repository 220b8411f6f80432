ghost use Rattle.std.specs.Prelude.{◌≡◌, IfOk};
ghost use Rattle.replica.specs.Refused.{IsRefusal, IsAfterRefusal};
ghost use Rattle.replica.specs.Parts.{empty_replica};
ghost use Rattle.replica.specs.Machine.{IsReply};

use crate::at_segment::{discard, fold, front, gap, next, open, read, state, take, tidy};
use crate::gossiping::{absorb_delta, answer, answer_within, ask};
use crate::hydrating::{add, finish, freeze_as, piece, unite};
use crate::replies::Reply;
use crate::requests::Request;
use read_cache::CachedSegment;
use redo_core::Roster;
use segment_core::Segment;
use snapshot::{Snapshot, Staging};
use std::alloc::{AllocError, Global};
use std::marker::Model;

/// One segment with its cache, the snapshot that it exports and the staging that it fills: all that a storage node keeps of its part.
#[derive(Drop)]
pub struct Replica {
    cached: CachedSegment,
    snapshot: Option<Snapshot>,
    staging: Option<Staging>,
}

impl Model for Replica {
    ghost use Rattle.replica.specs.Parts.{ReplicaData, replica_of};

    ghost Value = { ReplicaData };

    ghost view = { λ r. replica_of r.cached r.snapshot r.staging };
}

impl Replica {
    /// A replica of a roster of readers that no fact has reached. Its cache keeps at most `pages` images; with 0 it keeps none.
    ///
    /// It fails only if memory runs out.
    pub fn new(alloc: Global, roster: Roster, pages: usize) -> Result<Self, AllocError>
        ensures { IfOk result (λ r. r ≡ empty_replica roster pages) }
    {
        match CachedSegment::new(Segment::new(alloc, roster)?, pages) {
            Ok(cached) => Ok(Replica {
                cached,
                snapshot: None,
                staging: None,
            }),
            Err(_) => Err(AllocError),
        }
    }

    /// Carries out a request, and replies to it. One that is refused, or lacks memory, changes nothing; a read then may still change
    /// which images the cache keeps.
    pub fn step(&mut self, request: Request) -> Reply
        ensures replies { IsReply self.old request result self.new }
        ensures refused { IsRefusal result → IsAfterRefusal request self.old self.new }
    {
        match request {
            Request::Open { roster } => open(&mut self.cached, roster),
            Request::Take { fact } => take(&mut self.cached, fact),
            Request::Front => front(self.cached.segment()),
            Request::Gap => gap(self.cached.segment()),
            Request::State => state(self.cached.segment()),
            Request::Read { page, point } => read(&mut self.cached, page, point),
            Request::Ask => ask(self.cached.segment()),
            Request::Answer { summary } => answer(self.cached.segment(), summary.value()),
            Request::AnswerWithin { summary, most } => {
                answer_within(self.cached.segment(), summary.value(), most)
            }
            Request::Absorb { summary, delta } => {
                absorb_delta(&mut self.cached, summary.value(), delta.value())
            }
            Request::Fold { page } => fold(&mut self.cached, page),
            Request::Discard => discard(&mut self.cached),
            Request::Tidy => tidy(&mut self.cached),
            Request::Freeze { name } => {
                freeze_as(self.cached.segment(), name, &mut self.snapshot)
            }
            Request::Piece { index } => piece(
                self.cached.segment().allocator(),
                &self.snapshot,
                index,
            ),
            Request::Stage { name, total } => {
                let alloc = self.cached.segment().allocator();
                self.staging = Some(Staging::new(alloc, name, total));
                Reply::Staged
            }
            Request::Add { piece } => add(&mut self.staging, piece.into_value()),
            Request::Finish => finish(&mut self.cached, &mut self.staging),
            Request::Unite => unite(&mut self.cached, &mut self.staging),
            Request::Next { after } => next(self.cached.segment(), after),
        }
    }
}
