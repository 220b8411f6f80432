ghost use Rattle.std.specs.Prelude.{◌≡◌, ◌↔◌, IsTrue};
ghost use Rattle.guard.specs.Data.{fresh_guard};
ghost use Rattle.guard.specs.Asked.{IsGuarded, ReplacesSegment};
ghost use Rattle.guard.specs.Guarding.{IsGuardReply, IsUnder, HasLater, NamesNode};
ghost use Rattle.guard.specs.Guarding.{ReportsGuard, Fences, AsksUnder, Proposes, Admits, AsksPlainly};
ghost use Rattle.guard.specs.Refusing.{IsGuardRefusal, IsAfterGuardRefusal};
ghost use Rattle.replica.specs.AtSegment.{Fronts};
ghost use Rattle.replica.specs.declared.replies.Reply.TheVariants as replica_reply;

use crate::replies::Reply;
use crate::requests::{AcceptedCut, Admission, Request};
use redo_core::Cut;
use replica::Replica;
use segment_core::Front;
use std::marker::Model;

/// A replica, with the state by which its node decides which engine it answers.
#[derive(Drop)]
pub struct Guard {
    replica: Replica,
    generation: u64,
    accepted: Option<AcceptedCut>,
    is_member: bool,
    birth: u64,
}

impl Model for Guard {
    ghost use Rattle.guard.specs.Data.{GuardData, guard_of};

    ghost Value = { GuardData };

    ghost view = { λ g. guard_of g.replica g.generation g.accepted g.is_member g.birth };
}

impl Guard {
    /// The guard of a fresh node: no member, of generation 0, with no accepted truncation. No earlier life of the node may have had this
    /// birth; whoever starts the node draws it at random.
    pub fn new(replica: Replica, birth: u64) -> Self
        ensures { result ≡ fresh_guard replica birth }
    {
        Guard {
            replica,
            generation: 0,
            accepted: None,
            is_member: false,
            birth,
        }
    }

    /// The generation of the last fence or admission; 0 at a fresh node.
    pub fn generation(&self) -> u64
        ensures { result ≡ self.now.generation }
    {
        self.generation
    }

    /// The truncation that the node has accepted last.
    pub fn accepted(&self) -> Option<AcceptedCut>
        ensures { result ≡ self.now.accepted }
    {
        self.accepted
    }

    /// Whether an engine has admitted the node.
    pub fn is_member(&self) -> bool
        ensures { result ≡ self.now.is_member }
    {
        self.is_member
    }

    /// The number of this life of the node.
    pub fn birth(&self) -> u64
        ensures { result ≡ self.now.birth }
    {
        self.birth
    }

    /// Carries out a request, and replies to it. One that is refused, or lacks memory, changes nothing; a read then may still change
    /// which images the cache keeps.
    pub fn step(&mut self, request: Request) -> Reply
        ensures replies { IsGuardReply self.old request result self.new }
        ensures refused { IsGuardRefusal result → IsAfterGuardRefusal request self.old self.new }
    {
        match request {
            Request::Status => self.report(),
            Request::Fence { generation } => self.fence(generation),
            Request::As {
                generation,
                birth,
                request,
            } => self.ask_under(generation, birth, request),
            Request::Propose {
                generation,
                birth,
                cut,
            } => self.propose(generation, birth, cut),
            Request::Admit(admission) => self.admit(admission),
            Request::Plain(request) => self.ask_plainly(request),
        }
    }

    fn report(&mut self) -> Reply
        ensures { ReportsGuard self.old result self.new }
    {
        let front = self.front();
        Reply::Status {
            generation: self.generation,
            birth: self.birth,
            is_member: self.is_member,
            front,
            accepted: self.accepted,
        }
    }

    fn fence(&mut self, generation: u64) -> Reply
        ensures { Fences self.old generation result self.new }
    {
        if !self.is_member || generation <= self.generation {
            return self.declined();
        }
        self.generation = generation;
        Reply::Fenced {
            generation,
            birth: self.birth,
            accepted: self.accepted,
        }
    }

    fn ask_under(&mut self, generation: u64, birth: u64, request: replica::Request) -> Reply
        ensures replies { AsksUnder self.old generation birth request result self.new }
        ensures refused { IsGuardRefusal result → IsAfterGuardRefusal (Request.As generation birth request) self.old self.new }
    {
        if !is_guarded(&request) {
            let_go(request);
            return Reply::Unguarded;
        }
        if !self.is_under(generation, birth) {
            let_go(request);
            return self.declined();
        }
        Reply::Headed {
            generation,
            birth,
            reply: self.replica.step(request),
        }
    }

    fn propose(&mut self, generation: u64, birth: u64, cut: Cut) -> Reply
        ensures { Proposes self.old generation birth cut result self.new }
    {
        if !self.is_under(generation, birth) || self.has_later(generation, cut.epoch()) {
            return self.declined();
        }
        self.accepted = Some(AcceptedCut { generation, cut });
        Reply::Accepted {
            generation,
            birth,
            epoch: cut.epoch(),
        }
    }

    fn admit(&mut self, admission: Admission) -> Reply
        ensures { Admits self.old admission result self.new }
    {
        if self.is_member {
            return Reply::Member;
        }
        if admission.birth != self.birth {
            return Reply::Stranger(self.birth);
        }
        let front = self.front();
        if front.epoch != admission.epoch || front.complete < admission.complete {
            return Reply::Behind {
                epoch: front.epoch,
                complete: front.complete,
            };
        }
        self.generation = admission.generation;
        self.accepted = admission.accepted;
        self.is_member = true;
        Reply::Admitted {
            generation: admission.generation,
            birth: self.birth,
        }
    }

    fn ask_plainly(&mut self, request: replica::Request) -> Reply
        ensures replies { AsksPlainly self.old request result self.new }
        ensures refused { IsGuardRefusal result → IsAfterGuardRefusal (Request.Plain request) self.old self.new }
    {
        if self.loses_segment(&request) {
            let_go(request);
            return Reply::Member;
        }
        Reply::Plain(self.replica.step(request))
    }

    /// Whether the request would take its segment from a member.
    fn loses_segment(&self, request: &replica::Request) -> bool
        ensures { IsTrue result ↔ (IsTrue self.now.is_member × ReplacesSegment request.now) }
    {
        self.is_member && replaces_segment(request)
    }

    /// The reply to an engine whose request is not executed.
    fn declined(&self) -> Reply
        ensures { NamesNode self.now result }
    {
        if self.is_member {
            Reply::Stale(self.generation)
        } else {
            Reply::Fresh(self.birth)
        }
    }

    /// Whether the node answers the engine of this generation, in this birth.
    fn is_under(&self, generation: u64, birth: u64) -> bool
        ensures { IsTrue result ↔ IsUnder self.now generation birth }
    {
        self.is_member && generation == self.generation && birth == self.birth
    }

    /// Whether the node has accepted a truncation of this generation and of a later epoch.
    fn has_later(&self, generation: u64, epoch: u16) -> bool
        ensures { IsTrue result ↔ HasLater self.now.accepted generation epoch }
    {
        match self.accepted {
            Some(pair) => pair.generation == generation && epoch < pair.cut.epoch(),
            None => false,
        }
    }

    fn front(&mut self) -> Front
        ensures fronts { Fronts self.old.replica.cached.segment (replica_reply.Front result) }
        ensures unchanged { self.new ≡ self.old }
    {
        match self.replica.step(replica::Request::Front) {
            replica::Reply::Front { front } => front,
            // A replica replies to `Front` by nothing else.
            _ => unreachable!(),
        }
    }
}

/// Drops a request that is not carried out.
///
/// It is not inlined: where the code that drops a request is part of `step`, the compiler moves every request field by field.
#[inline(never)]
fn let_go(_request: replica::Request) {}

/// Whether an engine may ask this under its generation.
fn is_guarded(request: &replica::Request) -> bool
    ensures { IsTrue result ↔ IsGuarded request.now }
{
    !matches!(
        request,
        replica::Request::Open { .. }
            | replica::Request::Stage { .. }
            | replica::Request::Add { .. }
            | replica::Request::Finish
            | replica::Request::Unite
    )
}

/// Whether the request puts another segment in the place of the present one.
fn replaces_segment(request: &replica::Request) -> bool
    ensures { IsTrue result ↔ ReplacesSegment request.now }
{
    matches!(
        request,
        replica::Request::Open { .. } | replica::Request::Finish
    )
}
