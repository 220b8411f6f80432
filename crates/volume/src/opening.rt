ghost use Rattle.std.specs.Prelude.{◌≡◌, ◌↔◌, IsTrue, IfOk, IfSome, IfNone, OnErr, None, MatchOption};
ghost use Rattle.volume.specs.Sets.{birth_at};
ghost use Rattle.volume.specs.Sessions.{IsOwn, IsLate, with_birth};
ghost use Rattle.volume.specs.Resuming.{OpensVolume};
ghost use Rattle.volume.specs.Opening.{HearsOpening, HearsHeaded, HearsFront, HearsLost, HearsLate, HearsAccepted, Accepts};
ghost use Rattle.volume.specs.Opening.{HearsReported, ReachesEpoch, BeginsEpoch, TakesPlan, RefusesPlan, asks_in_stage, retries_opening};

use crate::actions::{Action, Fault};
use crate::errands::{Errand, Query, ask_each, ask_one, query_one};
use crate::phases::{Opening, Session, Stage};
use crate::plans::CutPlan;
use crate::pulling::{hear_delta, hear_known, hear_summary, settle};
use crate::resuming::open_volume;
use crate::sets::{count, entry_of, has, mark, put_entry};
use crate::turns::{Transition, end, nothing};
use guard::Reply;
use redo_core::{Cut, Fact};
use replica::Reply as SegmentReply;
use segment_core::{Front, Refusal, Segment};
use std::alloc::{AllocError, Global};

impl Session {
    /// Whether a reply under a generation and birth is one to this engine.
    pub(crate) fn is_own(&self, node: u8, generation: u64, birth: u64) -> bool
        ensures { IsTrue result ↔ IsOwn self.now node generation birth }
    {
        generation == self.generation && entry_of(&self.births, node) == Some(birth)
    }

    /// Whether the node is fenced or admitted under this generation, and no birth of it is known yet.
    pub(crate) fn is_late(&self, node: u8, generation: u64) -> bool
        ensures { IsTrue result ↔ IsLate self.now node generation }
    {
        generation == self.generation && entry_of(&self.births, node).is_none()
    }

    /// The session with the birth of a node.
    pub(crate) fn with_birth(&self, node: u8, birth: u64) -> Session
        ensures { result ≡ with_birth self.now node birth }
    {
        let mut session = *self;
        put_entry(&mut session.births, node, Some(birth));
        session
    }
}

/// Hears a reply of a node.
pub(crate) fn hear_opening(
    alloc: Global,
    quorum: u8,
    opening: &mut Opening,
    node: u8,
    reply: Reply,
) -> Result<Transition, AllocError>
    ensures hears { IfOk result (HearsOpening quorum opening.old node reply opening.new) }
    ensures unchanged { OnErr result (opening.new ≡ opening.old) }
{
    match reply {
        Reply::Headed {
            generation,
            birth,
            reply,
        } => {
            if opening.session.is_own(node, generation, birth) {
                hear_headed(alloc, quorum, opening, node, reply)
            } else {
                Ok(nothing(alloc))
            }
        }
        Reply::Accepted {
            generation,
            birth,
            epoch,
        } => {
            if opening.session.is_own(node, generation, birth) {
                hear_accepted(alloc, quorum, opening, node, epoch)
            } else {
                Ok(nothing(alloc))
            }
        }
        Reply::Fenced {
            generation,
            birth,
            ..
        } => hear_late(alloc, opening, node, generation, birth),
        Reply::Admitted { generation, birth } => {
            hear_late(alloc, opening, node, generation, birth)
        }
        Reply::Stale(generation) => {
            if generation > opening.session.generation {
                end(alloc, Fault::Fenced { generation })
            } else {
                Ok(nothing(alloc))
            }
        }
        Reply::Fresh(_) => hear_lost(alloc, quorum, opening, node),
        _ => Ok(nothing(alloc)),
    }
}

/// Hears a reply to what was asked under the generation.
fn hear_headed(
    alloc: Global,
    quorum: u8,
    opening: &mut Opening,
    node: u8,
    reply: SegmentReply,
) -> Result<Transition, AllocError>
    ensures hears { IfOk result (HearsHeaded quorum opening.old node reply opening.new) }
    ensures unchanged { OnErr result (opening.new ≡ opening.old) }
{
    match reply {
        SegmentReply::Delta { delta } => hear_delta(alloc, opening, node, delta.value()),
        SegmentReply::Summary { summary } => {
            hear_summary(alloc, opening, node, summary.into_value())
        }
        SegmentReply::Front { front } => hear_front(alloc, quorum, opening, node, &front),
        _ => Ok(nothing(alloc)),
    }
}

/// Hears a front.
fn hear_front(
    alloc: Global,
    quorum: u8,
    opening: &mut Opening,
    node: u8,
    front: &Front,
) -> Result<Transition, AllocError>
    ensures hears { IfOk result (HearsFront quorum opening.old opening.old.stage node front.now opening.new) }
    ensures unchanged { OnErr result (opening.new ≡ opening.old) }
{
    match opening.stage {
        Stage::Taking { .. } => hear_reported(alloc, quorum, opening, node, front),
        _ => hear_known(alloc, quorum, opening, node, front),
    }
}

/// Hears that a node is fresh: no quorum is left where the node is one of it, and some have not answered what they have.
fn hear_lost(
    alloc: Global,
    quorum: u8,
    opening: &Opening,
    node: u8,
) -> Result<Transition, AllocError>
    ensures { IfOk result (HearsLost quorum opening.now opening.now.stage node opening.now) }
{
    let Stage::Pulling { .. } = opening.stage else {
        return Ok(nothing(alloc));
    };
    if !has(&opening.session.quorum, node) {
        return Ok(nothing(alloc));
    }
    let have = count(&opening.session.quorum).saturating_sub(1);
    end(alloc, Fault::NoQuorum { have, need: quorum })
}

/// Hears that a node is fenced or admitted, and asks it what the others were asked.
fn hear_late(
    alloc: Global,
    opening: &mut Opening,
    node: u8,
    generation: u64,
    birth: u64,
) -> Result<Transition, AllocError>
    ensures hears { IfOk result (HearsLate opening.old node generation birth opening.new) }
    ensures unchanged { OnErr result (opening.new ≡ opening.old) }
{
    if !opening.session.is_late(node, generation) {
        return Ok(nothing(alloc));
    }
    let session = opening.session.with_birth(node, birth);
    let actions = ask_stage(alloc, &session, &opening.stage, node)?;
    opening.session = session;
    Ok(Transition::Stay(actions))
}

/// What a stage past the pulling asks of a node.
fn ask_stage(
    alloc: Global,
    session: &Session,
    stage: &Stage,
    node: u8,
) -> Result<Vec<Action>, AllocError>
    ensures { IfOk result (λ v. v.items ≡ asks_in_stage session.now.generation stage.now node (birth_at session.now.births node)) }
{
    let birth = entry_of(&session.births, node);
    let generation = session.generation;
    match stage {
        Stage::Pulling { .. } => Ok(Vec::new(alloc)),
        Stage::Spreading { .. } => ask_one(alloc, generation, node, birth, &Errand::Ask),
        Stage::Proposing { plan, .. } => {
            ask_one(alloc, generation, node, birth, &Errand::Propose(plan.cut))
        }
        Stage::Taking { plan, .. } => {
            ask_one(alloc, generation, node, birth, &Errand::Begin(plan.cut))
        }
    }
}

/// Asks a node again; one of which no birth is known, to be fenced.
pub(crate) fn retry_opening(
    alloc: Global,
    opening: &Opening,
    node: u8,
) -> Result<Vec<Action>, AllocError>
    ensures { IfOk result (λ v. v.items ≡ retries_opening opening.now opening.now.stage node) }
{
    let generation = opening.session.generation;
    let birth = entry_of(&opening.session.births, node);
    if birth.is_none() {
        return query_one(alloc, node, Query::Fence { generation });
    }
    match &opening.stage {
        Stage::Pulling { left } => {
            if !has(left, node) {
                return Ok(Vec::new(alloc));
            }
            let errand = Errand::Pull(opening.asked().copy()?);
            ask_one(alloc, generation, node, birth, &errand)
        }
        stage => ask_stage(alloc, &opening.session, stage, node),
    }
}

/// Hears that a node has accepted a truncation.
fn hear_accepted(
    alloc: Global,
    quorum: u8,
    opening: &mut Opening,
    node: u8,
    epoch: u16,
) -> Result<Transition, AllocError>
    ensures hears { IfOk result (HearsAccepted quorum opening.old opening.old.stage node epoch opening.new) }
    ensures unchanged { OnErr result (opening.new ≡ opening.old) }
{
    let Stage::Proposing { plan, accepted } = opening.stage else {
        return Ok(nothing(alloc));
    };
    if epoch != plan.cut.epoch() {
        return Ok(nothing(alloc));
    }
    let mut accepted = accepted;
    mark(&mut accepted, node);
    accept(alloc, quorum, opening, &plan, accepted)
}

/// With a quorum that has accepted the plan, each node is asked to take it.
fn accept(
    alloc: Global,
    quorum: u8,
    opening: &mut Opening,
    plan: &CutPlan,
    accepted: [bool; 15],
) -> Result<Transition, AllocError>
    ensures accepts { IfOk result (Accepts quorum opening.old plan.now accepted opening.new) }
    ensures unchanged { OnErr result (opening.new ≡ opening.old) }
{
    let plan = *plan;
    if count(&accepted) < quorum {
        opening.stage = Stage::Proposing { plan, accepted };
        return Ok(nothing(alloc));
    }
    let Session {
        generation,
        births,
        ..
    } = opening.session;
    let actions = ask_each(alloc, generation, &births, &Errand::Begin(plan.cut))?;
    let reported = [false; 15];
    opening.stage = Stage::Taking { plan, reported };
    Ok(Transition::Stay(actions))
}

/// Hears a front while the nodes take the plan.
fn hear_reported(
    alloc: Global,
    quorum: u8,
    opening: &mut Opening,
    node: u8,
    front: &Front,
) -> Result<Transition, AllocError>
    ensures hears { IfOk result (HearsReported quorum opening.old opening.old.stage node front.now opening.new) }
    ensures unchanged { OnErr result (opening.new ≡ opening.old) }
{
    let Stage::Taking { plan, reported } = opening.stage else {
        return Ok(nothing(alloc));
    };
    if front.epoch < plan.cut.epoch() {
        return Ok(nothing(alloc));
    }
    let mut reported = reported;
    mark(&mut reported, node);
    report(alloc, quorum, opening, &plan, reported)
}

/// With a quorum in the plan's epoch the union takes the plan too.
fn report(
    alloc: Global,
    quorum: u8,
    opening: &mut Opening,
    plan: &CutPlan,
    reported: [bool; 15],
) -> Result<Transition, AllocError>
    ensures reports { IfOk result (ReachesEpoch quorum opening.old plan.now reported opening.new) }
    ensures unchanged { OnErr result (opening.new ≡ opening.old) }
{
    if count(&reported) < quorum {
        let plan = *plan;
        opening.stage = Stage::Taking { plan, reported };
        return Ok(nothing(alloc));
    }
    begin_epoch(alloc, opening, plan)
}

/// The union takes the plan. If it was pending, it is made known again, and the truncation after it is next; else the volume is open.
fn begin_epoch(
    alloc: Global,
    opening: &mut Opening,
    plan: &CutPlan,
) -> Result<Transition, AllocError>
    ensures begins { IfOk result (BeginsEpoch opening.old plan.now opening.new) }
    ensures unchanged { OnErr result (opening.new ≡ opening.old) }
{
    let Some(union) = truncated(&opening.union, plan.cut)? else {
        return end(alloc, Fault::Damaged);
    };
    if plan.is_pending {
        return settle(alloc, opening, union);
    }
    open_volume(alloc, &opening.session, &union, plan.cut)
}

/// The union with a truncation, or None where that does not fit.
fn truncated(union: &Segment, cut: Cut) -> Result<Option<Segment>, AllocError>
    ensures takes { IfOk result (λ o. IfSome o (TakesPlan union.now cut)) }
    ensures refuses { IfOk result (λ o. IfNone o (RefusesPlan union.now cut)) }
{
    let mut union = union.copy()?;
    match union.take(Fact::Cut(cut)) {
        Ok(_) => Ok(Some(union)),
        Err(refused) => match refused.fault {
            Refusal::Memory => Err(AllocError),
            _ => Ok(None),
        },
    }
}
