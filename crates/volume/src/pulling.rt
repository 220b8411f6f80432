ghost use Rattle.std.specs.Prelude.{◌≡◌, ◌↔◌, ◌++◌, IsTrue, IfOk, IfSome, IfNone, OnErr, None, Ok, MatchOption};
ghost use Rattle.gossip_core.specs.declared.absorbing.AbsorbRefusal.TheVariants.{Refused as RefusedFor};
ghost use Rattle.segment_core.specs.declared.answers.Refusal.TheVariants.{Memory as IsMemory};
ghost use Rattle.volume.specs.Opening.{asked_with, HearsDelta, Pulls, PullsOthers, GoesOnPulling, GrowsBy, Plans, HearsSummary, Pushes, HearsKnown, Knows, PullsAgain, ProposesPlan, AdmitsFresh, FillsFor};
ghost use Rattle.gossip_core.specs.Summarizing.{Summarizes};
ghost use Rattle.volume.specs.Asking.{asks_from};
ghost use Rattle.volume.specs.Opening.{RefusesDelta, BreaksChain};
ghost use Rattle.volume.specs.declared.errands.Errand.TheVariants.{Pull as PullOf};

use crate::actions::{Action, Fault};
use crate::errands::{Errand, Joining, ask_each, ask_one, push_each};
use crate::phases::{Opening, Session, Stage};
use crate::plans::{CutPlan, plan_for};
use crate::sets::{count, entry_of, has, mark, nodes_with_entry, unmark};
use crate::turns::{Transition, end, nothing};
use gossip_core::{AbsorbRefusal, absorb, reply, summary};
use messages::{Delta, Summary};
use segment_core::{Front, ReadFault, Refusal, Segment};
use std::alloc::{AllocError, Global};

impl Opening {
    /// The summary that a node of the quorum is asked with.
    pub(crate) fn asked(&self) -> &Summary
        ensures { result.now ≡ asked_with self.now }
    {
        match &self.asked {
            Some(asked) => asked,
            None => &self.summary,
        }
    }
}

/// Hears what a node of the quorum has.
pub(crate) fn hear_delta(
    alloc: Global,
    opening: &mut Opening,
    node: u8,
    delta: &Delta,
) -> Result<Transition, AllocError>
    ensures hears { IfOk result (HearsDelta opening.old opening.old.stage node delta.now opening.new) }
    ensures unchanged { OnErr result (opening.new ≡ opening.old) }
{
    let Stage::Pulling { left } = opening.stage else {
        return Ok(nothing(alloc));
    };
    if !has(&left, node) {
        return Ok(nothing(alloc));
    }
    pull(alloc, opening, node, left, delta)
}

/// Adds what a node has to the union. When all have answered, the union is made known.
fn pull(
    alloc: Global,
    opening: &mut Opening,
    node: u8,
    left: [bool; 15],
    delta: &Delta,
) -> Result<Transition, AllocError>
    ensures pulls { IfOk result (Pulls opening.old node left delta.now opening.new) }
    ensures unchanged { OnErr result (opening.new ≡ opening.old) }
{
    let Some(union) = grown_by(opening, delta)? else {
        return end(alloc, Fault::Damaged);
    };
    let mut left = left;
    unmark(&mut left, node);
    go_on_pulling(alloc, opening, left, union)
}

/// Goes on with a larger union: makes it known where none is left, and asks the others where one has answered.
fn go_on_pulling(
    alloc: Global,
    opening: &mut Opening,
    left: [bool; 15],
    union: Segment,
) -> Result<Transition, AllocError>
    ensures goes { IfOk result (GoesOnPulling opening.old union left opening.new) }
    ensures unchanged { OnErr result (opening.new ≡ opening.old) }
{
    if count(&left) == 0 {
        return settle(alloc, opening, union);
    }
    if opening.asked.is_none() {
        return pull_others(alloc, opening, left, union);
    }
    opening.union = union;
    opening.stage = Stage::Pulling { left };
    Ok(nothing(alloc))
}

/// Asks the nodes for what they have beyond the union, which has what the first of them has.
fn pull_others(
    alloc: Global,
    opening: &mut Opening,
    left: [bool; 15],
    union: Segment,
) -> Result<Transition, AllocError>
    ensures asks { IfOk result (PullsOthers opening.old left union opening.new) }
    ensures unchanged { OnErr result (opening.new ≡ opening.old) }
{
    let (asked, actions) = ask_beyond(alloc, &opening.session, &union)?;
    opening.union = union;
    opening.asked = Some(asked);
    opening.stage = Stage::Pulling { left };
    Ok(Transition::Stay(actions))
}

/// The union's summary, and the requests for what nodes have beyond it.
fn ask_beyond(
    alloc: Global,
    session: &Session,
    union: &Segment,
) -> Result<(Summary, Vec<Action>), AllocError>
    ensures sums { IfOk result (λ p. Summarizes union.now p.0) }
    ensures asks { IfOk result (λ p. p.1.items ≡ asks_from session.now.generation (PullOf p.0) 0 session.now.births) }
{
    let asked = summary(union)?;
    let errand = Errand::Pull(asked.copy()?);
    let actions = ask_each(alloc, session.generation, &session.births, &errand)?;
    Ok((asked, actions))
}

/// The union with what a node has beyond the summary that it was asked with, or None where that does not fit.
fn grown_by(opening: &Opening, delta: &Delta) -> Result<Option<Segment>, AllocError>
    ensures grows { IfOk result (λ o. IfSome o (GrowsBy opening.now.union (asked_with opening.now) delta.now)) }
    ensures refuses { IfOk result (λ o. IfNone o (RefusesDelta opening.now.union (asked_with opening.now) delta.now)) }
{
    match &opening.asked {
        Some(asked) => grown(&opening.union, asked, delta),
        None => grown(&opening.union, &opening.summary, delta),
    }
}

/// The union with what another segment has beyond a summary that the union answers for, or None where that does not fit.
fn grown(union: &Segment, summary: &Summary, delta: &Delta) -> Result<Option<Segment>, AllocError>
    ensures grows { IfOk result (λ o. IfSome o (GrowsBy union.now summary.now delta.now)) }
    ensures refuses { IfOk result (λ o. IfNone o (RefusesDelta union.now summary.now delta.now)) }
{
    delta.opens_form();
    let mut union = union.copy()?;
    match absorb(&mut union, summary, delta) {
        Ok(()) => Ok(Some(union)),
        Err(why) => {
            if is_lack(&why) {
                Err(AllocError)
            } else {
                Ok(None)
            }
        }
    }
}

/// Whether an absorption was refused for lack of memory alone.
fn is_lack(why: &AbsorbRefusal) -> bool
    ensures { IsTrue result ↔ (why.now ≡ RefusedFor IsMemory) }
{
    matches!(why, AbsorbRefusal::Refused(Refusal::Memory))
}

/// Makes a union known, and plans what comes after it.
pub(crate) fn settle(
    alloc: Global,
    opening: &mut Opening,
    union: Segment,
) -> Result<Transition, AllocError>
    ensures settles { IfOk result (Plans opening.old union opening.new) }
    ensures unchanged { OnErr result (opening.new ≡ opening.old) }
{
    let plan = match plan_for(&union, &opening.pair)? {
        Ok(plan) => plan,
        Err(fault) => return end(alloc, fault),
    };
    let Session {
        generation,
        births,
        ..
    } = opening.session;
    let actions = ask_each(alloc, generation, &births, &Errand::Ask)?;
    let known = [false; 15];
    opening.union = union;
    opening.stage = Stage::Spreading { plan, known };
    Ok(Transition::Stay(actions))
}

/// Hears a node's summary, and sends the node what it lacks.
pub(crate) fn hear_summary(
    alloc: Global,
    opening: &Opening,
    node: u8,
    summary: Summary,
) -> Result<Transition, AllocError>
    ensures { IfOk result (HearsSummary opening.now opening.now.stage node summary opening.now) }
{
    match opening.stage {
        Stage::Spreading { .. } => push(alloc, opening, node, summary),
        _ => Ok(nothing(alloc)),
    }
}

/// Sends a node what the union has beyond its summary.
fn push(
    alloc: Global,
    opening: &Opening,
    node: u8,
    summary: Summary,
) -> Result<Transition, AllocError>
    ensures { IfOk result (Pushes opening.now node summary opening.now) }
{
    let Some(delta) = filling(&opening.union, &summary)? else {
        return end(alloc, Fault::Damaged);
    };
    let birth = entry_of(&opening.session.births, node);
    let errand = Errand::Push(summary, delta);
    let actions = ask_one(alloc, opening.session.generation, node, birth, &errand)?;
    Ok(Transition::Stay(actions))
}

/// What a union has beyond a summary, or None where a block chain of it is broken.
fn filling(union: &Segment, summary: &Summary) -> Result<Option<Delta>, AllocError>
    ensures fills { IfOk result (λ o. IfSome o (FillsFor union.now summary.now)) }
    ensures breaks { IfOk result (λ o. IfNone o (BreaksChain union.now summary.now)) }
{
    match reply(union, summary) {
        Ok(delta) => Ok(Some(delta)),
        Err(why) => match why {
            ReadFault::Memory => Err(AllocError),
            _ => Ok(None),
        },
    }
}

/// Hears a front while the union is made known. A node of the quorum with a later epoch is asked again for what it has.
pub(crate) fn hear_known(
    alloc: Global,
    quorum: u8,
    opening: &mut Opening,
    node: u8,
    front: &Front,
) -> Result<Transition, AllocError>
    ensures hears { IfOk result (HearsKnown quorum opening.old opening.old.stage node front.now opening.new) }
    ensures unchanged { OnErr result (opening.new ≡ opening.old) }
{
    let Stage::Spreading { plan, known } = opening.stage else {
        return Ok(nothing(alloc));
    };
    if front.epoch >= plan.cut.epoch() {
        return pull_again(alloc, opening, node);
    }
    if front.epoch + 1 < plan.cut.epoch() || front.complete < plan.cut.lo() {
        return Ok(nothing(alloc));
    }
    let mut known = known;
    mark(&mut known, node);
    know(alloc, quorum, opening, &plan, known)
}

/// With a quorum that knows what the plan keeps, the plan is proposed.
fn know(
    alloc: Global,
    quorum: u8,
    opening: &mut Opening,
    plan: &CutPlan,
    known: [bool; 15],
) -> Result<Transition, AllocError>
    ensures knows { IfOk result (Knows quorum opening.old plan.now known opening.new) }
    ensures unchanged { OnErr result (opening.new ≡ opening.old) }
{
    if count(&known) < quorum {
        let plan = *plan;
        opening.stage = Stage::Spreading { plan, known };
        return Ok(nothing(alloc));
    }
    propose(alloc, opening, plan)
}

/// Asks a node of the quorum again for what it has.
fn pull_again(alloc: Global, opening: &mut Opening, node: u8) -> Result<Transition, AllocError>
    ensures pulls { IfOk result (PullsAgain opening.old node opening.new) }
    ensures unchanged { OnErr result (opening.new ≡ opening.old) }
{
    if !has(&opening.session.quorum, node) {
        return Ok(nothing(alloc));
    }
    let errand = Errand::Pull(opening.asked().copy()?);
    let birth = entry_of(&opening.session.births, node);
    let actions = ask_one(alloc, opening.session.generation, node, birth, &errand)?;
    let mut left = [false; 15];
    mark(&mut left, node);
    opening.stage = Stage::Pulling { left };
    Ok(Transition::Stay(actions))
}

/// Admits the fresh nodes, and proposes the plan.
fn propose(alloc: Global, opening: &mut Opening, plan: &CutPlan) -> Result<Transition, AllocError>
    ensures proposes { IfOk result (ProposesPlan opening.old plan.now opening.new) }
    ensures unchanged { OnErr result (opening.new ≡ opening.old) }
{
    let Some(mut actions) = joins(alloc, opening)? else {
        return end(alloc, Fault::Damaged);
    };
    let Session {
        generation,
        births,
        ..
    } = opening.session;
    push_each(
        &mut actions,
        generation,
        &births,
        &Errand::Propose(plan.cut),
    )?;
    let (plan, accepted) = (*plan, [false; 15]);
    opening.fresh = [None; 15];
    opening.stage = Stage::Proposing { plan, accepted };
    Ok(Transition::Stay(actions))
}

/// The requests that make members of the fresh nodes: with what the union has, its front and the greatest accepted truncation. None where
/// a block chain of the union is broken.
fn joins(alloc: Global, opening: &Opening) -> Result<Option<Vec<Action>>, AllocError>
    ensures admits { IfOk result (λ o. IfSome o (λ v. AdmitsFresh opening.now v.items)) }
    ensures breaks { IfOk result (λ o. IfNone o (BreaksChain opening.now.union opening.now.summary)) }
{
    if count(&nodes_with_entry(&opening.fresh)) == 0 {
        return Ok(Some(Vec::new(alloc)));
    }
    let Some(delta) = filling(&opening.union, &opening.summary)? else {
        return Ok(None);
    };
    let front = opening.union.front();
    let joining = Joining {
        epoch: front.epoch,
        complete: front.complete,
        accepted: opening.pair,
    };
    let errand = Errand::Join(opening.summary.copy()?, delta, joining);
    let actions = ask_each(alloc, opening.session.generation, &opening.fresh, &errand)?;
    Ok(Some(actions))
}
