ghost use Rattle.std.specs.Prelude.{◌≡◌, ℕ, ◌<◌, ◌↔◌, List, [], ◌∷◌, Option, Some, length, IfOk, OnErr};
ghost use Rattle.std.specs.Option.{option_copied};
ghost use Rattle.redo_core.specs.declared.facts.Fact.{Fact as AnyFact};
ghost use Rattle.segment_theorems.specs.State.{State};
ghost use Rattle.script_steps.specs.Nodes.{nodes_of, first_missing};
ghost use Rattle.script_steps.specs.declared.steps.Step.TheVariants.{Take as TakeOf, Fold as FoldOf, Wipe as WipeOf};
ghost use Rattle.fleet_core.specs.AtNode.{OwnFollows, IsCarriedOut, CarriesOut};
ghost use Rattle.fleet_core.specs.Calls.{StepCalls, RunCalls, Folds, Wipes};
ghost use Rattle.fleet_core.specs.FleetState.{empty_fleet};
ghost use Rattle.fleet_core.specs.Machine.{empty_machine};
ghost use Rattle.fleet_core.specs.Messages.{LacksMessage};
ghost use Rattle.fleet_core.specs.declared.making.Made.{Made};
ghost use Rattle.fleet_core.specs.Refused.{IsRefusal};
ghost use Rattle.fleet_core.specs.Runs.{MeansMachine, FollowsStep, FollowsMachine};
ghost use Rattle.fleet_core.specs.declared.replies.Reply.TheVariants.{NoNode, NoMessage};

use crate::asking::{absorb_answer, answer_question, ask};
use crate::making::Made;
use crate::pairs::{covers_beside, join_beside, same_beside};
use crate::replies::Reply;
use crate::replying::{fault_reply, read_reply};
use crate::taking::{take_copy, take_fact};
use redo_core::{Fact, Roster};
use script_steps::Step;
use segment_core::{CommitFault, Segment};
use std::alloc::{AllocError, Global};
use std::marker::Model;

/// Some segments of one roster of readers, and the messages that were made of them, both counted from 1.
#[derive(Drop)]
pub struct Fleet {
    roster: Roster,
    nodes: Vec<Segment>,
    messages: Vec<Made>,
}

impl Model for Fleet {
    ghost use Rattle.fleet_core.specs.FleetState.{FleetState};

    ghost Value = { FleetState };

    ghost view = { λ f. record { roster = f.roster; segments = f.nodes.items; messages = f.messages.items } };
}

impl Fleet {
    /// A fleet of segments of a roster of readers, that no fact has reached. It fails only if memory runs out.
    pub fn new(alloc: Global, roster: Roster, nodes: u16) -> Result<Self, AllocError>
        ensures empty { IfOk result (λ fleet. fleet ≡ empty_fleet roster nodes) }
        ensures means { IfOk result (λ fleet. (log : List AnyFact) → MeansMachine roster log (empty_machine nodes) fleet) }
    {
        let mut segments = Vec::new(alloc);
        for _ in 0..nodes {
            segments.push(Segment::new(alloc, roster)?)?;
        }
        Ok(Fleet {
            roster,
            nodes: segments,
            messages: Vec::new(alloc),
        })
    }

    /// Carries out one step. A step that replies `Memory`, `NoNode`, `NoMessage`, `Uncovered` or a refusal makes no message, and
    /// changes nothing.
    pub fn step(&mut self, step: &Step<Fact>) -> Reply
        // For the facts that the segments mean.
        ensures follows { FollowsStep self.old step.now result self.new }
        // Over any facts.
        ensures calls { StepCalls self.old step.now result self.new }
        ensures no_node { (node : ℕ) → (result ≡ NoNode node) ↔ (first_missing (length self.old.segments) (nodes_of step.now) ≡ Some node) }
        ensures no_message { (number : ℕ) → (result ≡ NoMessage number) ↔ LacksMessage self.old step.now number }
        ensures refused { IsRefusal result → self.new ≡ self.old }
    {
        if let Some(node) = step.missing(self.nodes.len()) {
            return Reply::NoNode(node);
        }
        let place = usize::from(step.node()) - 1;
        let other = usize::from(step.other()) - 1;
        carry_out_at(
            &mut self.nodes,
            place,
            other,
            &mut self.messages,
            self.roster,
            step,
        )
    }

    /// Carries out the step by which a fact reaches a node, without a copy of the fact.
    pub fn take(&mut self, node: u16, fact: Fact) -> Reply
        // For the facts that the segments mean.
        ensures follows { FollowsStep self.old (TakeOf node fact) result self.new }
        // Over any facts.
        ensures calls { StepCalls self.old (TakeOf node fact) result self.new }
        ensures no_node { (missing : ℕ) → (result ≡ NoNode missing) ↔ (first_missing (length self.old.segments) (node ∷ []) ≡ Some missing) }
        ensures no_message { (number : ℕ) → result ≡ NoMessage number → ⊥ }
        ensures refused { IsRefusal result → self.new ≡ self.old }
    {
        if node == 0 || usize::from(node) > self.nodes.len() {
            return Reply::NoNode(node);
        }
        take_at(&mut self.nodes, usize::from(node) - 1, node, fact)
    }

    /// Carries out steps, and gives their replies in order. It fails only if memory runs out for the list of replies, which is
    /// reserved before the first step: then nothing has changed.
    pub fn run(&mut self, alloc: Global, steps: &[Step<Fact>]) -> Result<Vec<Reply>, AllocError>
        // For the facts that the segments mean.
        ensures follows { IfOk result (λ replies. FollowsMachine self.old steps.now replies.items self.new) }
        // Over any facts.
        ensures calls { IfOk result (λ replies. RunCalls self.old steps.now replies.items self.new) }
        ensures count { IfOk result (λ replies. length replies.items ≡ length steps.now) }
        ensures err { OnErr result (self.new ≡ self.old) }
    {
        let mut replies = Vec::with_capacity(alloc, steps.len())?;
        for step in steps {
            let reply = self.step(step);
            replies.push(reply).unwrap();
        }
        Ok(replies)
    }
}

/// Carries out a step at a place, counted from 0, beside the segment at another place.
fn carry_out_at(
    segments: &mut [Segment],
    place: usize,
    other: usize,
    messages: &mut Vec<Made>,
    roster: Roster,
    step: &Step<Fact>,
) -> Reply
    requires place { place < length segments.old }
    requires other { other < length segments.old }
    ensures { CarriesOut roster segments.old place other messages.old.items step.now result segments.new messages.new.items }
{
    if place < other {
        let (front, back) = segments.split_at_mut(other);
        return carry_out(&mut front[place], Some(&back[0]), messages, roster, step);
    }
    if other < place {
        let (front, back) = segments.split_at_mut(place);
        return carry_out(&mut back[0], Some(&front[other]), messages, roster, step);
    }
    carry_out(&mut segments[place], None, messages, roster, step)
}

/// Carries out a step at its node, beside the other node where the step names another one.
fn carry_out(
    segment: &mut Segment,
    other: Option<&Segment>,
    messages: &mut Vec<Made>,
    roster: Roster,
    step: &Step<Fact>,
) -> Reply
    ensures { IsCarriedOut roster segment.old (option_copied other.entry) messages.old.items step.now result segment.new messages.new.items }
{
    match step {
        Step::Take { fact, .. } => take_copy(segment, fact),
        Step::Fold { page, .. } => fold_page(segment, *page),
        Step::Discard { .. } => {
            segment.discard();
            Reply::Discarded
        }
        Step::Front { .. } => Reply::Front(segment.front()),
        Step::Read { page, point, .. } => read_reply(segment.read(*page, *point)),
        Step::Join { .. } => join_beside(segment, other),
        Step::Same { .. } => same_beside(segment, other),
        Step::Covers { .. } => covers_beside(segment, other),
        Step::Wipe { .. } => wipe(segment, roster),
        Step::Ask { .. } => ask(segment, messages),
        Step::Answer { message, .. } => answer_question(segment, messages, *message),
        Step::Absorb { message, .. } => absorb_answer(segment, messages, *message),
    }
}

/// Gives a fact to the segment at a place, counted from 0.
fn take_at(segments: &mut [Segment], place: usize, node: u16, fact: Fact) -> Reply
    requires { place < length segments.old }
    ensures { (readers : ℕ) (messages : List Made) → CarriesOut readers segments.old place place messages (TakeOf node fact) result segments.new messages }
{
    take_fact(&mut segments[place], fact)
}

/// Folds a page to the segment's anchor, and commits it.
fn fold_page(segment: &mut Segment, page: u16) -> Reply
    ensures follows { (readers node : ℕ) (other : Option State) → OwnFollows readers segment.old other (FoldOf node page) result segment.new }
    ensures calls { Folds segment.old page result segment.new }
    ensures found { (node : ℕ) → result ≡ NoNode node → ⊥ }
    ensures named { (number : ℕ) → result ≡ NoMessage number → ⊥ }
    ensures refused { IsRefusal result → segment.new ≡ segment.old }
{
    let folded = match segment.plan_fold(page) {
        Ok(plan) => plan.fold(),
        Err(fault) => return fault_reply(fault),
    };
    match segment.commit_fold(folded) {
        Ok(()) => Reply::Folded,
        Err(refused) => match refused.fault {
            CommitFault::Memory => Reply::Memory,
            // The plan's version is the anchor itself.
            CommitFault::Ahead { .. } => unreachable!(),
        },
    }
}

/// Puts a segment that nothing has reached in place of the segment.
fn wipe(segment: &mut Segment, roster: Roster) -> Reply
    ensures follows { (node : ℕ) (other : Option State) → OwnFollows roster segment.old other (WipeOf node) result segment.new }
    ensures calls { Wipes roster segment.old result segment.new }
    ensures found { (node : ℕ) → result ≡ NoNode node → ⊥ }
    ensures named { (number : ℕ) → result ≡ NoMessage number → ⊥ }
    ensures refused { IsRefusal result → segment.new ≡ segment.old }
{
    match Segment::new(segment.allocator(), roster) {
        Ok(fresh) => {
            *segment = fresh;
            Reply::Wiped
        }
        Err(_) => Reply::Memory,
    }
}
