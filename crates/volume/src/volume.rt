ghost use Rattle.std.specs.Prelude.{◌≡◌, IfOk, OnErr};
ghost use Rattle.volume.specs.Data.{volume_of, at_phase};
ghost use Rattle.volume.specs.Stepping.{IsVolumeStep, Creates, StartsOpening, CallsOpen, HearsNode, Hears, RetriesNode, Retries, Turns};
ghost use Rattle.volume.specs.Writing.{WritesPage, EndsTransaction, RaisesPoint};
ghost use Rattle.volume.specs.declared.phases.Phase.TheVariants.{Idle as IsIdlePhase};

use crate::actions::{Action, Fault};
use crate::creating::{FIRST_GENERATION, create, hear_creating, retry_creating};
use crate::events::Event;
use crate::fencing::{fence, hear_fencing, retry_fencing};
use crate::opening::{hear_opening, retry_opening};
use crate::phases::Phase;
use crate::sets::entry_of;
use crate::settings::Settings;
use crate::turns::{Transition, nothing, refuse};
use crate::writing::{bring, hear_writing, raise_reader, write_commit, write_page};
use guard::Reply;
use redo_core::Patch;
use std::alloc::{AllocError, Global};
use std::marker::Model;

/// The engine's side of a volume.
#[derive(Drop)]
pub struct Volume {
    alloc: Global,
    settings: Settings,
    /// The generation of the last opening or creation; 0 before the first.
    generation: u64,
    phase: Phase,
}

impl Model for Volume {
    ghost use Rattle.volume.specs.Data.{VolumeData, volume_of};

    ghost Value = { VolumeData };

    ghost view = { λ v. volume_of v.settings v.generation v.phase };
}

impl Volume {
    /// A machine that nothing has happened to.
    pub fn new(alloc: Global, settings: Settings) -> Self
        ensures { result ≡ volume_of settings 0 IsIdlePhase }
    {
        Volume {
            alloc,
            settings,
            generation: 0,
            phase: Phase::Idle,
        }
    }

    /// What follows from an event. A refused call changes nothing. `AllocError` changes nothing either: the event counts as not having come.
    pub fn step(&mut self, event: Event) -> Result<Vec<Action>, AllocError>
        ensures steps { IfOk result (λ v. IsVolumeStep self.old event v.items self.new) }
        ensures unchanged { OnErr result (self.new ≡ self.old) }
    {
        match event {
            Event::Create => self.create(),
            Event::Open { generation } => self.open(generation),
            Event::Write {
                page,
                init,
                patches,
            } => self.write(page, init, patches),
            Event::Commit { header } => self.commit(&header),
            Event::Advance { reader, point } => self.advance(reader, point),
            Event::Answered { node, reply } => self.hear(node, reply),
            Event::Failed { node } => self.retry(node),
        }
    }

    /// Ends an opening, a creation or an open volume: the machine opens next under a later generation. It needs no memory.
    pub fn close(&mut self)
        ensures { self.new ≡ at_phase self.old IsIdlePhase }
    {
        self.phase = Phase::Idle;
    }

    fn create(&mut self) -> Result<Vec<Action>, AllocError>
        ensures creates { IfOk result (λ v. Creates self.old v.items self.new) }
        ensures unchanged { OnErr result (self.new ≡ self.old) }
    {
        if self.generation > 0 {
            return refuse(self.alloc, Fault::NotFresh);
        }
        let (phase, actions) = create(self.alloc, &self.settings)?;
        self.generation = FIRST_GENERATION;
        self.phase = phase;
        Ok(actions)
    }

    fn open(&mut self, generation: u64) -> Result<Vec<Action>, AllocError>
        ensures opens { IfOk result (λ v. StartsOpening self.old generation v.items self.new) }
        ensures unchanged { OnErr result (self.new ≡ self.old) }
    {
        if generation <= self.generation {
            let generation = self.generation;
            return refuse(self.alloc, Fault::Fenced { generation });
        }
        let (phase, actions) = fence(self.alloc, &self.settings, generation)?;
        self.generation = generation;
        self.phase = phase;
        Ok(actions)
    }

    fn write(
        &mut self,
        page: u16,
        init: bool,
        patches: Vec<Patch>,
    ) -> Result<Vec<Action>, AllocError>
        ensures writes { IfOk result (λ v. CallsOpen (λ w asked after. WritesPage w page init patches.items asked after) self.old self.old.phase v.items self.new) }
        ensures unchanged { OnErr result (self.new ≡ self.old) }
    {
        match &mut self.phase {
            Phase::Open(writing) => write_page(self.alloc, writing, page, init, patches),
            _ => refuse(self.alloc, Fault::NotOpen),
        }
    }

    fn commit(&mut self, header: &[u8]) -> Result<Vec<Action>, AllocError>
        ensures commits { IfOk result (λ v. CallsOpen (λ w asked after. EndsTransaction w header.now asked after) self.old self.old.phase v.items self.new) }
        ensures unchanged { OnErr result (self.new ≡ self.old) }
    {
        match &mut self.phase {
            Phase::Open(writing) => write_commit(self.alloc, writing, header),
            _ => refuse(self.alloc, Fault::NotOpen),
        }
    }

    fn advance(&mut self, reader: u8, point: u64) -> Result<Vec<Action>, AllocError>
        ensures raises { IfOk result (λ v. CallsOpen (λ w asked after. RaisesPoint w reader point asked after) self.old self.old.phase v.items self.new) }
        ensures unchanged { OnErr result (self.new ≡ self.old) }
    {
        match &mut self.phase {
            Phase::Open(writing) => raise_reader(self.alloc, writing, reader, point),
            _ => refuse(self.alloc, Fault::NotOpen),
        }
    }

    /// Hears a reply of a node.
    fn hear(&mut self, node: u8, reply: Reply) -> Result<Vec<Action>, AllocError>
        ensures hears { IfOk result (λ v. HearsNode self.old node reply v.items self.new) }
        ensures unchanged { OnErr result (self.new ≡ self.old) }
    {
        if node >= self.settings.nodes() {
            return Ok(Vec::new(self.alloc));
        }
        let turn = hear_in(self.alloc, &self.settings, &mut self.phase, node, reply)?;
        Ok(self.turn(turn))
    }

    /// Asks a node again whose connection broke.
    fn retry(&mut self, node: u8) -> Result<Vec<Action>, AllocError>
        ensures retries { IfOk result (λ v. RetriesNode self.old node v.items self.new) }
        ensures unchanged { OnErr result (self.new ≡ self.old) }
    {
        if node >= self.settings.nodes() {
            return Ok(Vec::new(self.alloc));
        }
        let turn = retry_in(self.alloc, &self.settings, &self.phase, node)?;
        Ok(self.turn(turn))
    }

    /// Enters the phase that a turn leaves, and returns its actions.
    fn turn(&mut self, turn: Transition) -> Vec<Action>
        ensures { Turns self.old self.old.phase turn result.items self.new }
    {
        match turn {
            Transition::Stay(actions) => actions,
            Transition::Enter(phase, actions) => {
                self.phase = phase;
                actions
            }
            Transition::End(actions) => {
                self.phase = Phase::Idle;
                actions
            }
        }
    }
}

/// Hears a reply in a phase.
fn hear_in(
    alloc: Global,
    settings: &Settings,
    phase: &mut Phase,
    node: u8,
    reply: Reply,
) -> Result<Transition, AllocError>
    ensures hears { IfOk result (Hears settings.now phase.old node reply phase.new) }
    ensures unchanged { OnErr result (phase.new ≡ phase.old) }
{
    match phase {
        Phase::Idle => Ok(nothing(alloc)),
        Phase::Creating(creating) => hear_creating(alloc, settings, creating, node, &reply),
        Phase::Fencing(fencing) => hear_fencing(alloc, settings, fencing, node, &reply),
        Phase::Opening(opening) => hear_opening(alloc, settings.quorum(), opening, node, reply),
        Phase::Open(writing) => hear_writing(alloc, settings.quorum(), writing, node, reply),
    }
}

/// Asks a node again what it was asked in a phase.
fn retry_in(
    alloc: Global,
    settings: &Settings,
    phase: &Phase,
    node: u8,
) -> Result<Transition, AllocError>
    ensures { IfOk result (Retries settings.now phase.now node) }
{
    match phase {
        Phase::Idle => Ok(nothing(alloc)),
        Phase::Creating(creating) => Ok(Transition::Stay(retry_creating(alloc, creating, node)?)),
        Phase::Fencing(fencing) => retry_fencing(alloc, settings, fencing, node),
        Phase::Opening(opening) => Ok(Transition::Stay(retry_opening(alloc, opening, node)?)),
        Phase::Open(writing) => {
            let birth = entry_of(&writing.session.births, node);
            Ok(Transition::Stay(bring(alloc, writing, node, birth)?))
        }
    }
}
