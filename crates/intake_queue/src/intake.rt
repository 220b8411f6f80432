ghost use Rattle.std.specs.Prelude.{◌≡◌, ◌+◌, ◌≤◌, [], ◌∷◌, ◌++◌, length, IfOk, IfErr, OnOk, IsErr, IfSome, IfNone};
ghost use Rattle.intake_queue.specs.Parcel.{sent_by, AreInTurn};
ghost use Rattle.intake_queue.specs.Ends.{next_parcel, AreNewSenders, AreSendersOf};
ghost use Rattle.intake_queue.specs.Heard.{HasTakenAllHeard, MayHaveLeft};
ghost use Rattle.intake_queue.specs.Left.{IsLeft};

use crate::ending::take_rest;
use crate::opening::make_senders;
use crate::parcel::Parcel;
use crate::passes::{SenderPass, TakerPass};
use crate::rule::{InTurn, Offers, PassView, Takes};
use crossbeam_queue::{Pass, RuledArrayQueue};
use named_log::LogName;
use redo_core::Refused;
use std::alloc::{AllocError, Global};
use std::marker::Model;
use std::sync::Wait;

/// The most senders of an intake.
pub const MAX_SENDERS: usize = 64;

/// The most parcels that an intake has room for.
pub const MAX_CAPACITY: usize = 65536;

/// The intake was full at a moment of the call.
#[derive(Debug, Clone, Copy, PartialEq, Eq)]
pub struct Full;

/// An intake that could not be ended, with what was handed in.
#[derive(Drop)]
pub struct Unended<L: LogName> {
    pub intake: Intake<L>,
    pub senders: Vec<SenderPass<L>>,
    pub taker: TakerPass<L>,
}

pub(crate) type Line<L> = RuledArrayQueue<Parcel<L>, PassView, InTurn, Global>;

/// A bounded queue of parcels. Contracts see which intake it is, and its capacity.
#[derive(Drop)]
pub struct Intake<L: LogName> {
    pub(crate) line: Line<L>,
}

impl<L: LogName> Model for Intake<L> {
    ghost use Rattle.crossbeam_queue.specs.Passes.{ruled_capacity};
    ghost use Rattle.intake_queue.specs.Ends.{IntakeData};

    ghost Value = { IntakeData };

    ghost view = { λ i. record { id = i.line.table.shared.table_id; capacity = ruled_capacity i.line } };
}

impl<L: LogName> Intake<L> {
    /// An intake with room for 1 to 65,536 parcels, its 1 to 64 senders, numbered from 1, and its taker.
    /// It fails only if memory runs out.
    pub fn open(
        alloc: Global,
        senders: usize,
        capacity: usize,
    ) -> Result<(Intake<L>, Vec<SenderPass<L>>, TakerPass<L>), AllocError>
        requires senders { (1 ≤ senders) × (senders ≤ MAX_SENDERS) }
        requires capacity { (1 ≤ capacity) × (capacity ≤ MAX_CAPACITY) }
        ensures capacity { IfOk result (λ made. made.0.capacity ≡ capacity) }
        ensures senders { IfOk result (λ made. AreNewSenders made.0.id senders senders made.1.items) }
        ensures taker { IfOk result (λ made. made.2 ≡ record { intake = made.0.id; senders = senders; taken = []; heard = [] }) }
    {
        let (line, mut pass): (Line<L>, Pass<Parcel<L>, PassView>) = RuledArrayQueue::ruled(
            alloc, capacity,
        )?;
        let made = make_senders(alloc, &line, &mut pass, senders)?;
        Ok((Intake { line }, made, TakerPass { pass }))
    }

    /// Puts the sender's next parcel at the back. `Full` hands it back: the queue was full at a moment of the call, and where
    /// the sender is the only one, so many of its parcels were accepted and not heard to be taken.
    pub fn offer<R: Wait>(
        &self,
        rt: &R,
        sender: &mut SenderPass<L>,
        parcel: Parcel<L>,
    ) -> Result<(), Refused<Parcel<L>, Full>>
        requires own { sender.old.intake ≡ self.now.id }
        requires next { parcel ≡ next_parcel sender.old parcel.fact }
        ensures ok { OnOk result (sender.new ≡ record sender.old { accepted = sender.old.accepted ++ parcel ∷ [] }) }
        ensures err { IfErr result (λ r. (r.value ≡ parcel) × (sender.new ≡ sender.old)) }
        ensures full { IsErr result → MayHaveLeft self.now.capacity sender.old }
    {
        let number = parcel.number();
        match self.line.push_as::<Offers, R>(rt, &mut sender.pass, parcel) {
            Ok(()) => {
                sender.accepted = number;
                Ok(())
            }
            Err(value) => Err(Refused { value, fault: Full }),
        }
    }

    /// Takes the parcel at the front, which is the next of its sender. At `None` the queue was empty at a moment of the call:
    /// the taker has taken all that it heard to be accepted.
    pub fn take_next<R: Wait>(&self, rt: &R, taker: &mut TakerPass<L>) -> Option<Parcel<L>>
        requires own { taker.old.intake ≡ self.now.id }
        ensures some { IfSome result (λ p. taker.new ≡ record taker.old { taken = taker.old.taken ++ p ∷ [] }) }
        ensures next { IfSome result (λ p. p.number ≡ length (sent_by p.sender taker.old.taken) + 1) }
        ensures in_turn { IfSome result (λ _. AreInTurn taker.old.senders taker.new.taken) }
        ensures none { IfNone result (taker.new ≡ taker.old) }
        ensures empty { IfNone result (HasTakenAllHeard taker.old) }
    {
        self.line.pop_as::<Takes, R>(rt, &mut taker.pass)
    }

    /// What is left, front first, once no thread shares the intake. Of each sender what was taken and then what is left are
    /// numbered in turn, and of each sender handed in they are its accepted offers.
    /// The only error is lack of memory, and then all is handed back as it was.
    pub fn end<R: Wait>(
        self,
        rt: &R,
        alloc: Global,
        senders: Vec<SenderPass<L>>,
        taker: TakerPass<L>,
    ) -> Result<Vec<Parcel<L>>, Refused<Unended<L>, AllocError>>
        requires taker { taker.intake ≡ self.id }
        requires senders { AreSendersOf self.id senders.items }
        ensures ok { IfOk result (λ left. IsLeft senders.items taker.taken left.items) }
        ensures in_turn { IfOk result (λ left. AreInTurn taker.senders (taker.taken ++ left.items)) }
        ensures err { IfErr result (λ r. (r.value.intake ≡ self) × (r.value.senders ≡ senders) × (r.value.taker ≡ taker)) }
    {
        // With room for one parcel more than the queue holds, so that taking them asks for no memory.
        let room = self.line.capacity().saturating_add(1);
        let Ok(left) = Vec::with_capacity(alloc, room) else {
            return Err(Refused {
                value: Unended {
                    intake: self,
                    senders,
                    taker,
                },
                fault: AllocError,
            });
        };
        Ok(take_rest(rt, &self, senders, taker, left))
    }
}
