//! A caller that relies on the contracts alone: facts through an intake of one sender.
ghost use Rattle.std.specs.Prelude.{◌≡◌, ◌+◌, ◌<◌, ◌≤◌, ◌^◌, ◌∷◌, ◌++◌, [], length, vec_capacity, IfOk, IfSome, OnOk};
ghost use Rattle.intake_queue.specs.Parcel.{parcel_facts, AreInTurn};

use crate::common::only;
use crate::intake_calls::lane::left_at_end;
use intake_queue::{Intake, MAX_CAPACITY, Parcel, SenderPass, TakerPass};
use named_log::{LogFact, LogName};
use std::alloc::{AllocError, Global};
use std::sync::Wait;

/// An intake with its only sender, its taker, and all that was taken; the number of parcels to be taken, and how many may be.
#[derive(Drop)]
struct Relay<L: LogName> {
    intake: Intake<L>,
    sender: SenderPass<L>,
    taker: TakerPass<L>,
    got: Vec<Parcel<L>>,
    waiting: usize,
    capacity: usize,
    ghost own: { (sender.intake ≡ intake.id) × (taker.intake ≡ intake.id) },
    ghost only: { (sender.number ≡ 1) × (sender.senders ≡ 1) × (taker.senders ≡ 1) },
    ghost room: { (1 ≤ capacity) × (capacity ≡ intake.capacity) × (waiting ≤ capacity) },
    ghost waits: { length sender.accepted ≡ length taker.taken + waiting },
    ghost all: { got.items ≡ taker.taken },
    ghost in_turn: { AreInTurn 1 taker.taken },
}

impl<L: LogName> Relay<L> {
    fn open(alloc: Global, capacity: usize) -> Result<Relay<L>, AllocError>
        requires { (1 ≤ capacity) × (capacity ≤ MAX_CAPACITY) }
        ensures { IfOk result (λ r. r.sender.accepted ≡ []) }
    {
        let (intake, senders, taker) = Intake::<L>::open(alloc, 1, capacity)?;
        let sender = only(senders);
        Ok(Relay {
            intake,
            sender,
            taker,
            got: Vec::new(alloc),
            waiting: 0,
            capacity,
        })
    }

    // Takes one: the taker was notified of a parcel that it has not taken, so it finds one.
    fn take<R: Wait>(&mut self, rt: &R) -> Result<(), AllocError>
        requires { 0 < self.old.waiting }
        ensures sender { self.new.sender ≡ self.old.sender }
        ensures waiting { OnOk result (self.new.waiting < self.new.capacity) }
    {
        self.got.reserve(1)?;
        let note = self.intake.note_of_sender(&mut self.sender);
        self.intake.notify_taker(&mut self.taker, note);
        match self.intake.take_next(rt, &mut self.taker) {
            Some(parcel) => self.got.push_reserved(parcel),
            None => unreachable!(),
        }
        self.waiting -= 1;
        Ok(())
    }

    // Offers the fact: the sender was notified that there is room, so it is accepted.
    fn put<R: Wait>(&mut self, rt: &R, fact: LogFact<L>)
        requires room { self.old.waiting < self.old.capacity }
        requires numbers { length self.old.sender.accepted + 1 < 2 ^ 64 }
        ensures { parcel_facts self.new.sender.accepted ≡ parcel_facts self.old.sender.accepted ++ fact ∷ [] }
    {
        let note = self.intake.note_of_taker(&mut self.taker);
        self.intake.tell_sender(&mut self.sender, note);
        let Ok(parcel) = self.sender.parcel(fact) else {
            unreachable!()
        };
        match self.intake.offer(rt, &mut self.sender, parcel) {
            Ok(()) => self.waiting += 1,
            Err(_) => unreachable!(),
        }
    }

    // Offers facts, in order, and takes one each time that the intake is full.
    fn put_all<R: Wait>(&mut self, rt: &R, facts: Vec<LogFact<L>>) -> Result<(), AllocError>
        requires none { self.old.sender.accepted ≡ [] }
        ensures { OnOk result (parcel_facts self.new.sender.accepted ≡ facts.items) }
    {
        for fact in facts {
            self.put(rt, fact);
            if self.waiting == self.capacity {
                self.take(rt)?;
            }
        }
        Ok(())
    }

    // All that was accepted, in order. The sender goes into an empty list.
    fn finish<R: Wait>(
        self,
        rt: &R,
        alloc: Global,
        mut senders: Vec<SenderPass<L>>,
    ) -> Result<Vec<Parcel<L>>, AllocError>
        requires { (senders.items ≡ []) × (0 < vec_capacity senders) }
        ensures { IfOk result (λ all. all.items ≡ self.sender.accepted) }
    {
        let Relay {
            intake,
            sender,
            taker,
            mut got,
            waiting: _,
            capacity: _,
        } = self;
        senders.push_reserved(sender);
        let mut left = left_at_end(rt, alloc, intake, senders, taker)?;
        got.append(&mut left)?;
        Ok(got)
    }
}

/// Offers facts to an intake and takes them where it is full; the taken parcels and the remaining ones are the facts, in order.
pub fn pass_through<L: LogName, R: Wait>(
    rt: &R,
    alloc: Global,
    capacity: usize,
    facts: Vec<LogFact<L>>,
) -> Result<Vec<Parcel<L>>, AllocError>
    requires { (1 ≤ capacity) × (capacity ≤ MAX_CAPACITY) }
    ensures { IfOk result (λ all. parcel_facts all.items ≡ facts.items) }
{
    let room = Vec::with_capacity(alloc, 1)?;
    let mut relay = Relay::open(alloc, capacity)?;
    relay.put_all(rt, facts)?;
    relay.finish(rt, alloc, room)
}
