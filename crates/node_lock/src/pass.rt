ghost use Rattle.std.specs.Prelude.{◌≡◌, ◌<◌, List, [], ◌∷◌, ◌++◌, length, Some, None};
ghost use Rattle.node_lock.specs.Trail.{Entry, receipts_of, HasReceipts};
ghost use Rattle.node_lock.specs.Passes.{IsIdlePass};

use crate::rule::{Steps, Token, Trailed};
use crate::sleepers::Sleepers;
use crate::steps;
use std::marker::Model;
use std::sync::Wait;

/// The right to append to the trail of a lock, under the pass's number. Contracts see its receipts: of each the place in the trail,
/// from 1, and the place in the log.
#[derive(Drop)]
pub struct Pass<S> {
    pub(crate) seat: Token<S>,
    pub(crate) number: u64,
}

impl<S> Model for Pass<S> {
    ghost use Rattle.std.specs.Prelude.{◌≡◌, [], ◌∷◌};
    ghost use Rattle.node_lock.specs.Passes.{PassData};
    ghost use Rattle.node_lock.specs.Known.{list_in, out_of, carried};

    ghost Value = { PassData };

    ghost view = { λ p. record {
      lock = p.seat.table_id;
      number = p.number;
      list = list_in p.seat.me.0.parts;
      out = out_of p.seat.me.0.holds p.seat.me.0.noted;
    } };

    ghost invariant = { λ p. (p.seat.me.0.parts ≡ (p.number, list_in p.seat.me.0.parts) ∷ []) × (p.seat.me.1 ≡ carried p.seat.me.0.holds) };
}

impl<S> Pass<S> {
    /// Passes are numbered from 0.
    pub fn number(&self) -> u64
        ensures { result ≡ self.now.number }
    {
        self.number
    }
}

impl<S: Trailed + Drop> Pass<S> {
    // Takes the state, as soon as nobody else has it.
    pub(crate) fn take<R: Wait>(&mut self, rt: &R, steps: &Steps<S>, sleepers: &Sleepers) -> S
        requires words { 0 < steps.now.table_id.words }
        requires idle { IsIdlePass steps.now.table_id self.old }
        ensures pass { self.new ≡ record self.old { out = Some (S.trail result) } }
        ensures state { S.keeps result }
        ensures list { self.old.list ≡ receipts_of self.old.number (S.trail result) }
        ensures has { HasReceipts (S.trail result) self.old.number self.old.list }
    {
        steps::take(rt, steps, sleepers, &mut self.seat)
    }

    // Gives the state back, with the trail that it had.
    pub(crate) fn give(&mut self, steps: &Steps<S>, sleepers: &Sleepers, state: S)
        requires words { 0 < steps.now.table_id.words }
        requires own { self.old.lock ≡ steps.now.table_id }
        requires trail { self.old.out ≡ Some (S.trail state) }
        requires state { S.keeps state }
        ensures { self.new ≡ record self.old { out = None } }
    {
        steps::give(steps, sleepers, &mut self.seat, state);
    }

    // Gives the state back, where the pass has appended an entry.
    pub(crate) fn post(&mut self, steps: &Steps<S>, sleepers: &Sleepers, state: S, log_place: u64)
        requires words { 0 < steps.now.table_id.words }
        requires own { self.old.lock ≡ steps.now.table_id }
        requires trail { (trail : List Entry) × (self.old.out ≡ Some trail) × (S.trail state ≡ trail ++ (self.old.number, log_place) ∷ []) }
        requires state { S.keeps state }
        ensures { self.new ≡ record self.old { list = self.old.list ++ (length (S.trail state), log_place) ∷ []; out = None } }
    {
        let number = self.number;
        steps::post(steps, sleepers, &mut self.seat, state, number, log_place);
    }
}
