ghost use Rattle.std.specs.Prelude.{◌≡◌, ◌<◌, []};
ghost use Rattle.node_lock.specs.Known.{standing_for};
ghost use Rattle.node_lock.specs.Steps.{IsHolding};

use crate::rule::{Steps, Token, Trailed};
use crate::sleepers::Sleepers;
use crate::steps;
use std::sync::Wait;

// A seat without a pass that has the slot. It is not `Drop`, in this crate either: only `give` takes it apart.
pub(crate) struct Held<S> {
    seat: Token<S>,
    ghost holds: { IsHolding seat.me seat.me.0.noted },
}

impl<S: Trailed + Drop> Held<S> {
    pub(crate) fn new(seat: Token<S>) -> Held<S>
        requires { IsHolding seat.me seat.me.0.noted }
        ensures { result.seat ≡ seat }
    {
        Held { seat }
    }

    // The seat that gave the state back, with the trail that it had.
    pub(crate) fn give(self, steps: &Steps<S>, sleepers: &Sleepers, state: S) -> Token<S>
        requires table { (self.seat.table_id ≡ steps.now.table_id) × (0 < steps.now.table_id.words) }
        requires trail { self.seat.me.0.noted ≡ S.trail state }
        requires state { S.keeps state }
        ensures { result.me ≡ (standing_for self.seat.me.0.passes self.seat.me.0.parts, []) }
    {
        let Held { mut seat } = self;
        steps::give(steps, sleepers, &mut seat, state);
        seat
    }
}
