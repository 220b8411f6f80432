//! The atomic steps of a seat.
ghost use Rattle.std.specs.Prelude.{◌≡◌, ℕ, ◌+◌, ◌<◌, true, false, List, [], ◌∷◌, ◌++◌, length, None, Some, suc};
ghost use Rattle.node_lock.specs.Trail.{Receipt};
ghost use Rattle.node_lock.specs.Known.{standing_for, holding, first_part, rest_parts};
ghost use Rattle.node_lock.specs.Steps.{IsIdle, IsHolding, KnowsTrail};

use crate::rule::{DealsFirst, Gives, Posts, Seats, StandsForBoth, Steps, Takes, Token, Trailed};
use crate::sleepers::Sleepers;
use std::sync::Wait;

// A seat that represents no pass.
pub(crate) fn new_seat<S: Trailed + Drop>(steps: &Steps<S>) -> Token<S>
    requires { 0 < steps.now.table_id.words }
    ensures { (result.table_id ≡ steps.now.table_id) × (result.me ≡ (standing_for steps.now.key [], [])) }
{
    steps.load_new_seat::<Seats>(0).1
}

// Takes the state, as soon as no other seat has it.
pub(crate) fn take<S: Trailed + Drop, R: Wait>(
    rt: &R,
    steps: &Steps<S>,
    sleepers: &Sleepers,
    seat: &mut Token<S>,
) -> S
    requires table { (seat.old.table_id ≡ steps.now.table_id) × (0 < steps.now.table_id.words) }
    requires idle { IsIdle seat.old.me }
    ensures seat { (seat.new.table_id ≡ seat.old.table_id)
        × (seat.new.me ≡ (holding seat.old.me.0.passes seat.old.me.0.parts (S.trail result), (0, None) ∷ [])) }
    ensures state { S.keeps result }
    ensures lists { KnowsTrail seat.old.me.0 (S.trail result) }
{
    let mut slept = false;
    for _ in rt.forever() {
        if steps.compare_exchange::<Takes>(seat, 0, 0, 1) == 0 {
            if slept {
                sleepers.ask();
            }
            return steps.exchange(seat, 0, None).unwrap();
        }
        slept = sleepers.wait(rt, steps) || slept;
    }
    unreachable!()
}

// Gives the state back, with the trail that it had.
pub(crate) fn give<S: Trailed + Drop>(
    steps: &Steps<S>,
    sleepers: &Sleepers,
    seat: &mut Token<S>,
    state: S,
)
    requires table { (seat.old.table_id ≡ steps.now.table_id) × (0 < steps.now.table_id.words) }
    requires holds { IsHolding seat.old.me (S.trail state) }
    requires state { S.keeps state }
    ensures { (seat.new.table_id ≡ seat.old.table_id) × (seat.new.me ≡ (standing_for seat.old.me.0.passes seat.old.me.0.parts, [])) }
{
    steps.exchange(seat, 0, Some(state));
    steps.swap::<Gives>(seat, 0, 0);
    sleepers.wake();
}

// Gives the state back, where the seat's one pass has appended an entry.
pub(crate) fn post<S: Trailed + Drop>(
    steps: &Steps<S>,
    sleepers: &Sleepers,
    seat: &mut Token<S>,
    state: S,
    pass: u64,
    log_place: u64,
)
    requires table { (seat.old.table_id ≡ steps.now.table_id) × (0 < steps.now.table_id.words) }
    requires holds { IsHolding seat.old.me seat.old.me.0.noted × (S.trail state ≡ seat.old.me.0.noted ++ (pass, log_place) ∷ []) }
    requires one { (list : List Receipt) × (seat.old.me.0.parts ≡ (pass, list) ∷ []) }
    requires state { S.keeps state }
    ensures table { seat.new.table_id ≡ seat.old.table_id }
    ensures list { (list : List Receipt) → seat.old.me.0.parts ≡ (pass, list) ∷ []
        → seat.new.me ≡ (standing_for seat.old.me.0.passes ((pass, list ++ (suc (length seat.old.me.0.noted), log_place) ∷ []) ∷ []), []) }
{
    steps.exchange(seat, 0, Some(state));
    steps.swap::<Posts>(seat, 0, 0);
    sleepers.wake();
}

// The first pass of the seat goes to a new one.
pub(crate) fn deal<S: Trailed + Drop>(steps: &Steps<S>, seat: &mut Token<S>) -> Token<S>
    requires table { (seat.old.table_id ≡ steps.now.table_id) × (0 < steps.now.table_id.words) }
    requires idle { IsIdle seat.old.me }
    ensures seat { (seat.new.table_id ≡ seat.old.table_id) × (seat.new.me ≡ (standing_for seat.old.me.0.passes (rest_parts seat.old.me.0.parts), [])) }
    ensures new { (result.table_id ≡ seat.old.table_id) × (result.me ≡ (standing_for seat.old.me.0.passes (first_part seat.old.me.0.parts), [])) }
{
    steps.split_seat::<DealsFirst>(seat)
}

// The seat represents the other's passes too.
pub(crate) fn join<S: Trailed + Drop>(steps: &Steps<S>, seat: &mut Token<S>, other: Token<S>)
    requires table { (seat.old.table_id ≡ steps.now.table_id) × (other.table_id ≡ steps.now.table_id) × (0 < steps.now.table_id.words) }
    requires idle { IsIdle seat.old.me × IsIdle other.me }
    ensures { (seat.new.table_id ≡ seat.old.table_id) × (seat.new.me ≡ (standing_for seat.old.me.0.passes (seat.old.me.0.parts ++ other.me.0.parts), [])) }
{
    steps.join_seat::<StandsForBoth>(seat, other);
}
