ghost use Rattle.std.specs.Prelude.{ℕ, List};
ghost use Rattle.node_lock.specs.Trail.{Entry};

use atomic_table::{Join, Play, Seat, Shared, Split, Table, TableRule};
use std::alloc::Global;
use std::collections::LinkedList;
use std::marker::PhantomData;

/// A state with a trail, whose type keeps a property and says what no holder may lose of it.
pub trait Trailed {
    /// The entries, in order: of each the number of the pass that appended it, and its place in the log.
    ghost trail: { Self → List Entry };

    /// What the type keeps of each of its values.
    ghost keeps: { Self → Type 0 };

    /// The second state has all that the first one has. Each holder proves it of the state that it found and the one that it gives back.
    ghost retains: { Self → Self → Type 0 };

    /// With the next law: what any holder finds retains what each earlier one found.
    ghost reflexive: { (s : Self) → retains s s };

    ghost transitive: { (a b c : Self) → retains a b → retains b c → retains a c };
}

/// What a seat of the lock knows. No value of it is made.
pub struct SeatView {
    /// How many passes the lock has.
    pub passes: u64,
    /// The passes that the seat represents, each with its receipts.
    pub parts: LinkedList<(u64, LinkedList<(u64, u64)>)>,
    /// It holds the slot.
    pub holds: bool,
    /// The trail of the state that it took.
    pub noted: LinkedList<(u64, u64)>,
}

/// One word and one slot with the state. The word is 0 exactly where no seat holds the slot.
pub struct OneHolder<S> {
    of: PhantomData<S>,
}

impl<S: Trailed> TableRule<Option<S>, SeatView, u64> for OneHolder<S> {
    ghost use Rattle.node_lock.specs.Known.{standing_for, new_parts};
    ghost use Rattle.node_lock.specs.Rule.{KeepsLockRule};

    ghost holds = { λ passes. KeepsLockRule S.trail S.keeps passes };

    ghost first = { λ passes. standing_for passes (new_parts 0 passes) };
}

pub(crate) type StateTable<S> = Table<Option<S>, SeatView, u64, OneHolder<S>, Global>;

pub(crate) type Steps<S> = Shared<Option<S>, SeatView, u64, OneHolder<S>>;

pub(crate) type Token<S> = Seat<Option<S>, SeatView>;

pub(crate) struct Seats;

impl<S: Trailed> Play<Option<S>, SeatView> for Seats {
    ghost use Rattle.node_lock.specs.Steps.{IsSeated};

    ghost then = { IsSeated S.trail S.keeps };
}

pub(crate) struct Takes;

impl<S: Trailed> Play<Option<S>, SeatView> for Takes {
    ghost use Rattle.node_lock.specs.Steps.{TakesState};

    ghost then = { TakesState S.trail S.keeps };
}

pub(crate) struct Gives;

impl<S: Trailed> Play<Option<S>, SeatView> for Gives {
    ghost use Rattle.node_lock.specs.Steps.{IsGiven};

    ghost then = { IsGiven S.trail S.keeps };
}

pub(crate) struct Posts;

impl<S: Trailed> Play<Option<S>, SeatView> for Posts {
    ghost use Rattle.node_lock.specs.Steps.{IsPosted};

    ghost then = { IsPosted S.trail S.keeps };
}

/// The first pass of a seat goes to a new one.
pub(crate) struct DealsFirst;

impl Split<SeatView> for DealsFirst {
    ghost use Rattle.node_lock.specs.Known.{standing_for, first_part, rest_parts};

    ghost left = { λ v. standing_for v.passes (rest_parts v.parts) };

    ghost right = { λ v. standing_for v.passes (first_part v.parts) };
}

/// One seat for the passes of both.
pub(crate) struct StandsForBoth;

impl Join<SeatView> for StandsForBoth {
    ghost use Rattle.std.specs.Prelude.{◌++◌, []};
    ghost use Rattle.node_lock.specs.Known.{standing_for};

    ghost both = { λ v w. standing_for v.passes (v.parts ++ w.parts) };

    ghost spent = { standing_for 0 [] };
}
