//! The rule of an intake, and its steps.
use crate::parcel::Parcel;
use crossbeam_queue::protocol::{Join, Lesson, Outcome, Protocol, Split};
use named_log::LogName;
use std::marker::Model;

/// What the holder of a pass knows. No value of it is made.
pub struct PassView;

impl Model for PassView {
    ghost use Rattle.intake_queue.specs.Known.{KnownData, nobody};

    ghost Value = { KnownData };

    ghost view = { λ _. nobody };
}

/// Of each sender, what was accepted is what was taken and then what is left.
pub struct InTurn;

impl<L: LogName> Protocol<Parcel<L>, PassView> for InTurn {
    ghost use Rattle.std.specs.Prelude.{[]};
    ghost use Rattle.intake_queue.specs.Known.{taker};
    ghost use Rattle.intake_queue.specs.Rule.{Delivers};

    ghost holds = { Delivers };

    ghost first = { taker [] 0 0 [] [] };
}

/// One sender more is to be made. No sender is made before all are counted, so that each knows how many there are.
pub(crate) struct Counts;

impl Split<PassView> for Counts {
    ghost use Rattle.std.specs.Prelude.{◌+◌};
    ghost use Rattle.intake_queue.specs.Known.{taker, nobody};

    ghost left = { λ v. taker v.taken (v.senders + 1) v.made v.ended v.accepted_counts };

    ghost right = { λ _. nobody };
}

/// The taker makes the next sender.
pub(crate) struct Opens;

impl Split<PassView> for Opens {
    ghost use Rattle.std.specs.Prelude.{◌+◌, []};
    ghost use Rattle.intake_queue.specs.Known.{taker, sender};

    ghost left = { λ v. taker v.taken v.senders (v.made + 1) v.ended v.accepted_counts };

    ghost right = { λ v. sender (v.made + 1) v.senders [] 0 };
}

/// The taker takes in a sender that has ended.
pub(crate) struct Ends;

impl Join<PassView> for Ends {
    ghost use Rattle.std.specs.Prelude.{◌++◌, ◌∷◌, []};
    ghost use Rattle.intake_queue.specs.Known.{taker, nobody};

    ghost both = { λ v w. taker v.taken v.senders v.made (v.ended ++ (w.number, w.accepted) ∷ []) v.accepted_counts };

    ghost spent = { nobody };
}

/// A sender notes how many of its parcels were accepted.
pub(crate) struct SenderNotes;

impl Split<PassView> for SenderNotes {
    ghost use Rattle.std.specs.Prelude.{◌∷◌, [], length};
    ghost use Rattle.intake_queue.specs.Known.{note};

    ghost left = { λ v. v };

    ghost right = { λ v. note ((v.number, length v.accepted) ∷ []) 0 };
}

/// The taker notes how many parcels it took.
pub(crate) struct TakerNotes;

impl Split<PassView> for TakerNotes {
    ghost use Rattle.std.specs.Prelude.{[], length};
    ghost use Rattle.intake_queue.specs.Known.{note};

    ghost left = { λ v. v };

    ghost right = { λ v. note [] (length v.taken) };
}

pub(crate) struct TakerHears;

impl Join<PassView> for TakerHears {
    ghost use Rattle.std.specs.Prelude.{◌++◌};
    ghost use Rattle.intake_queue.specs.Known.{taker, nobody};

    ghost both = { λ v w. taker v.taken v.senders v.made v.ended (v.accepted_counts ++ w.accepted_counts) };

    ghost spent = { nobody };
}

pub(crate) struct SenderHears;

impl Join<PassView> for SenderHears {
    ghost use Rattle.std.specs.Prelude.{max};
    ghost use Rattle.intake_queue.specs.Known.{sender, nobody};

    ghost both = { λ v w. sender v.number v.senders v.accepted (max v.taken_count w.taken_count) };

    ghost spent = { nobody };
}

pub(crate) struct Offers;

impl<L: LogName> Outcome<Parcel<L>, PassView> for Offers {
    ghost use Rattle.std.specs.Prelude.{◌≡◌};
    ghost use Rattle.intake_queue.specs.Rule.{after_offer};

    ghost then = { λ v x w. w ≡ after_offer v x };
}

impl<L: LogName> Lesson<Parcel<L>, PassView> for Offers {
    ghost use Rattle.intake_queue.specs.Rule.{HoldsOwn};

    ghost fact = { HoldsOwn };
}

pub(crate) struct Takes;

impl<L: LogName> Outcome<Parcel<L>, PassView> for Takes {
    ghost use Rattle.intake_queue.specs.Rule.{IsTake};

    ghost then = { IsTake };
}

impl<L: LogName> Lesson<Parcel<L>, PassView> for Takes {
    ghost use Rattle.intake_queue.specs.Rule.{HoldsUntaken};

    ghost fact = { HoldsUntaken };
}
