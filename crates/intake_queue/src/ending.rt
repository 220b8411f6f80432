//! How an intake is ended: its taker takes in the senders, and then takes what is left.
ghost use Rattle.std.specs.Prelude.{◌≡◌, ◌++◌, []};
ghost use Rattle.std.specs.List.{Contains};
ghost use Rattle.crossbeam_queue.specs.Passes.{view, IsPassOf};
ghost use Rattle.intake_queue.specs.Parcel.{AreInTurn};
ghost use Rattle.intake_queue.specs.Known.{IsTaker};
ghost use Rattle.intake_queue.specs.Rule.{AreWhole};
ghost use Rattle.intake_queue.specs.Ends.{SenderData, AreSendersOf};
ghost use Rattle.intake_queue.specs.Left.{IsLeft};

use crate::intake::{Intake, Line};
use crate::parcel::Parcel;
use crate::passes::{SenderPass, TakerPass};
use crate::rule::{Ends, PassView, Takes};
use crossbeam_queue::Pass;
use named_log::LogName;
use std::sync::Wait;
use std::thread;

// Takes what is left, once no thread offers any more.
pub(crate) fn take_rest<L: LogName, R: Wait>(
    rt: &R,
    intake: &Intake<L>,
    senders: Vec<SenderPass<L>>,
    taker: TakerPass<L>,
    left: Vec<Parcel<L>>,
) -> Vec<Parcel<L>>
    requires taker { taker.intake ≡ intake.now.id }
    requires senders { AreSendersOf intake.now.id senders.items }
    requires none { left.items ≡ [] }
    ensures left { IsLeft senders.items taker.taken result.items }
    ensures in_turn { AreInTurn taker.senders (taker.taken ++ result.items) }
{
    let TakerPass { mut pass } = taker;
    gather(&intake.line, &mut pass, senders);
    drain(rt, &intake.line, &mut pass, left)
}

// The taker takes in what the senders know.
fn gather<L: LogName>(
    line: &Line<L>,
    pass: &mut Pass<Parcel<L>, PassView>,
    mut senders: Vec<SenderPass<L>>,
)
    requires own { IsPassOf line.now pass.old × AreSendersOf line.now.table.shared.table_id senders.items }
    requires taker { IsTaker (view pass.old) }
    ensures own { IsPassOf line.now pass.new }
    ensures taker { IsTaker (view pass.new) × ((view pass.new).taken ≡ (view pass.old).taken) × ((view pass.new).senders ≡ (view pass.old).senders) }
    ensures ended { (s : SenderData) → Contains senders.items s → Contains (view pass.new).ended (s.number, s.accepted) }
{
    while let Some(sender) = senders.pop() {
        let SenderPass {
            pass: other,
            number: _,
            accepted: _,
        } = sender;
        line.absorb::<Ends>(pass, other);
    }
}

// Takes until the queue was empty.
fn drain<L: LogName, R: Wait>(
    rt: &R,
    line: &Line<L>,
    pass: &mut Pass<Parcel<L>, PassView>,
    mut left: Vec<Parcel<L>>,
) -> Vec<Parcel<L>>
    requires own { IsPassOf line.now pass.old }
    requires taker { IsTaker (view pass.old) }
    requires none { left.items ≡ [] }
    ensures whole { AreWhole (view pass.old).ended (view pass.old).taken result.items }
    ensures in_turn { AreInTurn (view pass.old).senders ((view pass.old).taken ++ result.items) }
{
    for _ in rt.forever() {
        // It always has room: it was made with room for more than the queue holds. Only the type does not know that no thread
        // offers any more.
        if left.reserve(1).is_err() {
            thread::yield_now();
            continue;
        }
        match line.pop_as::<Takes, R>(rt, pass) {
            Some(parcel) => left.push_reserved(parcel),
            None => return left,
        }
    }
    unreachable!()
}
