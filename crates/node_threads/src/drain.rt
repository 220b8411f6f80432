ghost use Rattle.std.specs.Prelude.{◌≡◌, ◌≢◌, ◌<◌, ◌≤◌, ◌++◌, ◌∷◌, [], length, IfSome, IfNone, MatchResult, vec_len, vec_capacity};
ghost use Rattle.front_board.specs.Seat.{IsNode};
ghost use Rattle.node_cell.specs.Node.{IsPassOf};
ghost use Rattle.node_threads.specs.Runs.{IsReady};
ghost use Rattle.node_threads.specs.Work.{Answered, Names, answered_place, receipt_in};

use crate::context::Context;
use crate::gate::{Gate, Job, Kind};
use crate::list::numbered;
use crate::stop::{StopSignal, StopToken, told};
use front_board::Seat;
use intake_queue::{Intake, Parcel, TakerPass};
use named_log::{LogFact, LogName};
use node_cell::{DeliverFault, Node, Pass, Receipt};
use redo_core::Refused;
use std::sync::Wait;
use std::thread;

/// The receipt of a parcel's fact, or the fact and why it was refused.
pub type DeliverResult<L> = Result<Receipt<L>, Refused<LogFact<L>, DeliverFault>>;

/// What a drainer owns: the ends of its inlet, how many parcels it takes, and the answers so far, with room for all.
#[derive(Drop)]
pub(crate) struct DrainerState<L: LogName> {
    pub taker: TakerPass<L>,
    pub node: usize,
    pub pass: Pass<L>,
    pub seat: Seat<L>,
    pub count: u64,
    pub answers: Vec<DeliverResult<L>>,
}

/// What a drainer brings back.
#[derive(Drop)]
pub(crate) struct DrainerResult<'s, L: LogName> {
    pub hold: DrainerState<L>,
    pub halt: Option<StopToken<'s>>,
    pub absent: bool,
}

/// Takes its number of parcels, and delivers each to the node. It ends sooner where the intake is empty and a worker could not be
/// started.
pub(crate) fn run_drainer<'s, L: LogName, G: Gate, R: Wait>(
    context: &'s Context<'s, L, G, R>,
    intake: &Intake<L>,
    worker: u64,
    mut hold: DrainerState<L>,
) -> DrainerResult<'s, L>
    requires ready { IsReady context.now.nodes.now context.now.board.now intake.now hold }
    ensures seat { result.hold.seat.board ≡ hold.seat.board }
    ensures node { result.hold.node ≡ hold.node }
    ensures answered { Answered hold.taker result.hold.taker hold.pass result.hold.pass result.hold.answers.items }
    ensures count { Names hold.node (length context.entry.now.nodes.now) → IfNone result.halt (length result.hold.answers.items ≡ hold.count) }
    ensures halt { IfSome result.halt (λ t. (t.of ≡ context.entry.now.stop.now.id) × (t.value ≢ 0)) }
{
    let Some(node) = numbered(context.nodes, hold.node) else {
        return DrainerResult {
            hold,
            halt: None,
            absent: true,
        };
    };
    let halt = drain_all(context, node, intake, worker, &mut hold);
    DrainerResult {
        hold,
        halt,
        absent: false,
    }
}

fn drain_all<'s, L: LogName, G: Gate, R: Wait>(
    context: &'s Context<'s, L, G, R>,
    node: &Node<L>,
    intake: &Intake<L>,
    worker: u64,
    hold: &mut DrainerState<L>,
) -> Option<StopToken<'s>>
    requires taker { hold.old.taker.intake ≡ intake.now.id }
    requires seat { hold.old.seat.board ≡ context.now.board.now }
    requires pass { IsPassOf node.now hold.old.pass }
    requires node { IsNode context.now.board.now.words node.now.number }
    requires none { hold.old.answers.items ≡ [] }
    requires room { hold.old.count ≤ vec_capacity hold.old.answers }
    ensures seat { hold.new.seat.board ≡ hold.old.seat.board }
    ensures node { hold.new.node ≡ hold.old.node }
    ensures answered { Answered hold.old.taker hold.new.taker hold.old.pass hold.new.pass hold.new.answers.items }
    ensures count { IfNone result (length hold.new.answers.items ≡ hold.old.count) }
    ensures halt { IfSome result (λ t. (t.of ≡ context.entry.now.stop.now.id) × (t.value ≢ 0)) }
{
    let count = hold.count;
    for before in 0..count {
        match take_waiting(context.rt, context.stop, intake, &mut hold.taker) {
            Ok(parcel) => {
                let job = Job {
                    worker,
                    kind: Kind::Deliver,
                    turn: before + 1,
                };
                context.gate.before(job);
                deliver(context, node, hold, parcel);
                context.gate.after(job);
            }
            Err(halt) => return Some(halt),
        }
    }
    None
}

// Delivers the fact of a parcel, and notes the answer.
fn deliver<L: LogName, G, R: Wait>(
    context: &Context<'_, L, G, R>,
    node: &Node<L>,
    hold: &mut DrainerState<L>,
    parcel: Parcel<L>,
)
    requires seat { hold.old.seat.board ≡ context.now.board.now }
    requires pass { IsPassOf node.now hold.old.pass }
    requires node { IsNode context.now.board.now.words node.now.number }
    requires room { vec_len hold.old.answers < vec_capacity hold.old.answers }
    ensures taker { hold.new.taker ≡ hold.old.taker }
    ensures seat { hold.new.seat.board ≡ hold.old.seat.board }
    ensures node { hold.new.node ≡ hold.old.node }
    ensures room { vec_capacity hold.new.answers ≡ vec_capacity hold.old.answers }
    ensures answer { (a : _) × (hold.new.answers.items ≡ hold.old.answers.items ++ a ∷ []) × (answered_place a ≡ parcel.fact.place) × (hold.new.pass ≡ record hold.old.pass { list = hold.old.pass.list ++ receipt_in a }) }
{
    let fact = parcel.into_fact();
    let (delivered, _) = node.deliver(
        context.rt,
        &mut hold.pass,
        context.board,
        &mut hold.seat,
        fact,
    );
    let answer = match delivered {
        Ok(ack) => Ok(ack.receipt),
        Err(refused) => Err(refused),
    };
    hold.answers.push_reserved(answer);
}

// Takes the next parcel, as soon as there is one, unless a worker could not be started.
fn take_waiting<'s, L: LogName, R: Wait>(
    rt: &R,
    stop: &'s StopSignal,
    intake: &Intake<L>,
    taker: &mut TakerPass<L>,
) -> Result<Parcel<L>, StopToken<'s>>
    requires own { taker.old.intake ≡ intake.now.id }
    ensures { MatchResult result (λ p. taker.new ≡ record taker.old { taken = taker.old.taken ++ p ∷ [] }) (λ t. (taker.new ≡ taker.old) × (t.of ≡ stop.entry.now.id) × (t.value ≢ 0)) }
{
    for _ in rt.forever() {
        if let Some(parcel) = intake.take_next(rt, taker) {
            return Ok(parcel);
        }
        if let Some(halt) = told(stop) {
            return Err(halt);
        }
        thread::yield_now();
    }
    unreachable!()
}
