ghost use Rattle.std.specs.Prelude.{◌≡◌, ℕ, ◌<◌, ◌^◌, [], All, length, IfOk, IfErr, Some, slice_get, vec_capacity};
ghost use Rattle.node_threads.specs.Each.{Each};
ghost use Rattle.node_threads.specs.Refusals.{AllStarted};
ghost use Rattle.front_board.specs.Seat.{IsNode};
ghost use Rattle.node_cell.specs.Node.{IsPassOf};
ghost use Rattle.node_threads.specs.Work.{Offered, IsDone, Names, NamesItem, Answered, count_of};

use crate::context::context_of;
use crate::drain::DeliverResult;
use crate::feed::Feed;
use crate::gate::Gate;
use crate::inlet::{Halves, Inlet, Room, Whole, assemble, rejoin, split};
use crate::refusal::WorkerRefusal;
use crate::run::{Parts, run_in_scope};
use crate::stop::StopSignal;
use front_board::Board;
use named_log::LogName;
use node_cell::Node;
use redo_core::Refused;
use std::alloc::{AllocError, Global};
use std::sync::{OnceLock, Wait};
use std::thread::Threads;

/// What the workers do: how many parcels each drainer takes, and the rounds of each folder and each gossiper, by nodes from 1.
#[derive(Drop)]
pub struct Plan {
    pub parcels: Vec<u64>,
    pub folds: Vec<Vec<(u16, u16)>>,
    pub gossip: Vec<Vec<(u16, u16)>>,
}

/// What `serve` borrows: the nodes, the board of their fronts, and the gate of the workers' jobs.
#[derive_where(Clone, Copy)]
pub struct Shared<'a, L: LogName, G> {
    pub nodes: &'a [Node<L>],
    pub board: &'a Board<L>,
    pub gate: &'a G,
}

/// What `serve` owns until it returns.
#[derive(Drop)]
pub struct ServeInput<L: LogName> {
    pub feeds: Vec<Feed<L>>,
    pub inlets: Vec<Inlet<L>>,
    pub plan: Plan,
}

/// What `serve` gives back: the feeds and inlets in the order given, each with none where its worker could not be started; the
/// answers of each inlet, in the order taken; and what was refused.
#[derive(Drop)]
pub struct Served<L: LogName> {
    pub feeds: Vec<Option<Feed<L>>>,
    pub inlets: Vec<Option<Inlet<L>>>,
    pub answers: Vec<Vec<DeliverResult<L>>>,
    pub refusals: Vec<WorkerRefusal>,
}

// Lists with room for the parts of the inlets, and for the inlets that come back.
#[derive(Drop)]
struct Space<L: LogName> {
    rooms: Vec<Room<L>>,
    halves: Halves<L>,
    whole: Whole<L>,
    back: Vec<Inlet<L>>,
    ghost none: { (halves.intakes.items ≡ []) × (halves.holds.items ≡ []) × (whole.inlets.items ≡ []) × (whole.answers.items ≡ []) × (back.items ≡ []) },
}

fn make_space<L: LogName>(
    alloc: Global,
    parcels: &[u64],
    count: usize,
) -> Result<Space<L>, AllocError>
    ensures room { IfOk result (λ s. (vec_capacity s.halves.intakes ≡ count) × (vec_capacity s.halves.holds ≡ count) × (vec_capacity s.whole.inlets ≡ count) × (vec_capacity s.whole.answers ≡ count) × (vec_capacity s.back ≡ count)) }
    ensures rooms { IfOk result (λ s. (length s.rooms.items ≡ count) × ((k : ℕ) (r : _) → slice_get s.rooms.items k ≡ Some r → r.count ≡ count_of parcels.now k)) }
{
    Ok(Space {
        rooms: make_answer_rooms(alloc, parcels, count)?,
        halves: Halves {
            intakes: Vec::with_capacity(alloc, count)?,
            holds: Vec::with_capacity(alloc, count)?,
        },
        whole: Whole {
            inlets: Vec::with_capacity(alloc, count)?,
            answers: Vec::with_capacity(alloc, count)?,
        },
        back: Vec::with_capacity(alloc, count)?,
    })
}

// For each inlet room for the answers to its parcels.
fn make_answer_rooms<L: LogName>(
    alloc: Global,
    parcels: &[u64],
    count: usize,
) -> Result<Vec<Room<L>>, AllocError>
    ensures { IfOk result (λ rooms. (length rooms.items ≡ count) × ((k : ℕ) (r : _) → slice_get rooms.items k ≡ Some r → r.count ≡ count_of parcels.now k)) }
{
    let mut rooms = Vec::with_capacity(alloc, count)?;
    for index in 0..count {
        rooms.push(room_of(alloc, parcels_of(parcels, index))?)?;
    }
    Ok(rooms)
}

fn room_of<L: LogName>(alloc: Global, count: u64) -> Result<Room<L>, AllocError>
    ensures { IfOk result (λ r. r.count ≡ count) }
{
    let answers = Vec::with_capacity(alloc, count as usize)?;
    Ok(Room { count, answers })
}

// The number of parcels that a plan gives the drainer of an inlet, from 0.
fn parcels_of(parcels: &[u64], index: usize) -> u64
    ensures { result ≡ count_of parcels.now index }
{
    match parcels.get(index) {
        Some(count) => *count,
        None => 0,
    }
}

/// Runs a feeder for each feed, a drainer for each inlet, and a folder and a gossiper for each list of the plan. The only
/// error is lack of memory, before the first start.
pub fn serve<'s, L: LogName + Send + Sync, G: Gate + Sync, R: Threads + Wait + Sync>(
    rt: &'s R,
    alloc: Global,
    shared: &Shared<'s, L, G>,
    input: ServeInput<L>,
) -> Result<Served<L>, Refused<ServeInput<L>, AllocError>>
    requires feeds { (k : ℕ) (f : _) (i : _) → slice_get input.feeds.items k ≡ Some f → NamesItem f.inlet input.inlets.items i → f.sender.intake ≡ i.intake.id }
    requires inlets { (k : ℕ) (i : _) → slice_get input.inlets.items k ≡ Some i → (i.taker.intake ≡ i.intake.id) × (i.seat.board ≡ shared.now.board.now) }
    requires passes { (k : ℕ) (i : _) (n : _) → slice_get input.inlets.items k ≡ Some i → NamesItem i.node shared.now.nodes.now n → IsPassOf n i.pass }
    requires nodes { All (λ n. IsNode shared.now.board.now.words n.number) shared.now.nodes.now }
    requires few { (length input.feeds.items < 2 ^ 61) × (length input.inlets.items < 2 ^ 61) }
    ensures len { IfOk result (λ r. (length r.feeds.items ≡ length input.feeds.items) × (length r.inlets.items ≡ length input.inlets.items) × (length r.answers.items ≡ length input.inlets.items)) }
    ensures feeds { IfOk result (λ r. AllStarted r.refusals.items → Each (λ k f s. (g : _) × (s ≡ Some g) × (g.inlet ≡ f.inlet) × Offered f.sender f.facts.items g.sender g.facts.items × (Names f.inlet (length input.inlets.items) → IsDone g.sender g.facts.items)) input.feeds.items r.feeds.items) }
    ensures inlets { IfOk result (λ r. AllStarted r.refusals.items → Each (λ k i s. (j : _) × (s ≡ Some j) × (j.intake ≡ i.intake) × (j.seat.board ≡ i.seat.board) × (j.node ≡ i.node) × ((a : _) → slice_get r.answers.items k ≡ Some a → Answered i.taker j.taker i.pass j.pass a.items × (Names i.node (length shared.now.nodes.now) → length a.items ≡ count_of input.plan.parcels.items k))) input.inlets.items r.inlets.items) }
    ensures err { IfErr result (λ r. (r.value.feeds ≡ input.feeds) × (r.value.inlets.items ≡ input.inlets.items) × (r.value.plan ≡ input.plan)) }
{
    let ServeInput {
        feeds,
        inlets,
        plan,
    } = input;
    let Ok(space) = make_space(alloc, plan.parcels.as_slice(), inlets.len()) else {
        return Err(no_memory(feeds, inlets, plan));
    };
    let Space {
        rooms,
        halves,
        whole,
        back,
    } = space;
    let Halves { intakes, holds } = split(inlets, rooms, halves);
    let stop: StopSignal = OnceLock::new();
    let lent = intakes.as_slice();
    let context = context_of(rt, alloc, *shared, lent, &stop);
    let ran = match run_in_scope(&context, &plan, Parts { feeds, holds }) {
        Ok(ran) => ran,
        Err(refused) => {
            let Parts { feeds, holds } = refused.value;
            let inlets = rejoin(intakes, holds, back);
            return Err(no_memory(feeds, inlets, plan));
        }
    };
    let Whole { inlets, answers } = assemble(alloc, intakes, ran.holds, whole);
    Ok(Served {
        feeds: ran.feeds,
        inlets,
        answers,
        refusals: ran.refusals,
    })
}

// All that was handed in, before the first start.
fn no_memory<L: LogName>(
    feeds: Vec<Feed<L>>,
    inlets: Vec<Inlet<L>>,
    plan: Plan,
) -> Refused<ServeInput<L>, AllocError>
    ensures { (result.value.feeds ≡ feeds) × (result.value.inlets ≡ inlets) × (result.value.plan ≡ plan) }
{
    Refused {
        value: ServeInput {
            feeds,
            inlets,
            plan,
        },
        fault: AllocError,
    }
}
