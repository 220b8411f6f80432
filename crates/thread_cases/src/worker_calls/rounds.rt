ghost use Rattle.std.specs.Prelude.{◌<◌, ◌≤◌};

use crate::Log;
use case_io::Row;
use fleet_drill::{DrillResult, Open, close_all, join_all, open_floor, tell, work};
use node_cell::Closed;
use node_threads::{Gate, Plan, ServeInput, Shared, WorkerRefusal, serve};
use segment_core::Segment;
use std::alloc::{AllocError, Global};
use std::io;
use std::sync::Wait;
use std::thread::Threads;

// The number of the early facts: the first epoch's records and the advance.
const EARLY: usize = 65;

/// A node and a page to fold, or the node that asks and the one that answers.
pub type NodePair = (u16, u16);

// One worker, with these rounds.
fn one_worker(alloc: Global, rounds: &[NodePair]) -> Result<Vec<Vec<NodePair>>, AllocError> {
    let mut workers = Vec::new(alloc);
    workers.push(rounds.to_vec(alloc)?)?;
    Ok(workers)
}

// A plan in which each inlet takes so many parcels, and there is one folder and one gossiper with these rounds.
fn plan_of(
    alloc: Global,
    parcels: &[u64],
    folds: &[NodePair],
    gossip: &[NodePair],
) -> Result<Plan, AllocError> {
    let folds = one_worker(alloc, folds)?;
    let gossip = one_worker(alloc, gossip)?;
    let parcels = parcels.to_vec(alloc)?;
    Ok(Plan {
        parcels,
        folds,
        gossip,
    })
}

/// The rounds of one folder and one gossiper.
#[derive(Clone, Copy)]
pub struct Rounds<'r> {
    pub folds: &'r [NodePair],
    pub gossip: &'r [NodePair],
}

/// One folder and one gossiper run these rounds under a gate, at nodes that have worked. Returns the refusals.
pub fn work_again<G: Gate + Sync, R: Threads + Wait + Sync>(
    rt: &R,
    alloc: Global,
    worked: &DrillResult<Log>,
    rounds: &Rounds<'_>,
    gate: &G,
) -> Result<Vec<WorkerRefusal>, AllocError> {
    let plan = plan_of(alloc, &[0], rounds.folds, rounds.gossip)?;
    let shared = Shared {
        nodes: worked.nodes.as_slice(),
        board: &worked.board,
        gate,
    };
    let input = ServeInput {
        feeds: Vec::new(alloc),
        inlets: Vec::new(alloc),
        plan,
    };
    match serve(rt, alloc, &shared, input) {
        Ok(served) => Ok(served.refusals),
        Err(_) => Err(AllocError),
    }
}

// One node or two that have taken so many parcels each; the early facts are dealt to so many nodes in turn.
fn early<R: Threads + Wait + Sync>(
    rt: &R,
    alloc: Global,
    nodes: usize,
    dealt: usize,
    parcels: &[u64],
) -> Result<DrillResult<Log>, AllocError>
    requires nodes { (0 < nodes) × (nodes ≤ 2) }
    requires dealt { 0 < dealt }
{
    let plan = plan_of(alloc, parcels, &[], &[])?;
    let floor = open_floor(alloc, nodes, dealt, EARLY, EARLY as u64)?;
    work(rt, alloc, floor, plan, &Open)
}

/// One node or two, of which the first has the early facts.
pub fn early_at_the_first<R: Threads + Wait + Sync>(
    rt: &R,
    alloc: Global,
    nodes: usize,
) -> Result<DrillResult<Log>, AllocError>
    requires { (0 < nodes) × (nodes ≤ 2) }
{
    early(rt, alloc, nodes, 1, &[EARLY as u64])
}

/// The second node asks the first, and then the first folds its first page.
pub fn exchange_and_fold<R: Threads + Wait + Sync>(rt: &R, row: &Row) -> io::Result<()> {
    let worked = early_at_the_first(rt, row.alloc, 2)?;
    let refused = ask_and_fold(rt, row.alloc, &worked)?;
    print_nodes(rt, row, worked, refused)
}

// How many of the two rounds were refused.
fn ask_and_fold<R: Threads + Wait + Sync>(
    rt: &R,
    alloc: Global,
    worked: &DrillResult<Log>,
) -> Result<usize, AllocError> {
    let ask = Rounds {
        folds: &[],
        gossip: &[(2, 1)],
    };
    let fold = Rounds {
        folds: &[(1, 0)],
        gossip: &[],
    };
    let asked = work_again(rt, alloc, worked, &ask, &Open)?;
    let folded = work_again(rt, alloc, worked, &fold, &Open)?;
    Ok(asked.len() + folded.len())
}

/// Rounds that name no node: each is refused by name, and the others are run.
pub fn strangers<R: Threads + Wait + Sync>(rt: &R, row: &Row) -> io::Result<()> {
    let worked = early_at_the_first(rt, row.alloc, 2)?;
    let refused = name_strangers(rt, row, &worked)?;
    print_nodes(rt, row, worked, refused)
}

// Prints each refusal, and returns how many there are.
fn name_strangers<R: Threads + Wait + Sync>(
    rt: &R,
    row: &Row,
    worked: &DrillResult<Log>,
) -> io::Result<usize> {
    let rounds = Rounds {
        folds: &[(0, 0), (3, 0), (1, 0)],
        gossip: &[(1, 3), (0, 1), (2, 1)],
    };
    let refusals = work_again(rt, row.alloc, worked, &rounds, &Open)?;
    row.one("Strangers", &refusals)?;
    Ok(refusals.len())
}

/// Closes the nodes, and prints how many rounds were refused, and what the nodes have.
pub fn print_nodes<R: Wait>(
    rt: &R,
    row: &Row,
    worked: DrillResult<Log>,
    refused: usize,
) -> io::Result<()> {
    let closed = close_all(rt, row.alloc, worked)?;
    row.one("Refused", &refused)?;
    print_fronts(row, closed.as_slice())
}

// Prints the front of each node: the epoch, the complete point and the minimum read point; and the base point of the first and how many
// keys it stores.
fn print_fronts(row: &Row, closed: &[Closed<Log>]) -> io::Result<()> {
    for node in closed {
        let front = node.segment().front();
        row.parts("Front", &(front.epoch, front.complete, front.min))?;
    }
    match closed.first() {
        Some(first) => print_stored(row, first.segment()),
        None => row.unknown(),
    }
}

fn print_stored(row: &Row, segment: &Segment) -> io::Result<()> {
    let keys = segment.stored()?.len();
    row.parts("Stored", &(segment.base_point(), keys))
}

/// Prints what two nodes have that share two thirds of the early facts and never exchange a message, each by itself, the second first.
pub fn apart<R: Threads + Wait + Sync>(rt: &R, row: &Row) -> io::Result<()> {
    let worked = early(rt, row.alloc, 2, 3, &[22, 22])?;
    let closed = close_all(rt, row.alloc, worked)?;
    print_alone(row, closed.as_slice())
}

fn print_alone(row: &Row, closed: &[Closed<Log>]) -> io::Result<()> {
    let mut alone = Vec::new(row.alloc);
    for one in closed.chunks(1) {
        alone.append(&mut join_all(row.alloc, one)?)?;
    }
    alone.as_mut_slice().reverse();
    let text = tell(row.alloc, EARLY, alone.as_slice())?;
    row.lines(text.as_str())
}
