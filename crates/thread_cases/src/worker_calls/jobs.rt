//! Runs under a gate that records its calls.
ghost use Rattle.std.specs.Prelude.{◌<◌, ◌≤◌};

use crate::Log;
use crate::worker_calls::diaries::{RecordingGate, print_calls, print_seen};
use crate::worker_calls::rounds::{NodePair, Rounds, early_at_the_first, print_nodes, work_again};
use case_io::Row;
use fleet_drill::{DrillResult, DrillSetup, MAX_NODES, open_floor, work};
use node_cell::Node;
use node_threads::Plan;
use std::alloc::{AllocError, Global};
use std::io;
use std::sync::Wait;
use std::thread::Threads;

// Lists of rounds, one for each worker.
fn lists(alloc: Global, workers: &[&[NodePair]]) -> Result<Vec<Vec<NodePair>>, AllocError> {
    let mut lists = Vec::with_capacity(alloc, workers.len())?;
    for rounds in workers {
        lists.push(rounds.to_vec(alloc)?)?;
    }
    Ok(lists)
}

/// The setup of a drill of so many nodes to which three facts each are dealt.
pub fn small_floor(alloc: Global, nodes: usize) -> Result<DrillSetup<Log>, AllocError>
    requires { (0 < nodes) × (nodes ≤ MAX_NODES) }
{
    open_floor(alloc, nodes, nodes, 3 * nodes, 3)
}

/// Prints the calls of the gate of a run, by workers, and what was refused. Four nodes have a feed and an inlet each. One drainer takes
/// nothing, and some rounds name no node.
pub fn print_jobs<R: Threads + Wait + Sync>(rt: &R, row: &Row) -> io::Result<()> {
    let setup = small_floor(row.alloc, 4)?;
    let plan = jobs_plan(row.alloc)?;
    let diary = RecordingGate::open(rt, row.alloc, None)?;
    let worked = work(rt, row.alloc, setup, plan, &diary)?;
    let calls = diary.into_calls();
    print_calls(row, calls.as_slice(), 11)?;
    row.one("Refused", &worked.refusals)
}

// Three drainers, two folders and a gossiper.
fn jobs_plan(alloc: Global) -> Result<Plan, AllocError> {
    let folds: [&[NodePair]; 2] = [
        &[(1, 0), (1, 1), (2, 0), (1, 2), (1, 3), (1, 4)],
        &[(7, 0), (7, 1), (2, 3), (0, 3), (2, 4), (2, 5)],
    ];
    let gossip: [&[NodePair]; 1] = [&[(2, 1), (1, 2), (1, 9), (9, 1), (2, 1)]];
    let parcels = [3, 2, 1].to_vec(alloc)?;
    let folds = lists(alloc, &folds)?;
    let gossip = lists(alloc, &gossip)?;
    Ok(Plan {
        parcels,
        folds,
        gossip,
    })
}

/// Prints each call of the gate of two runs, how many keys a node had then, and the refusals: the second node asks the first, which
/// has the early facts, and then the first folds all its pages. Prints what the nodes have in the end.
pub fn print_rounds<R: Threads + Wait + Sync>(rt: &R, row: &Row) -> io::Result<()> {
    let ask = Rounds {
        folds: &[],
        gossip: &[(2, 1)],
    };
    let fold = Rounds {
        folds: &[
            (1, 0),
            (1, 1),
            (1, 2),
            (1, 3),
            (1, 4),
            (1, 5),
            (1, 6),
            (1, 7),
        ],
        gossip: &[],
    };
    let worked = early_at_the_first(rt, row.alloc, 2)?;
    let (first, second) = (worked.nodes.get(0), worked.nodes.get(1));
    let asked = print_run(rt, row, &worked, second, &ask)?;
    let folded = print_run(rt, row, &worked, first, &fold)?;
    print_nodes(rt, row, worked, asked.saturating_add(folded))
}

// One folder and one gossiper run these rounds, and a node is watched. Returns how many rounds were refused.
fn print_run<R: Threads + Wait + Sync>(
    rt: &R,
    row: &Row,
    worked: &DrillResult<Log>,
    watched: Option<&Node<Log>>,
    rounds: &Rounds<'_>,
) -> io::Result<usize> {
    let diary = RecordingGate::open(rt, row.alloc, watched)?;
    let refusals = work_again(rt, row.alloc, worked, rounds, &diary)?;
    let calls = diary.into_calls();
    print_seen(row, calls.as_slice())?;
    row.one("Refusals", &refusals)?;
    Ok(refusals.len())
}
