ghost use Rattle.std.specs.Prelude.{◌<◌, ◌≤◌};

use crate::Log;
use crate::worker_calls::FACTS;
use case_io::Row;
use fleet_drill::{
    DrillResult, DrillSetup, MAX_NODES, close_all, join_all, make_plan, open_floor, tell, work,
};
use node_cell::Closed;
use node_threads::{DeliverResult, Gate, Plan};
use std::alloc::{AllocError, Global};
use std::io;
use std::sync::Wait;
use std::thread::Threads;

/// The setup of a drill of so many nodes with trails of at most so many entries, and the plan of so many workers.
pub fn planned(
    alloc: Global,
    nodes: usize,
    workers: usize,
    trail: u64,
) -> Result<(DrillSetup<Log>, Plan), AllocError>
    requires nodes { (0 < nodes) × (nodes ≤ MAX_NODES) }
    requires workers { 0 < workers }
{
    let floor = open_floor(alloc, nodes, nodes, FACTS as usize, trail)?;
    let plan = make_plan(alloc, floor.feeds.as_slice(), nodes as u16, workers)?;
    Ok((floor, plan))
}

/// Prints the plan of a drill: the parcels of each drainer, and the rounds of each folder and each gossiper.
pub fn print_plan(row: &Row, nodes: usize, workers: usize) -> io::Result<()>
    requires nodes { (0 < nodes) × (nodes ≤ MAX_NODES) }
    requires workers { 0 < workers }
{
    let (_, plan) = planned(row.alloc, nodes, workers, FACTS)?;
    row.one("Parcels", &plan.parcels)?;
    row.one("Folds", &plan.folds)?;
    row.one("Gossip", &plan.gossip)
}

/// Prints the results of a drill under a gate: how much was refused, and the drill's text for all nodes joined.
pub fn print_ends<G: Gate + Sync, R: Threads + Wait + Sync>(
    rt: &R,
    row: &Row,
    floor: DrillSetup<Log>,
    plan: Plan,
    gate: &G,
) -> io::Result<()> {
    let worked = work(rt, row.alloc, floor, plan, gate)?;
    print_refused(row, &worked)?;
    let closed = close_all(rt, row.alloc, worked)?;
    print_told(row, closed.as_slice())
}

// Prints how many rounds were refused, and how many parcels of each node.
fn print_refused(row: &Row, worked: &DrillResult<Log>) -> io::Result<()> {
    let mut parcels = Vec::new(row.alloc);
    for answers in worked.answers.as_slice() {
        parcels.push(refused_of(answers.as_slice()))?;
    }
    row.parts("Refused", &(worked.refusals.len(), parcels))
}

fn refused_of(answers: &[DeliverResult<Log>]) -> usize {
    let mut refused = 0usize;
    for answer in answers {
        if answer.is_err() {
            refused = refused.saturating_add(1);
        }
    }
    refused
}

// Prints the drill's text for all nodes joined.
fn print_told(row: &Row, closed: &[Closed<Log>]) -> io::Result<()> {
    let joined = join_all(row.alloc, closed)?;
    let text = tell(row.alloc, FACTS as usize, joined.as_slice())?;
    row.lines(text.as_str())
}
