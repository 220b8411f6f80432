//! Runs of `serve` in which a feed names no inlet, or an inlet names no node.
ghost use Rattle.std.specs.Prelude.{◌≡◌, ◌++◌, List};

use crate::Log;
use crate::worker_calls::jobs::small_floor;
use case_io::Row;
use fleet_drill::{DrillSetup, Open};
use node_threads::{DeliverResult, Feed, Plan, ServeInput, Served, Shared, serve};
use std::alloc::{AllocError, Global};
use std::io;
use std::sync::Wait;
use std::thread::Threads;

/// Prints what comes of four feeds and the inlets of three of them: the other inlets take their parcels, and the feed without one keeps
/// its facts.
pub fn print_fewer_inlets<R: Threads + Wait + Sync>(rt: &R, row: &Row) -> io::Result<()> {
    let setup = small_floor(row.alloc, 4)?;
    let served = serve_fewer_inlets(rt, row.alloc, setup)?;
    print_served(row, &served)
}

/// Prints what comes of four inlets and three of their nodes: the other nodes take their facts, and the inlet without one answers none.
pub fn print_fewer_nodes<R: Threads + Wait + Sync>(rt: &R, row: &Row) -> io::Result<()> {
    let setup = small_floor(row.alloc, 4)?;
    let served = serve_fewer_nodes(rt, row.alloc, setup)?;
    print_served(row, &served)
}

fn serve_fewer_inlets<R: Threads + Wait + Sync>(
    rt: &R,
    alloc: Global,
    setup: DrillSetup<Log>,
) -> Result<Served<Log>, AllocError> {
    let plan = deliveries(alloc)?;
    let DrillSetup {
        board,
        nodes,
        feeds,
        mut inlets,
    } = setup;
    drop_last(&mut inlets);
    let lent = nodes.as_slice();
    let shared = Shared {
        nodes: lent,
        board: &board,
        gate: &Open,
    };
    let input = ServeInput {
        feeds,
        inlets,
        plan,
    };
    match serve(rt, alloc, &shared, input) {
        Ok(served) => Ok(served),
        Err(_) => Err(AllocError),
    }
}

fn serve_fewer_nodes<R: Threads + Wait + Sync>(
    rt: &R,
    alloc: Global,
    setup: DrillSetup<Log>,
) -> Result<Served<Log>, AllocError> {
    let plan = deliveries(alloc)?;
    let DrillSetup {
        board,
        mut nodes,
        feeds,
        inlets,
    } = setup;
    drop_last(&mut nodes);
    let lent = nodes.as_slice();
    let shared = Shared {
        nodes: lent,
        board: &board,
        gate: &Open,
    };
    let input = ServeInput {
        feeds,
        inlets,
        plan,
    };
    match serve(rt, alloc, &shared, input) {
        Ok(served) => Ok(served),
        Err(_) => Err(AllocError),
    }
}

fn drop_last<T: Drop>(items: &mut Vec<T>)
    ensures { (last : List T) × (items.old.items ≡ items.new.items ++ last) }
{
    items.pop();
}

// Each of four drainers takes three parcels, and there are no rounds.
fn deliveries(alloc: Global) -> Result<Plan, AllocError> {
    Ok(Plan {
        parcels: [3, 3, 3, 3].to_vec(alloc)?,
        folds: Vec::new(alloc),
        gossip: Vec::new(alloc),
    })
}

// Prints how many facts each feed has left, how many facts of each inlet were taken, and the refusals.
fn print_served(row: &Row, served: &Served<Log>) -> io::Result<()> {
    let mut left = Vec::new(row.alloc);
    for feed in served.feeds.as_slice() {
        left.push(facts_left(feed))?;
    }
    let mut taken = Vec::new(row.alloc);
    for answers in served.answers.as_slice() {
        taken.push(taken_of(answers.as_slice()))?;
    }
    row.one("Left", &left)?;
    row.one("Taken", &taken)?;
    row.one("Refused", &served.refusals)
}

fn facts_left(feed: &Option<Feed<Log>>) -> Option<usize> {
    match feed {
        Some(feed) => Some(feed.facts.len()),
        None => None,
    }
}

fn taken_of(answers: &[DeliverResult<Log>]) -> usize {
    let mut taken = 0usize;
    for answer in answers {
        if answer.is_ok() {
            taken = taken.saturating_add(1);
        }
    }
    taken
}
