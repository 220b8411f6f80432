//! Test cases of workers in threads: a line names a run and its numbers, and its results are printed in several lines.
ghost use Rattle.std.specs.Prelude.{◌<◌, ◌≤◌};

mod diaries;
mod floors;
mod folds;
mod gates;
mod jobs;
mod missing;
mod rounds;

use crate::worker_calls::floors::{planned, print_ends, print_plan};
use crate::worker_calls::folds::print_folds;
use crate::worker_calls::gates::{Order, Turnstile};
use crate::worker_calls::jobs::{print_jobs, print_rounds};
use crate::worker_calls::missing::{print_fewer_inlets, print_fewer_nodes};
use crate::worker_calls::rounds::{apart, exchange_and_fold, strangers};
use case_io::Row;
use fleet_drill::{MAX_NODES, MAX_WORKERS, Open};
use std::io;
use std::sync::Wait;
use std::thread::Threads;

/// The number of facts of the log.
pub const FACTS: u64 = 130;

/// Prints the results of a run. The runs here fix their own numbers of nodes and workers.
pub fn answer<R: Threads + Wait + Sync>(rt: &R, row: &Row) -> io::Result<()> {
    match row.name {
        "exchange_and_fold" => exchange_and_fold(rt, row),
        "strangers" => strangers(rt, row),
        "apart" => apart(rt, row),
        "folds" => print_folds(rt, row),
        "jobs" => print_jobs(rt, row),
        "rounds" => print_rounds(rt, row),
        "fewer_inlets" => print_fewer_inlets(rt, row),
        "fewer_nodes" => print_fewer_nodes(rt, row),
        _ => of_floors(rt, row),
    }
}

// Prints the results of a run with the numbers of nodes and workers that the line gives.
fn of_floors<R: Threads + Wait + Sync>(rt: &R, row: &Row) -> io::Result<()> {
    let (nodes, workers) = (row.index(0), row.index(1));
    if nodes == 0 || nodes > MAX_NODES || workers == 0 || workers > MAX_WORKERS {
        return row.unknown();
    }
    match row.name {
        "plan" => print_plan(row, nodes, workers),
        "trails" => {
            let (floor, plan) = planned(row.alloc, nodes, workers, row.number(2))?;
            print_ends(rt, row, floor, plan, &Open)
        }
        "at_once" => in_order(rt, row, nodes, workers, Order::AtOnce),
        "late_folds" => in_order(rt, row, nodes, workers, Order::LateFolds),
        "early_mail" => in_order(rt, row, nodes, workers, Order::EarlyMail),
        _ => row.unknown(),
    }
}

// Prints the results of a drill whose workers go in an order, and how many were let through unmet.
fn in_order<R: Threads + Wait + Sync>(
    rt: &R,
    row: &Row,
    nodes: usize,
    workers: usize,
    order: Order,
) -> io::Result<()>
    requires nodes { (0 < nodes) × (nodes ≤ MAX_NODES) }
    requires workers { 0 < workers }
{
    let pairs = nodes as u64 * (nodes as u64 - 1);
    let gate = Turnstile::new(order, FACTS, pairs);
    let (floor, plan) = planned(row.alloc, nodes, workers, FACTS)?;
    print_ends(rt, row, floor, plan, &gate)?;
    row.one("Unmet", &gate.unmet.read())
}
