//! Test cases of threads that deliver the facts of a log to a node or take turns at its lock, or at a mutex in place of either: a line
//! names a task and its words, and is printed with the result. With large numbers `deliveries.py` and `waiting.py` measure them.
//!
//! A line's words are deliver or turns, who takes, all or holder, the threads, the facts or turns of each, and the rounds of work in a turn.
ghost use Rattle.std.specs.Prelude.{◌<◌, ◌≤◌, length};

mod dealing;
mod mutex;
mod node;
mod turns;

use crate::thread_calls::dealing::deal;
use crate::thread_calls::turns::{TurnTask, take_turns};
use case_io::{Row, size};
use named_log::{Drill, LogFact};
use node_lock::MAX_PASSES;
use std::alloc::{AllocError, Global};
use std::io;
use std::sync::Wait;
use std::thread::Threads;

// The log whose facts are delivered, the largest drill.
type Log = Drill<1048576>;

const LOG_LEN: usize = 2097154;

// The facts are made and dealt for any taker, so a run with no taker measures what that costs.
fn accepted<R: Threads + Wait + Sync>(
    rt: &R,
    alloc: Global,
    taker: &str,
    threads: usize,
    facts: usize,
) -> Result<u64, AllocError>
    requires { (0 < threads) × (threads ≤ MAX_PASSES) }
{
    let dealt = deal::<Log>(alloc, threads, facts)?;
    let counts = accepted_of_each(rt, alloc, taker, dealt, facts)?;
    let sum = counts
        .iter()
        .fold(0u64, |sum, count| sum.saturating_add(*count));
    Ok(sum)
}

fn accepted_of_each<R: Threads + Wait + Sync>(
    rt: &R,
    alloc: Global,
    taker: &str,
    dealt: Vec<Vec<LogFact<Log>>>,
    facts: usize,
) -> Result<Vec<u64>, AllocError>
    requires { (0 < length dealt.items) × (length dealt.items ≤ MAX_PASSES) }
{
    match taker {
        "cell" => node::deliver(rt, alloc, dealt, facts as u64),
        "mutex" => mutex::deliver(rt, alloc, dealt),
        _ => Ok(Vec::new(alloc)),
    }
}

// Prints how many facts were accepted. A node has passes for at most as many threads as a lock has passes.
fn deliver<R: Threads + Wait + Sync>(rt: &R, row: &Row) -> io::Result<()> {
    let threads = row.number_or(2, 1);
    if threads == 0 || threads > MAX_PASSES {
        return row.unknown();
    }
    let facts = size(row.number_or(3, LOG_LEN as u64)).min(LOG_LEN);
    let sum = accepted(rt, row.alloc, row.word(0), threads as usize, facts)?;
    row.count(sum, "accepted")
}

// Prints how many threads ended.
fn turn<R: Threads + Wait + Sync>(rt: &R, row: &Row) -> io::Result<()> {
    let task = TurnTask {
        threads: size(row.number_or(2, 1)),
        turns: row.number_or(3, LOG_LEN as u64),
        rounds: row.number(4),
        has_holder: row.word(1) == "holder",
    };
    let ended = take_turns(rt, row.alloc, row.word(0), &task)?;
    row.count(ended as u64, "threads")
}

/// Prints the result of a task of threads.
pub fn answer<R: Threads + Wait + Sync>(rt: &R, row: &Row) -> io::Result<()> {
    match row.name {
        "turns" => turn(rt, row),
        _ => deliver(rt, row),
    }
}
