//! A gate that records its calls.
use crate::Log;
use case_io::Row;
use node_cell::Node;
use node_threads::{Gate, Job, Kind};
use std::alloc::{AllocError, Global};
use std::io;
use std::sync::{Mutex, Wait};

/// When a gate is called.
#[derive(Debug, Clone, Copy, PartialEq, Eq)]
enum Moment {
    Before,
    Between,
    After,
}

/// A call of a gate, and how many keys the summary of the watched node had then, where there is one.
#[derive(Clone, Copy)]
pub struct Call {
    moment: Moment,
    job: Job,
    keys: Option<usize>,
}

/// How many calls a gate has room for.
const ROOM: usize = 256;

/// A gate that lets everything through, and records each call. It may watch a node.
#[derive(Drop)]
pub struct RecordingGate<'r, R: Wait> {
    rt: &'r R,
    node: Option<&'r Node<Log>>,
    calls: Mutex<Vec<Call>>,
}

impl<'r, R: Wait> RecordingGate<'r, R> {
    /// A gate without calls, which watches `node` where there is one.
    pub fn open(
        rt: &'r R,
        alloc: Global,
        node: Option<&'r Node<Log>>,
    ) -> Result<RecordingGate<'r, R>, AllocError> {
        let calls = Vec::with_capacity(alloc, ROOM)?;
        Ok(RecordingGate {
            rt,
            node,
            calls: Mutex::new(calls),
        })
    }

    // A call past the room is lost, and then the number of calls that is printed is too small.
    fn note(&self, moment: Moment, job: Job) {
        let keys = self.keys();
        let mut calls = self.calls.lock(self.rt);
        let _ = calls.push(Call { moment, job, keys });
    }

    // How many keys the summary of the watched node has; None where there is no node, or memory runs out.
    fn keys(&self) -> Option<usize> {
        let summary = self.node?.summary(self.rt).ok()?;
        Some(summary.keys().len())
    }

    /// The calls, in order.
    pub fn into_calls(self) -> Vec<Call> {
        let RecordingGate {
            rt: _,
            node: _,
            calls,
        } = self;
        calls.into_inner()
    }
}

impl<'r, R: Wait> Gate for RecordingGate<'r, R> {
    fn before(&self, job: Job) {
        self.note(Moment::Before, job);
    }

    fn between(&self, job: Job) {
        self.note(Moment::Between, job);
    }

    fn after(&self, job: Job) {
        self.note(Moment::After, job);
    }
}

// The calls of a worker, in order.
fn calls_of(
    alloc: Global,
    calls: &[Call],
    worker: u64,
) -> Result<Vec<(Moment, Kind, u64)>, AllocError> {
    let mut own = Vec::new(alloc);
    for call in calls {
        if call.job.worker == worker {
            own.push((call.moment, call.job.kind, call.job.turn))?;
        }
    }
    Ok(own)
}

/// Prints each call, in order: the worker and its turn, and how many keys the watched node had.
pub fn print_seen(row: &Row, calls: &[Call]) -> io::Result<()> {
    for call in calls {
        let job = call.job;
        let seen = (job.worker, call.moment, job.kind, job.turn, call.keys);
        row.parts("Seen", &seen)?;
    }
    Ok(())
}

/// Prints how many calls there are, and those of each of so many workers.
pub fn print_calls(row: &Row, calls: &[Call], workers: u64) -> io::Result<()> {
    row.one("Calls", &calls.len())?;
    for worker in 1..=workers {
        let own = calls_of(row.alloc, calls, worker)?;
        row.parts("Worker", &(worker, own))?;
    }
    Ok(())
}
