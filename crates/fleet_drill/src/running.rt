ghost use Rattle.std.specs.Prelude.{◌<◌, ◌≤◌};

use crate::floor::open_floor;
use crate::joining::join_all;
use crate::rounds::make_plan;
use crate::settling::close_all;
use crate::telling::tell;
use crate::working::work;
use intake_queue::MAX_CAPACITY;
use named_log::{Drill, LogName};
use node_threads::{Gate, Job};
use std::alloc::{AllocError, Global};
use std::sync::Wait;
use std::thread::Threads;

/// How large the log of a drill is: 130 facts, or 2,050.
#[derive(Clone, Copy, Debug, PartialEq, Eq)]
pub enum Size {
    Small,
    Large,
}

/// The most nodes of a drill.
pub const MAX_NODES: usize = 6;

/// The most folders of a drill, and the most gossipers.
pub const MAX_WORKERS: usize = 16;

/// A gate that lets everything through.
pub struct Open;

impl Gate for Open {
    fn before(&self, _job: Job) {}

    fn between(&self, _job: Job) {}

    fn after(&self, _job: Job) {}
}

/// Runs a drill, and gives its text. An error is lack of memory, or of a thread.
pub fn drill<R: Threads + Wait + Sync>(
    rt: &R,
    alloc: Global,
    nodes: usize,
    workers: usize,
    size: Size,
) -> Result<String, AllocError>
    requires nodes { (0 < nodes) × (nodes ≤ MAX_NODES) }
    requires workers { (0 < workers) × (workers ≤ MAX_WORKERS) }
{
    match size {
        Size::Small => drill_of::<Drill<64>, R>(rt, alloc, nodes, workers, 130),
        Size::Large => drill_of::<Drill<1024>, R>(rt, alloc, nodes, workers, 2050),
    }
}

fn drill_of<L: LogName + Send + Sync, R: Threads + Wait + Sync>(
    rt: &R,
    alloc: Global,
    nodes: usize,
    workers: usize,
    facts: usize,
) -> Result<String, AllocError>
    requires nodes { (0 < nodes) × (nodes ≤ MAX_NODES) }
    requires workers { 0 < workers }
    requires facts { (0 < facts) × (facts ≤ MAX_CAPACITY) }
{
    let floor = open_floor::<L>(alloc, nodes, nodes, facts, facts as u64)?;
    let plan = make_plan(alloc, floor.feeds.as_slice(), nodes as u16, workers)?;
    let worked = work(rt, alloc, floor, plan, &Open)?;
    let closed = close_all(rt, alloc, worked)?;
    let joined = join_all(alloc, closed.as_slice())?;
    tell(alloc, facts, joined.as_slice())
}
