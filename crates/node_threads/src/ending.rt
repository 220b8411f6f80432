ghost use Rattle.std.specs.Prelude.{◌≡◌, ◌<◌, ◌≤◌, ◌+◌, vec_len, vec_capacity};
ghost use Rattle.node_threads.specs.Refusals.{AllStarted};

use crate::refusal::WorkerRefusal;
use crate::stop::{StopSignal, StopToken};
use std::sync::Wait;

/// What the joins share: the stop flag, and what it ends with, the first worker that could not be started, or 0.
#[derive(Drop)]
pub(crate) struct Ending<'s, R> {
    pub rt: &'s R,
    pub stop: &'s StopSignal,
    pub token: StopToken<'s>,
    pub first: u64,
    ghost same: { (token.of ≡ stop.now.id) × (first ≡ token.value) },
}

/// Sets the flag to 0, unless a worker could not be started, which is then listed.
pub(crate) fn end_starts<'s, R: Wait>(
    rt: &'s R,
    stop: &'s StopSignal,
    refusals: &mut Vec<WorkerRefusal>,
) -> Ending<'s, R>
    requires room { vec_len refusals.old < vec_capacity refusals.old }
    ensures stop { result.stop.now ≡ stop.entry.now }
    ensures told { AllStarted refusals.new.items → result.first ≡ 0 }
    ensures room { (vec_len refusals.new ≤ vec_len refusals.old + 1) × (vec_capacity refusals.new ≡ vec_capacity refusals.old) }
{
    let token = stop.init(rt, || 0);
    let first = *stop.value(&token);
    if first != 0 {
        refusals.push_reserved(WorkerRefusal::NotStarted { worker: first });
    }
    Ending {
        rt,
        stop,
        token,
        first,
    }
}
