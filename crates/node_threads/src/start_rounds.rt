ghost use Rattle.std.specs.Prelude.{◌≡◌, ◌+◌, ◌≤◌, [], length, sum_by, vec_len, vec_capacity, IfSome};
ghost use Rattle.node_threads.specs.Refusals.{most_listed};

use crate::context::Context;
use crate::gate::Gate;
use crate::refusal::WorkerRefusal;
use crate::rounds::{Rounds, Sort, run_folds, run_gossip};
use named_log::LogName;
use std::sync::Wait;
use std::thread::{Promise, PromisedHandle, Scope, Threads};

/// What a folder or a gossiper promises: no more refusals than it has rounds.
#[derive(Drop)]
pub(crate) struct Lists {
    pub rounds: usize,
}

impl Promise<Vec<WorkerRefusal>> for Lists {
    ghost use Rattle.std.specs.Prelude.{◌≤◌, vec_len};

    ghost kept_by = { λ p r. vec_len r ≤ p.rounds };
}

pub(crate) type Rounder = Option<PromisedHandle<Vec<WorkerRefusal>, Lists>>;

/// Starts a folder or a gossiper for each worker's rounds. Where none can be made, the rounds are dropped. `base` is the number of the
/// worker before.
pub(crate) fn start_rounders<
    's,
    E,
    L: LogName + Send + Sync,
    G: Gate + Sync,
    R: Threads + Wait + Sync,
>(
    context: &'s Context<'s, L, G, R>,
    scope: &Scope<'s, E>,
    base: u64,
    workers: Vec<Rounds<'s>>,
    mut started: Vec<Rounder>,
) -> Vec<Rounder>
    requires none { started.items ≡ [] }
    requires room { vec_len workers ≤ vec_capacity started }
    ensures most { sum_by (most_listed (λ h. h.promise.rounds)) result.items ≤ sum_by (λ w. length w.rounds.now + 1) workers.entry.items }
{
    let mut worker = base;
    for work in workers {
        worker = worker.saturating_add(1);
        let handle = start_one(context, scope, worker, work);
        started.push_reserved(handle);
    }
    started
}

// Starts one worker, and says so by the flag where it could not.
fn start_one<'s, E, L: LogName + Send + Sync, G: Gate + Sync, R: Threads + Wait + Sync>(
    context: &'s Context<'s, L, G, R>,
    scope: &Scope<'s, E>,
    worker: u64,
    work: Rounds<'s>,
) -> Rounder
    ensures { IfSome result (λ h. h.promise.rounds ≡ length work.entry.rounds.now) }
{
    let Rounds {
        sort,
        rounds,
        refusals,
    } = work;
    let (rt, alloc, nodes, gate) = (context.rt, context.alloc, context.nodes, context.gate);
    let promise = Lists {
        rounds: rounds.len(),
    };
    let handle = match sort {
        Sort::Fold => scope
            .spawn_with(
                promise,
                move || -> Vec<WorkerRefusal>
                    requires { vec_len refusals + length rounds.now ≤ vec_capacity refusals }
                { run_folds(rt, alloc, nodes, gate, worker, rounds, refusals) },
            )
            .ok(),
        Sort::Gossip => scope
            .spawn_with(
                promise,
                move || -> Vec<WorkerRefusal>
                    requires { vec_len refusals + length rounds.now ≤ vec_capacity refusals }
                { run_gossip(rt, alloc, nodes, gate, worker, rounds, refusals) },
            )
            .ok(),
    };
    if handle.is_none() {
        let _ = context.stop.set(context.rt, worker);
    }
    handle
}
