ghost use Rattle.std.specs.Prelude.{◌≡◌, ◌+◌, ◌<◌, ◌≤◌, length, vec_len, vec_capacity};

use crate::folding::fold_many;
use crate::gate::{Gate, Job, Kind};
use crate::list::numbered;
use crate::refusal::WorkerRefusal;
use named_log::LogName;
use node_cell::{FoldPlan, Folded, Node};
use std::alloc::Global;
use std::sync::Wait;
use std::thread::Threads;

/// What the two numbers of a round are.
#[derive(Clone, Copy)]
pub(crate) enum Sort {
    /// A node and a page of it to fold.
    Fold,
    /// The node that asks, and the one that answers.
    Gossip,
}

/// The rounds of a folder or a gossiper, and a list with room for what is refused of them.
#[derive(Drop)]
pub(crate) struct Rounds<'s> {
    pub sort: Sort,
    pub rounds: &'s [(u16, u16)],
    pub refusals: Vec<WorkerRefusal>,
    ghost room: { (vec_len refusals ≡ 0) × (length rounds.now ≤ vec_capacity refusals) },
}

// What rounds are run with.
#[derive(Drop)]
struct RoundContext<'s, L: LogName, G, R> {
    rt: &'s R,
    alloc: Global,
    nodes: &'s [Node<L>],
    gate: &'s G,
}

// Neighbouring rounds of one node, which are folded together.
#[derive(Drop)]
struct Batch<'n, 'r, L: LogName> {
    node: &'n Node<L>,
    job: Job,
    rounds: &'r [(u16, u16)],
}

/// Runs fold rounds in order, neighbouring ones of one node as one batch, and lists what was refused, at most one refusal for each round.
pub(crate) fn run_folds<'s, L: LogName + Send, G: Gate, R: Threads + Wait + Sync>(
    rt: &'s R,
    alloc: Global,
    nodes: &'s [Node<L>],
    gate: &'s G,
    worker: u64,
    rounds: &[(u16, u16)],
    mut refusals: Vec<WorkerRefusal>,
) -> Vec<WorkerRefusal>
    requires room { vec_len refusals + length rounds.now ≤ vec_capacity refusals }
    ensures room { vec_len result ≤ vec_len refusals + length rounds.now }
{
    let context = RoundContext {
        rt,
        alloc,
        nodes,
        gate,
    };
    let mut turn = 1u64;
    let mut left = rounds;
    while !left.is_empty() {
        let (batch, rest) = left.split_at(batch_len(left));
        let job = Job {
            worker,
            kind: Kind::Fold,
            turn,
        };
        run_batch(&context, job, batch, &mut refusals);
        turn = turn.saturating_add(batch.len() as u64);
        left = rest;
    }
    refusals
}

// How many rounds, from the first on, are of one node.
fn batch_len(rounds: &[(u16, u16)]) -> usize
    requires { 0 < length rounds.now }
    ensures { (0 < result) × (result ≤ length rounds.now) }
{
    let (node, _) = rounds[0];
    let mut count = 1usize;
    for round in &rounds[1..] {
        if round.0 != node {
            break;
        }
        count += 1;
    }
    count
}

// Runs rounds that are all of one node.
fn run_batch<L: LogName + Send, G: Gate, R: Threads + Wait + Sync>(
    context: &RoundContext<'_, L, G, R>,
    job: Job,
    rounds: &[(u16, u16)],
    refusals: &mut Vec<WorkerRefusal>,
)
    requires room { vec_len refusals.old + length rounds.now ≤ vec_capacity refusals.old }
    ensures room { (vec_len refusals.new ≤ vec_len refusals.old + length rounds.now) × (vec_capacity refusals.new ≡ vec_capacity refusals.old) }
{
    let Some((number, _)) = rounds.first() else {
        return;
    };
    let number = *number as usize;
    match numbered(context.nodes, number) {
        Some(node) => fold_batch(context, &Batch { node, job, rounds }, refusals),
        None => {
            for _ in rounds {
                refusals.push_reserved(WorkerRefusal::NoSuchNode {
                    worker: job.worker,
                    node: number,
                });
            }
        }
    }
}

// Plans all folds, folds outside the lock, commits in order, and discards.
fn fold_batch<L: LogName + Send, G: Gate, R: Threads + Wait + Sync>(
    context: &RoundContext<'_, L, G, R>,
    batch: &Batch<'_, '_, L>,
    refusals: &mut Vec<WorkerRefusal>,
)
    requires some { 0 < length batch.now.rounds.now }
    requires room { vec_len refusals.old + length batch.now.rounds.now ≤ vec_capacity refusals.old }
    ensures room { (vec_len refusals.new ≤ vec_len refusals.old + length batch.now.rounds.now) × (vec_capacity refusals.new ≡ vec_capacity refusals.old) }
{
    context.gate.before(batch.job);
    let folds = fold_pages(context, batch, refusals);
    context.gate.between(batch.job);
    commit_all(context.rt, batch, folds, refusals);
    batch.node.discard(context.rt);
    context.gate.after(batch.job);
}

// The pages of a batch folded, in order, but for those that found no memory, which are listed.
fn fold_pages<L: LogName + Send, G, R: Threads + Wait + Sync>(
    context: &RoundContext<'_, L, G, R>,
    batch: &Batch<'_, '_, L>,
    refusals: &mut Vec<WorkerRefusal>,
) -> Vec<Folded<L>>
    requires some { 0 < length batch.now.rounds.now }
    requires room { vec_len refusals.old + length batch.now.rounds.now ≤ vec_capacity refusals.old }
    ensures count { vec_len result + vec_len refusals.new ≤ vec_len refusals.old + length batch.now.rounds.now }
    ensures room { vec_capacity refusals.new ≡ vec_capacity refusals.old }
{
    let (alloc, worker) = (context.alloc, batch.job.worker);
    let Ok(plans) = Vec::with_capacity(alloc, batch.rounds.len()) else {
        refusals.push_reserved(WorkerRefusal::Memory { worker });
        return Vec::new(alloc);
    };
    let plans = plan_all(context.rt, batch, plans, refusals);
    match fold_many(context.rt, alloc, plans) {
        Ok(folds) => folds,
        Err(_) => {
            refusals.push_reserved(WorkerRefusal::Memory { worker });
            Vec::new(alloc)
        }
    }
}

// The plans of the rounds' pages, in order.
fn plan_all<L: LogName, R: Wait>(
    rt: &R,
    batch: &Batch<'_, '_, L>,
    mut plans: Vec<FoldPlan<L>>,
    refusals: &mut Vec<WorkerRefusal>,
) -> Vec<FoldPlan<L>>
    requires plans { (vec_len plans ≡ 0) × (length batch.now.rounds.now ≤ vec_capacity plans) }
    requires room { vec_len refusals.old + length batch.now.rounds.now ≤ vec_capacity refusals.old }
    ensures count { vec_len result + vec_len refusals.new ≡ vec_len refusals.old + length batch.now.rounds.now }
    ensures room { vec_capacity refusals.new ≡ vec_capacity refusals.old }
{
    let (node, worker, rounds) = (batch.node, batch.job.worker, batch.rounds);
    for (_, page) in rounds {
        match node.fold_plan(rt, *page) {
            Ok(plan) => plans.push_reserved(plan),
            Err(_) => refusals.push_reserved(WorkerRefusal::Memory { worker }),
        }
    }
    plans
}

fn commit_all<L: LogName, R: Wait>(
    rt: &R,
    batch: &Batch<'_, '_, L>,
    folds: Vec<Folded<L>>,
    refusals: &mut Vec<WorkerRefusal>,
)
    requires room { vec_len refusals.old + vec_len folds ≤ vec_capacity refusals.old }
    ensures room { (vec_len refusals.new ≤ vec_len refusals.old + vec_len folds) × (vec_capacity refusals.new ≡ vec_capacity refusals.old) }
{
    let (node, worker) = (batch.node, batch.job.worker);
    for folded in folds {
        let (committed, _) = node.fold_commit(rt, folded);
        if let Err(refused) = committed {
            let fault = refused.fault;
            refusals.push_reserved(WorkerRefusal::Commit { worker, fault });
        }
    }
}

/// Runs gossip rounds in order, and lists what was refused, at most one refusal for each round.
pub(crate) fn run_gossip<'s, L: LogName, G: Gate, R: Wait>(
    rt: &'s R,
    alloc: Global,
    nodes: &'s [Node<L>],
    gate: &'s G,
    worker: u64,
    rounds: &[(u16, u16)],
    mut refusals: Vec<WorkerRefusal>,
) -> Vec<WorkerRefusal>
    requires room { vec_len refusals + length rounds.now ≤ vec_capacity refusals }
    ensures room { vec_len result ≤ vec_len refusals + length rounds.now }
{
    let context = RoundContext {
        rt,
        alloc,
        nodes,
        gate,
    };
    let mut turn = 0u64;
    for (asker, answerer) in rounds {
        turn = turn.saturating_add(1);
        let job = Job {
            worker,
            kind: Kind::Gossip,
            turn,
        };
        if let Err(refusal) = run_exchange(&context, job, *asker as usize, *answerer as usize) {
            refusals.push_reserved(refusal);
        }
    }
    refusals
}

fn run_exchange<L: LogName, G: Gate, R: Wait>(
    context: &RoundContext<'_, L, G, R>,
    job: Job,
    asker: usize,
    answerer: usize,
) -> Result<(), WorkerRefusal> {
    let worker = job.worker;
    let Some(one) = numbered(context.nodes, asker) else {
        return Err(WorkerRefusal::NoSuchNode {
            worker,
            node: asker,
        });
    };
    let Some(other) = numbered(context.nodes, answerer) else {
        return Err(WorkerRefusal::NoSuchNode {
            worker,
            node: answerer,
        });
    };
    context.gate.before(job);
    let answer = exchange(context, job, one, other);
    context.gate.after(job);
    answer
}

// The asker absorbs what the answerer has beyond its summary.
fn exchange<L: LogName, G: Gate, R: Wait>(
    context: &RoundContext<'_, L, G, R>,
    job: Job,
    asker: &Node<L>,
    answerer: &Node<L>,
) -> Result<(), WorkerRefusal> {
    let worker = job.worker;
    let Ok(summary) = asker.summary(context.rt) else {
        return Err(WorkerRefusal::Memory { worker });
    };
    let Ok(mail) = answerer.reply(context.rt, summary) else {
        return Err(WorkerRefusal::Memory { worker });
    };
    context.gate.between(job);
    let (absorbed, _) = asker.absorb(context.rt, mail);
    match absorbed {
        Ok(_) => Ok(()),
        Err(refused) => Err(WorkerRefusal::Absorb {
            worker,
            fault: refused.fault,
        }),
    }
}
