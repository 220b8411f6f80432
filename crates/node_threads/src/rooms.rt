//! Lists that are reserved before the first start, with room for everything that the workers bring back.
ghost use Rattle.std.specs.Prelude.{◌≡◌, ◌+◌, ◌≤◌, [], length, sum_by, vec_len, vec_capacity, IfOk, IfSome};

use crate::drain::DrainerState;
use crate::feed::Feed;
use crate::refusal::WorkerRefusal;
use crate::rounds::{Rounds, Sort};
use crate::serving::Plan;
use crate::start_drainers::Drainer;
use crate::start_feeders::Feeder;
use crate::start_rounds::Rounder;
use named_log::LogName;
use std::alloc::{AllocError, Global};

/// The lists of the workers that are started, of what comes back from them, and of what is refused, and the rounds of the folders and
/// the gossipers.
#[derive(Drop)]
pub(crate) struct Rooms<'s, L: LogName> {
    pub feeders: Vec<Feeder<'s, L>>,
    pub drainers: Vec<Drainer<'s, L>>,
    pub rounders: Vec<Rounder>,
    pub rounds: Vec<Rounds<'s>>,
    pub feeds: Vec<Option<Feed<L>>>,
    pub holds: Vec<Option<DrainerState<L>>>,
    pub refusals: Vec<WorkerRefusal>,
    ghost none: { (feeders.items ≡ []) × (drainers.items ≡ []) × (rounders.items ≡ []) × (feeds.items ≡ []) × (holds.items ≡ []) × (vec_len refusals ≡ 0) },
    ghost back: { (vec_capacity feeds ≡ vec_capacity feeders) × (vec_capacity holds ≡ vec_capacity drainers) × (vec_len rounds ≤ vec_capacity rounders) },
    ghost room: { vec_capacity feeders + vec_capacity drainers + 1 + sum_by (λ w. length w.rounds.now + 1) rounds.items ≤ vec_capacity refusals },
}

/// Lists for so many feeders and drainers, and for the folders and gossipers of a plan.
pub(crate) fn make_rooms<'s, L: LogName>(
    alloc: Global,
    feeds: usize,
    holds: usize,
    plan: &'s Plan,
) -> Result<Rooms<'s, L>, AllocError>
    ensures { IfOk result (λ r. (vec_capacity r.feeders ≡ feeds) × (vec_capacity r.drainers ≡ holds)) }
{
    let rounds = Vec::with_capacity(alloc, plan.folds.len())?;
    let rounds = add_rounds(alloc, Sort::Fold, &plan.folds, rounds)?;
    let rounds = add_rounds(alloc, Sort::Gossip, &plan.gossip, rounds)?;
    let Some(refusals) = most_refusals(feeds, holds, &rounds) else {
        return Err(AllocError);
    };
    Ok(Rooms {
        feeders: Vec::with_capacity(alloc, feeds)?,
        drainers: Vec::with_capacity(alloc, holds)?,
        rounders: Vec::with_capacity(alloc, rounds.len())?,
        rounds,
        feeds: Vec::with_capacity(alloc, feeds)?,
        holds: Vec::with_capacity(alloc, holds)?,
        refusals: Vec::with_capacity(alloc, refusals)?,
    })
}

// Appends the rounds of each list.
fn add_rounds<'s>(
    alloc: Global,
    sort: Sort,
    lists: &'s [Vec<(u16, u16)>],
    mut workers: Vec<Rounds<'s>>,
) -> Result<Vec<Rounds<'s>>, AllocError> {
    for list in lists {
        workers.push(rounds_of(alloc, sort, list.as_slice())?)?;
    }
    Ok(workers)
}

fn rounds_of<'s>(
    alloc: Global,
    sort: Sort,
    rounds: &'s [(u16, u16)],
) -> Result<Rounds<'s>, AllocError> {
    let refusals = Vec::with_capacity(alloc, rounds.len())?;
    Ok(Rounds {
        sort,
        rounds,
        refusals,
    })
}

// How many refusals there may be: one for each feeder and drainer, those of the folders and gossipers, and the first worker that
// could not be started, which is listed before the others.
fn most_refusals(feeds: usize, holds: usize, rounds: &[Rounds<'_>]) -> Option<usize>
    ensures { IfSome result (λ n. n ≡ feeds + holds + 1 + sum_by (λ w. length w.rounds.now + 1) rounds.now) }
{
    let workers = feeds.checked_add(holds)?.checked_add(1)?;
    workers.checked_add(count_refusals(rounds)?)
}

// One refusal for each worker, or one for each of its rounds.
fn count_refusals(workers: &[Rounds<'_>]) -> Option<usize>
    ensures { IfSome result (λ n. n ≡ sum_by (λ w. length w.rounds.now + 1) workers.now) }
{
    let mut count = 0usize;
    for worker in workers {
        count = count.checked_add(worker.rounds.len())?.checked_add(1)?;
    }
    Some(count)
}
