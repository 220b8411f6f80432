ghost use Rattle.std.specs.Prelude.{◌≡◌, ◌<◌, ◌^◌, length, IfOk, IfErr};
ghost use Rattle.node_threads.specs.Refusals.{AllStarted};
ghost use Rattle.node_threads.specs.Runs.{FeedsFit, AreReady, Fed, Drained, AllBack};

use crate::context::Context;
use crate::drain::DrainerState;
use crate::ending::end_starts;
use crate::feed::Feed;
use crate::gate::Gate;
use crate::join_drainers::join_drainers;
use crate::join_feeders::join_feeders;
use crate::join_rounds::join_rounds;
use crate::refusal::WorkerRefusal;
use crate::rooms::{Rooms, make_rooms};
use crate::serving::Plan;
use crate::start_drainers::start_drainers;
use crate::start_feeders::start_feeders;
use crate::start_rounds::start_rounders;
use named_log::LogName;
use redo_core::Refused;
use std::alloc::AllocError;
use std::sync::Wait;
use std::thread;
use std::thread::{Scope, Threads};

/// What goes into the workers.
#[derive(Drop)]
pub(crate) struct Parts<L: LogName> {
    pub feeds: Vec<Feed<L>>,
    pub holds: Vec<DrainerState<L>>,
}

/// What comes back from the workers.
#[derive(Drop)]
pub(crate) struct Ran<L: LogName> {
    pub feeds: Vec<Option<Feed<L>>>,
    pub holds: Vec<Option<DrainerState<L>>>,
    pub refusals: Vec<WorkerRefusal>,
}

// Starts all workers, and joins them. It fails only if memory runs out, before the first start.
fn run_all<'s, E, L: LogName + Send + Sync, G: Gate + Sync, R: Threads + Wait + Sync>(
    context: &'s Context<'s, L, G, R>,
    scope: &Scope<'s, E>,
    plan: &'s Plan,
    parts: Parts<L>,
) -> Result<Ran<L>, Refused<Parts<L>, AllocError>>
    requires feeds { FeedsFit parts.feeds.items context.now.intakes.now }
    requires holds { AreReady context.now.nodes.now context.now.board.now context.now.intakes.now parts.holds.items }
    requires few { (length parts.feeds.items < 2 ^ 61) × (length parts.holds.items < 2 ^ 61) }
    ensures len { IfOk result (λ r. (length r.feeds.items ≡ length parts.feeds.items) × (length r.holds.items ≡ length parts.holds.items)) }
    ensures feeds { IfOk result (λ r. AllStarted r.refusals.items → AllBack (Fed (length context.entry.now.intakes.now)) parts.feeds.items r.feeds.items) }
    ensures holds { IfOk result (λ r. AllStarted r.refusals.items → AllBack (Drained (length context.entry.now.nodes.now)) parts.holds.items r.holds.items) }
    ensures err { IfErr result (λ e. (e.value.feeds ≡ parts.feeds) × (e.value.holds ≡ parts.holds)) }
{
    let Parts { feeds, holds } = parts;
    let (feed_count, hold_count) = (feeds.len(), holds.len());
    let Ok(rooms) = make_rooms(context.alloc, feed_count, hold_count, plan) else {
        return Err(Refused {
            value: Parts { feeds, holds },
            fault: AllocError,
        });
    };
    let Rooms {
        feeders,
        drainers,
        rounders,
        rounds,
        feeds: feeds_back,
        holds: holds_back,
        mut refusals,
    } = rooms;
    let base = feed_count as u64;
    let folders = base + hold_count as u64;
    let feeders = start_feeders(context, scope, feeds, feeders);
    let drainers = start_drainers(context, scope, base, holds, drainers);
    let rounders = start_rounders(context, scope, folders, rounds, rounders);
    let noted = &mut refusals;
    let end = end_starts(context.rt, context.stop, noted);
    let feeds = join_feeders(&end, feeders, feeds_back, noted);
    let holds = join_drainers(&end, base, drainers, holds_back, noted);
    join_rounds(&end, folders, rounders, noted);
    Ok(Ran {
        feeds,
        holds,
        refusals,
    })
}

/// The same in a scope of its own.
pub(crate) fn run_in_scope<L: LogName + Send + Sync, G: Gate + Sync, R: Threads + Wait + Sync>(
    context: &Context<'_, L, G, R>,
    plan: &Plan,
    parts: Parts<L>,
) -> Result<Ran<L>, Refused<Parts<L>, AllocError>>
    requires feeds { FeedsFit parts.feeds.items context.now.intakes.now }
    requires holds { AreReady context.now.nodes.now context.now.board.now context.now.intakes.now parts.holds.items }
    requires few { (length parts.feeds.items < 2 ^ 61) × (length parts.holds.items < 2 ^ 61) }
    ensures len { IfOk result (λ r. (length r.feeds.items ≡ length parts.feeds.items) × (length r.holds.items ≡ length parts.holds.items)) }
    ensures feeds { IfOk result (λ r. AllStarted r.refusals.items → AllBack (Fed (length context.entry.now.intakes.now)) parts.feeds.items r.feeds.items) }
    ensures holds { IfOk result (λ r. AllStarted r.refusals.items → AllBack (Drained (length context.entry.now.nodes.now)) parts.holds.items r.holds.items) }
    ensures err { IfErr result (λ e. (e.value.feeds ≡ parts.feeds) × (e.value.holds ≡ parts.holds)) }
{
    thread::scope(
        thread::scope_env(),
        context.rt,
        |scope| -> Result<Ran<L>, Refused<Parts<L>, AllocError>>
            requires feeds { FeedsFit parts.feeds.items context.now.intakes.now }
            requires holds { AreReady context.now.nodes.now context.now.board.now context.now.intakes.now parts.holds.items }
            requires few { (length parts.feeds.items < 2 ^ 61) × (length parts.holds.items < 2 ^ 61) }
        { run_all(context, scope, plan, parts) },
    )
}
