//! The requests of gossip.
ghost use Rattle.std.specs.Prelude.{◌≡◌, ◌⊎◌};
ghost use Rattle.gossip_core.specs.Calls.{RepliesTo};
ghost use Rattle.replica.specs.declared.replies.Reply.TheVariants.{Memory as MemoryReply, Summary as SummaryReply};
ghost use Rattle.replica.specs.Gossiping.{Asks, TellsDelta, RepliesWithin, Absorbs};

use crate::boxes::Boxed;
use crate::replies::Reply;
use crate::replying::{absorbed_reply, delta_reply, fault_reply};
use gossip_core::{reply, reply_size, summary};
use messages::{Delta, Summary};
use read_cache::CachedSegment;
use segment_core::{ReadFault, Segment};
use std::alloc::Global;

/// Returns the segment's summary.
pub(crate) fn ask(segment: &Segment) -> Reply
    ensures asks { Asks segment.now result }
{
    match summary(segment) {
        Ok(summary) => summary_reply(segment.allocator(), summary),
        Err(_) => Reply::Memory,
    }
}

/// The reply that has a summary, unless memory runs out.
fn summary_reply(alloc: Global, summary: Summary) -> Reply
    ensures { (result ≡ MemoryReply) ⊎ (result ≡ SummaryReply summary) }
{
    match Boxed::new(alloc, summary) {
        Ok(summary) => Reply::Summary { summary },
        Err(_) => Reply::Memory,
    }
}

/// What the segment has beyond a summary, as its reply has it.
fn boxed_answer(segment: &Segment, summary: &Summary) -> Result<Boxed<Delta>, ReadFault>
    ensures replies { RepliesTo segment.now summary.now result }
{
    match reply(segment, summary) {
        Ok(delta) => match Boxed::new(segment.allocator(), delta) {
            Ok(boxed) => Ok(boxed),
            Err(_) => Err(ReadFault::Memory),
        },
        Err(fault) => Err(fault),
    }
}

/// Returns what the segment has beyond a summary.
pub(crate) fn answer(segment: &Segment, summary: &Summary) -> Reply
    ensures replies { TellsDelta segment.now summary.now result }
{
    delta_reply(boxed_answer(segment, summary))
}

/// Returns what the segment has beyond a summary, if that has at most `limit` bytes; its size is computed before any of it is built.
pub(crate) fn answer_within(segment: &Segment, summary: &Summary, most: u64) -> Reply
    ensures replies { RepliesWithin segment.now summary.now most result }
{
    match reply_size(segment, summary) {
        Ok(size) if size > u128::from(most) => Reply::Large,
        Ok(_) => answer(segment, summary),
        Err(fault) => fault_reply(fault),
    }
}

/// Merges what a delta has beyond the summary that it was made for.
pub(crate) fn absorb_delta(cached: &mut CachedSegment, summary: &Summary, delta: &Delta) -> Reply
    ensures absorbs { Absorbs cached.old summary.now delta.now result cached.new }
{
    absorbed_reply(cached.absorb(summary, delta))
}
