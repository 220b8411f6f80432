//! How many bytes a reply has on the wire, before it is made.
ghost use Rattle.std.specs.Prelude.{◌≡◌, ℕ, ◌<◌, ◌⊎◌, ◌↔◌, IfOk, IfErr, Err};
ghost use Rattle.segment_core.specs.Forgetting.{IsSoundState, IsWhole, IsFirstBreak};
ghost use Rattle.segment_core.specs.declared.answers.ReadFault.TheVariants.{BrokenBlockChain as BrokenAt, Memory as MemoryOf};
ghost use Rattle.gossip_core.specs.Replying.{SendsRecords, SendsPages, IsLeastBreak};
ghost use Rattle.gossip_core.specs.Sizes.{IsReplySize, IsSizeOf};

use messages::Summary;
use redo_wire::delta_size;
use segment_core::{ReadFault, Segment, book_ref, count_at_anchor};
use segment_theorems::{reply_fills, same_anchor};
use std::alloc::AllocError;

/// The size in bytes on the wire of the reply to a summary, as `reply` makes it. No part of that is kept: a page that is not folded is
/// made to see whether it is zeros, one at a time.
///
/// Errors: those of `reply`.
pub fn reply_size(segment: &Segment, summary: &Summary) -> Result<u128, ReadFault>
    ensures size { IfOk result (IsReplySize segment.now summary.now) }
    ensures sound { IfErr result (λ e. IsSoundState segment.now → e ≡ MemoryOf) }
    ensures refused { IfErr result (λ e. (e ≡ MemoryOf) ⊎ ((summary.now.anchor < segment.now.base) × IsLeastBreak segment.now e)) }
    ensures whole { IfOk result (λ _. summary.now.anchor < segment.now.base → IsWhole segment.now) }
    ensures broken { (page n : ℕ) → (result ≡ Err (BrokenAt page n)) ↔ ((summary.now.anchor < segment.now.base) × IsFirstBreak segment.now page n) }
{
    reply_fills();
    same_anchor();
    if summary.anchor() < segment.base_point() {
        return with_pages_size(segment, summary);
    }
    match with_records_size(segment, summary) {
        Ok(size) => Ok(size),
        Err(_) => Err(ReadFault::Memory),
    }
}

/// The size of the delta of records alone.
fn with_records_size(segment: &Segment, summary: &Summary) -> Result<u128, AllocError>
    ensures { IfOk result (IsSizeOf (SendsRecords segment.now summary.now)) }
{
    let point = segment.anchor().min(summary.anchor());
    let records = segment.kept_unlisted(point, summary.keys())?;
    Ok(delta_size(&book_ref(segment), 0, &records))
}

/// The size of the delta with the pages at the anchor, where no chain is broken.
fn with_pages_size(segment: &Segment, summary: &Summary) -> Result<u128, ReadFault>
    ensures size { IfOk result (IsSizeOf (SendsPages segment.now summary.now)) }
    ensures sound { IfErr result (λ e. IsSoundState segment.now → e ≡ MemoryOf) }
    ensures whole { IfOk result (λ _. IsWhole segment.now) }
    ensures refused { IfErr result (λ e. (e ≡ MemoryOf) ⊎ IsLeastBreak segment.now e) }
    ensures broken { (page n : ℕ) → (result ≡ Err (BrokenAt page n)) ↔ IsFirstBreak segment.now page n }
{
    if let Some((page, number)) = segment.first_break() {
        let fault = ReadFault::BrokenBlockChain { page, number };
        return Err(fault);
    }
    match with_shown_size(segment, summary) {
        Ok(size) => Ok(size),
        Err(_) => Err(ReadFault::Memory),
    }
}

/// The size of the delta with the pages at the anchor.
fn with_shown_size(segment: &Segment, summary: &Summary) -> Result<u128, AllocError>
    ensures { IfOk result (IsSizeOf (SendsPages segment.now summary.now)) }
{
    let pages = count_at_anchor(segment)?;
    let anchor = segment.anchor();
    let records = segment.kept_unlisted(anchor, summary.keys())?;
    Ok(delta_size(&book_ref(segment), pages, &records))
}
