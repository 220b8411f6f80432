ghost use Rattle.std.specs.Prelude.{◌≡◌, ℕ, ◌<◌, ◌⊎◌, ◌↔◌, IfOk, IfErr, Err};
ghost use Rattle.segment_core.specs.Forgetting.{IsSoundState, IsWhole, IsFirstBreak};
ghost use Rattle.segment_core.specs.declared.answers.ReadFault.TheVariants.{BrokenBlockChain as BrokenAt, Memory as MemoryOf};
ghost use Rattle.segment_core.specs.StoredPages.{AreShown};
ghost use Rattle.gossip_core.specs.Replying.{SendsRecords, SendsPages, AnswersSummary, FillsSummary, IsLeastBreak};

use crate::unlisted::unlisted;
use messages::{Delta, PageImage, Summary};
use segment_core::{ReadFault, Segment, book_of, pages_at_anchor};
use segment_theorems::{reply_fills, same_anchor};
use std::alloc::AllocError;

/// What a segment has beyond a summary, whichever segment made it and when: its book, and records that the summary does not list.
///
/// Where the summary's anchor reaches the base point, those are what waits and what is alive above the lower of that anchor and the
/// segment's own; else there are the pages at the segment's anchor, and the records that its meaning keeps. Errors: `BrokenBlockChain`
/// of the least page whose chain is broken at the anchor, never over a sound log; `Memory`.
pub fn reply(segment: &Segment, summary: &Summary) -> Result<Delta, ReadFault>
    // Inside one sound log, for whatever part of it the segment means.
    ensures fills { IfOk result (FillsSummary segment.now summary.now) }
    ensures sound { IfErr result (λ e. IsSoundState segment.now → e ≡ MemoryOf) }
    // For arbitrary facts.
    ensures answers { IfOk result (AnswersSummary segment.now summary.now) }
    ensures refused { IfErr result (λ e. (e ≡ MemoryOf) ⊎ ((summary.now.anchor < segment.now.base) × IsLeastBreak segment.now e)) }
    ensures whole { IfOk result (λ _. summary.now.anchor < segment.now.base → IsWhole segment.now) }
    ensures broken { (page n : ℕ) → (result ≡ Err (BrokenAt page n)) ↔ ((summary.now.anchor < segment.now.base) × IsFirstBreak segment.now page n) }
{
    reply_fills();
    same_anchor();
    if summary.anchor() < segment.base_point() {
        return with_pages(segment, summary);
    }
    match with_records(segment, summary) {
        Ok(delta) => Ok(delta),
        Err(_) => Err(ReadFault::Memory),
    }
}

/// The delta of records alone, above the lower of the two anchors.
fn with_records(segment: &Segment, summary: &Summary) -> Result<Delta, AllocError>
    ensures { IfOk result (SendsRecords segment.now summary.now) }
{
    let book = book_of(segment)?;
    let point = segment.anchor().min(summary.anchor());
    let records = unlisted(segment, point, summary.keys())?;
    Ok(Delta::new(book, 0, Vec::new(segment.allocator()), records))
}

/// The delta with the pages at the anchor, where no chain is broken.
fn with_pages(segment: &Segment, summary: &Summary) -> Result<Delta, ReadFault>
    requires { summary.now.anchor < segment.now.base }
    ensures sends { IfOk result (SendsPages segment.now summary.now) }
    ensures sound { IfErr result (λ e. IsSoundState segment.now → e ≡ MemoryOf) }
    ensures whole { IfOk result (λ _. IsWhole segment.now) }
    ensures refused { IfErr result (λ e. (e ≡ MemoryOf) ⊎ IsLeastBreak segment.now e) }
    ensures broken { (page n : ℕ) → (result ≡ Err (BrokenAt page n)) ↔ IsFirstBreak segment.now page n }
{
    if let Some((page, number)) = segment.first_break() {
        let fault = ReadFault::BrokenBlockChain { page, number };
        return Err(fault);
    }
    match with_shown(segment, summary) {
        Ok(delta) => Ok(delta),
        Err(_) => Err(ReadFault::Memory),
    }
}

/// The delta with the pages at the anchor.
fn with_shown(segment: &Segment, summary: &Summary) -> Result<Delta, AllocError>
    requires { summary.now.anchor < segment.now.base }
    ensures { IfOk result (SendsPages segment.now summary.now) }
{
    let pages = pages_at_anchor(segment)?;
    with_kept(segment, summary, pages)
}

/// The delta with these pages, and the kept records that are not listed.
fn with_kept(
    segment: &Segment,
    summary: &Summary,
    pages: Vec<PageImage>,
) -> Result<Delta, AllocError>
    requires above { summary.now.anchor < segment.now.base }
    requires shown { AreShown segment.now pages.items }
    ensures { IfOk result (SendsPages segment.now summary.now) }
{
    let book = book_of(segment)?;
    let anchor = segment.anchor();
    let records = unlisted(segment, anchor, summary.keys())?;
    Ok(Delta::new(book, anchor, pages, records))
}
