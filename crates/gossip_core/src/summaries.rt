ghost use Rattle.std.specs.Prelude.{ℕ, List, IfOk};
ghost use Rattle.redo_core.specs.Meaning.{Meaning, IsMeaning};
ghost use Rattle.redo_core.specs.Sound.{IsSound};
ghost use Rattle.redo_core.specs.declared.facts.Fact.{Fact as AnyFact};
ghost use Rattle.segment_theorems.specs.Means.{Means};
ghost use Rattle.segment_theorems.specs.HasMeaning.{HasMeaning};
ghost use Rattle.segment_core.specs.Form.{IsSegment};
ghost use Rattle.gossip_core.specs.Summarizing.{Summarizes, IsSummaryOf};

use messages::Summary;
use segment_core::{Segment, book_of};
use segment_theorems::same_meaning;
use std::alloc::AllocError;

/// The summary of a segment: its book, its anchor and the keys of the records that its meaning keeps, rising.
///
/// It fails only if memory runs out.
pub fn summary(segment: &Segment) -> Result<Summary, AllocError>
    // For arbitrary facts.
    ensures own { IfOk result (Summarizes segment.now) }
    // It depends on the meaning alone.
    ensures meaning { IfOk result (λ s. (m : Meaning) → HasMeaning segment.now m → IsSummaryOf m s) }
    // Inside one sound log it is that of the part that the segment means.
    ensures part { IfOk result (λ s. (roster : ℕ) (log facts : List AnyFact) (m : Meaning)
        → IsSound roster log → Means roster log facts segment.now → IsMeaning roster facts m → IsSummaryOf m s) }
{
    same_meaning();
    own_summary(segment)
}

fn own_summary(segment: &Segment) -> Result<Summary, AllocError>
    ensures own { IfOk result (Summarizes segment.now) }
    ensures form { IsSegment segment.now }
{
    let book = book_of(segment)?;
    let anchor = segment.anchor();
    let keys = segment.kept_keys(anchor)?;
    Ok(Summary::new(book, anchor, keys))
}
