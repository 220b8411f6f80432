//! What the contracts determine, so that no other body meets them. Each function states its law; no code calls it.

ghost use Rattle.std.specs.Prelude.{◌≡◌, ◌↔◌, Some, Err, IfOk};
ghost use Rattle.redo_core.specs.Book.{roster_of};
ghost use Rattle.gossip_core.specs.declared.absorbing.AbsorbRefusal.TheVariants.{Uncovered as UncoveredBy};
ghost use Rattle.gossip_core.specs.declared.answering.Shown.{Shown as AnyShown};

use crate::absorbing::{AbsorbRefusal, absorb};
use crate::answering::{Shown, uncovered};
use crate::replies::reply;
use crate::summaries::summary;
use messages::{Delta, Summary};
use segment_core::{ReadFault, Segment};
use std::alloc::AllocError;

fn what_is_uncovered_is_one(segment: &Segment, summary: &Summary) -> (Option<Shown>, Option<Shown>)
    ensures { result.0 ≡ result.1 }
{
    // Called only for its postcondition: there is an anchor.
    let _anchor = segment.anchor();
    (uncovered(segment, summary), uncovered(segment, summary))
}

fn absorb_tells_what_is_uncovered(
    segment: &mut Segment,
    summary: &Summary,
    delta: &Delta,
) -> (Option<Shown>, Result<(), AbsorbRefusal>)
    requires { roster_of segment.old.book ≡ roster_of delta.now.book }
    ensures { (shown : AnyShown) → (result.1 ≡ Err (UncoveredBy shown)) ↔ (result.0 ≡ Some shown) }
{
    let shown = uncovered(segment, summary);
    (shown, absorb(segment, summary, delta))
}

fn a_segment_has_one_summary(segment: &Segment) -> Result<(Summary, Summary), AllocError>
    ensures { IfOk result (λ both. both.0 ≡ both.1) }
{
    let one = summary(segment)?;
    let other = summary(segment)?;
    Ok((one, other))
}

fn a_summary_has_one_reply(
    segment: &Segment,
    summary: &Summary,
) -> Result<(Delta, Delta), ReadFault>
    ensures { IfOk result (λ both. both.0 ≡ both.1) }
{
    let one = reply(segment, summary)?;
    let other = reply(segment, summary)?;
    Ok((one, other))
}
