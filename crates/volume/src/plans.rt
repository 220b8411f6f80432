ghost use Rattle.std.specs.Prelude.{◌≡◌, ◌↔◌, ℕ, IsTrue, IfOk, IfSome, IfNone};
ghost use Rattle.redo_core.specs.Data.{CutData};
ghost use Rattle.volume.specs.Planning.{IsPending, IsCommitPoint, IsOwnPlan, MakesPlan, FindsPoint};

use crate::actions::Fault;
use crate::page_layout::number_of;
use guard::AcceptedCut;
use redo_core::Cut;
use segment_core::{ReadFault, Segment};
use std::alloc::AllocError;

/// The truncation that an opening has accepted and taken next.
#[derive(Clone, Copy, Debug, PartialEq, Eq)]
pub struct CutPlan {
    pub cut: Cut,
    /// Whether an earlier engine has proposed it. The opening then goes on with the epoch after it.
    pub is_pending: bool,
}

/// The truncation of the next epoch that was accepted before.
fn pending(pair: &Option<AcceptedCut>, epoch: u16) -> Option<Cut>
    ensures some { IfSome result (IsPending pair.now epoch) }
    ensures none { IfNone result ((cut : CutData) → IsPending pair.now epoch cut → ⊥) }
{
    match pair {
        Some(pair) if pair.cut.epoch() - 1 == epoch => Some(pair.cut),
        _ => None,
    }
}

/// The number of the last record of page 0 at the union's complete point, or why there is none.
pub(crate) fn commit_point(union: &Segment, complete: u64) -> Result<Result<u64, Fault>, AllocError>
    ensures { IfOk result (FindsPoint union.now complete) }
{
    match union.read(0, complete) {
        Ok(page) => Ok(Ok(number_of(&page))),
        Err(why) => match why {
            ReadFault::Memory => Err(AllocError),
            _ => Ok(Err(Fault::Damaged)),
        },
    }
}

/// What comes next for a union, where this is the greatest accepted truncation.
pub(crate) fn plan_for(
    union: &Segment,
    pair: &Option<AcceptedCut>,
) -> Result<Result<CutPlan, Fault>, AllocError>
    ensures { IfOk result (MakesPlan union.now pair.now) }
{
    let front = union.front();
    if let Some(cut) = pending(pair, front.epoch) {
        return Ok(Ok(CutPlan {
            cut,
            is_pending: true,
        }));
    }
    match commit_point(union, front.complete)? {
        Ok(lo) => Ok(own_plan(front.epoch, lo, front.complete)),
        Err(fault) => Ok(Err(fault)),
    }
}

/// The truncation of the epoch after this one that annuls what is above a commit point. Its own numbers are above the complete point.
fn own_plan(epoch: u16, lo: u64, complete: u64) -> Result<CutPlan, Fault>
    ensures { IsOwnPlan epoch lo complete result }
{
    if epoch == u16::MAX {
        return Err(Fault::Full);
    }
    match Cut::new(epoch + 1, lo, complete) {
        Ok(cut) => Ok(CutPlan {
            cut,
            is_pending: false,
        }),
        Err(_) => Err(Fault::Damaged),
    }
}
