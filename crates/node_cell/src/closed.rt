ghost use Rattle.std.specs.Prelude.{◌≡◌, IfErr, OnOk};
ghost use Rattle.node_cell.specs.Kept.{MeansTrail};
ghost use Rattle.node_cell.specs.Settling.{AllStand, IsFirstStranger};

use crate::answers::Stranger;
use crate::kept::Kept;
use crate::receipts::Receipt;
use named_log::LogName;
use node_lock::FinalState;
use segment_core::Segment;
use std::marker::Model;

/// What a node had when it was closed: its segment means a part of the log that has every fact of its trail.
#[derive(Drop)]
pub struct Closed<L: LogName> {
    last: FinalState<Kept<L>>,
}

impl<L: LogName> Model for Closed<L> {
    ghost use Rattle.node_cell.specs.Kept.{ClosedData};

    ghost Value = { ClosedData };

    ghost view = { λ c. record { lock = c.last.lock; segment = c.last.state.segment; trail = c.last.state.trail } };
}

impl<L: LogName> Closed<L> {
    pub(crate) fn new(last: FinalState<Kept<L>>) -> Self
        ensures { result ≡ record { lock = last.lock; segment = last.state.segment; trail = last.state.trail } }
    {
        Closed { last }
    }

    pub fn segment(&self) -> &Segment
        ensures value { result.now ≡ self.now.segment }
        ensures keeps { MeansTrail L.roster L.log result.now self.now.trail }
    {
        self.last.state().segment()
    }

    /// Of each acknowledged fact the number of the pass that brought it, and its place in the log.
    pub fn trail(&self) -> &[(u64, u64)]
        ensures { result.now ≡ self.now.trail }
    {
        self.last.state().trail()
    }
}

/// Looks for the fact of each receipt at its place in the trail. The error shows what is at the place of the first receipt whose fact
/// is not there.
pub fn settle<L: LogName>(closed: &Closed<L>, receipts: &[Receipt<L>]) -> Result<(), Stranger>
    ensures ok { OnOk result (AllStand closed.now.trail receipts.now) }
    ensures err { IfErr result (λ e. IsFirstStranger closed.now.trail receipts.now e.found) }
{
    for receipt in receipts {
        closed.last.state().seek(receipt)?;
    }
    Ok(())
}
