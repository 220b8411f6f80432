//! How the senders of an intake are made.
ghost use Rattle.std.specs.Prelude.{◌≡◌, [], IfOk};
ghost use Rattle.crossbeam_queue.specs.Passes.{view, IsPassOf};
ghost use Rattle.intake_queue.specs.Known.{taker};
ghost use Rattle.intake_queue.specs.Ends.{AreNewSenders};

use crate::intake::Line;
use crate::parcel::Parcel;
use crate::passes::SenderPass;
use crate::rule::{Counts, Opens, PassView};
use crossbeam_queue::Pass;
use named_log::LogName;
use std::alloc::{AllocError, Global};

// So many senders, numbered from 1.
pub(crate) fn make_senders<L: LogName>(
    alloc: Global,
    line: &Line<L>,
    pass: &mut Pass<Parcel<L>, PassView>,
    senders: usize,
) -> Result<Vec<SenderPass<L>>, AllocError>
    requires own { IsPassOf line.now pass.old }
    requires first { view pass.old ≡ taker [] 0 0 [] [] }
    ensures own { IsPassOf line.now pass.new }
    ensures known { IfOk result (λ _. view pass.new ≡ taker [] senders senders [] []) }
    ensures made { IfOk result (λ made. AreNewSenders line.now.table.shared.table_id senders senders made.items) }
{
    count_senders(line, pass, senders);
    let mut made = Vec::with_capacity(alloc, senders)?;
    for before in 0..senders {
        let own = line.another::<Opens>(pass);
        made.push(SenderPass {
            number: before as u64 + 1,
            accepted: 0,
            pass: own,
        })?;
    }
    Ok(made)
}

// The taker learns how many senders there will be.
fn count_senders<L: LogName>(line: &Line<L>, pass: &mut Pass<Parcel<L>, PassView>, senders: usize)
    requires own { IsPassOf line.now pass.old }
    requires first { view pass.old ≡ taker [] 0 0 [] [] }
    ensures own { IsPassOf line.now pass.new }
    ensures known { view pass.new ≡ taker [] senders 0 [] [] }
{
    for counted in 0..senders {
        line.another::<Counts>(pass);
    }
}
