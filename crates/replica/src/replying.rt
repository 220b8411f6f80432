//! The reply for each result of a call below.
ghost use Rattle.std.specs.Prelude.{◌≡◌};
ghost use Rattle.replica.specs.Replying.{refusal_reply as refusal_reply_of, taken_reply as taken_reply_of, fault_reply as fault_reply_of};
ghost use Rattle.replica.specs.Replying.{read_reply as read_reply_of, tidied_reply as tidied_reply_of, delta_reply as delta_reply_of};
ghost use Rattle.replica.specs.Replying.{gap_reply as gap_reply_of};
ghost use Rattle.replica.specs.Replying.{absorbed_reply as absorbed_reply_of, unadded_reply as unadded_reply_of, unfinished_reply as unfinished_reply_of};

use crate::boxes::Boxed;
use crate::replies::Reply;
use gossip_core::AbsorbRefusal;
use messages::Delta;
use redo_core::{Fact, Page, Refused};
use segment_core::{Gap, ReadFault, Refusal, Taken};
use snapshot::{AddFault, FinishFault};

/// The reply for a refused fact: `Memory` for lack of memory, else `Refused` with the reason.
pub(crate) fn refusal_reply(refusal: Refusal) -> Reply
    ensures { result ≡ refusal_reply_of refusal }
{
    match refusal {
        Refusal::Memory => Reply::Memory,
        other => Reply::Refused { why: other },
    }
}

/// The reply for the result of a `take`: `Changed`, `Unchanged`, or that of the refusal. The fact is dropped.
pub(crate) fn taken_reply(taken: Result<Taken, Refused<Fact, Refusal>>) -> Reply
    ensures { result ≡ taken_reply_of taken }
{
    match taken {
        Ok(Taken::Changed) => Reply::Changed,
        Ok(Taken::Unchanged) => Reply::Unchanged,
        Err(refused) => refusal_reply(refused.fault),
    }
}

/// The reply for what the complete point waits for: `Gap`, or `NoGap` for None.
pub(crate) fn gap_reply(gap: Option<Gap>) -> Reply
    ensures { result ≡ gap_reply_of gap }
{
    match gap {
        Some(gap) => Reply::Gap { gap },
        None => Reply::NoGap,
    }
}

/// The reply for a failed read, fold, tidy or delta: one reply for each fault, with the same data.
pub(crate) fn fault_reply(fault: ReadFault) -> Reply
    ensures { result ≡ fault_reply_of fault }
{
    match fault {
        ReadFault::Below { min } => Reply::Below { min },
        ReadFault::Above { complete } => Reply::Above { complete },
        ReadFault::BrokenBlockChain { page, number } => Reply::BrokenBlockChain { page, number },
        ReadFault::Memory => Reply::Memory,
    }
}

/// The reply for the result of a read: `Page`, or that of the fault.
pub(crate) fn read_reply(read: Result<Page, ReadFault>) -> Reply
    ensures { result ≡ read_reply_of read }
{
    match read {
        Ok(image) => Reply::Page { image },
        Err(fault) => fault_reply(fault),
    }
}

/// The reply for the result of a tidy: `Tidied`, or that of the fault.
pub(crate) fn tidied_reply(tidied: Result<(), ReadFault>) -> Reply
    ensures { result ≡ tidied_reply_of tidied }
{
    match tidied {
        Ok(()) => Reply::Tidied,
        Err(fault) => fault_reply(fault),
    }
}

/// The reply for the result of an answer to a summary: `Delta`, or that of the fault.
pub(crate) fn delta_reply(replied: Result<Boxed<Delta>, ReadFault>) -> Reply
    ensures { result ≡ delta_reply_of replied }
{
    match replied {
        Ok(delta) => Reply::Delta { delta },
        Err(fault) => fault_reply(fault),
    }
}

/// The reply for the result of an absorb: `Absorbed`, `Uncovered` with what is uncovered, or that of the refusal.
pub(crate) fn absorbed_reply(absorbed: Result<(), AbsorbRefusal>) -> Reply
    ensures { result ≡ absorbed_reply_of absorbed }
{
    match absorbed {
        Ok(()) => Reply::Absorbed,
        Err(AbsorbRefusal::Uncovered { shown }) => Reply::Uncovered { shown },
        Err(AbsorbRefusal::Refused(why)) => refusal_reply(why),
    }
}

/// The reply for a piece that a staging refused: one reply for each fault, with the same data.
pub(crate) fn unadded_reply(fault: AddFault) -> Reply
    ensures { result ≡ unadded_reply_of fault }
{
    match fault {
        AddFault::Stranger => Reply::Stranger,
        AddFault::Double { index } => Reply::Double { index },
        AddFault::Memory => Reply::Memory,
    }
}

/// The reply for a staging that makes no segment: one reply for each fault, with the same data.
pub(crate) fn unfinished_reply(fault: FinishFault) -> Reply
    ensures { result ≡ unfinished_reply_of fault }
{
    match fault {
        FinishFault::Missing { index } => Reply::Missing { index },
        FinishFault::Malformed { index } => Reply::Malformed { index },
        FinishFault::Memory => Reply::Memory,
    }
}
