//! How what a segment answers is replied.
ghost use Rattle.std.specs.Prelude.{◌≡◌};
ghost use Rattle.fleet_core.specs.Replying.{taken_reply as taken_reply_of, refusal_reply as refusal_reply_of, read_reply as read_reply_of};
ghost use Rattle.fleet_core.specs.Replying.{fault_reply as fault_reply_of, joined_reply as joined_reply_of, absorbed_reply as absorbed_reply_of};

use crate::replies::Reply;
use gossip_core::AbsorbRefusal;
use redo_core::{Fact, Page, Refused};
use segment_core::{ReadFault, Refusal, Taken};

pub(crate) fn taken_reply(taken: Result<Taken, Refused<Fact, Refusal>>) -> Reply
    ensures { result ≡ taken_reply_of taken }
{
    match taken {
        Ok(Taken::Changed) => Reply::Changed,
        Ok(Taken::Unchanged) => Reply::Unchanged,
        Err(refused) => refusal_reply(refused.fault),
    }
}

pub(crate) fn refusal_reply(refusal: Refusal) -> Reply
    ensures { result ≡ refusal_reply_of refusal }
{
    match refusal {
        Refusal::Memory => Reply::Memory,
        other => Reply::Refused(other),
    }
}

pub(crate) fn read_reply(read: Result<Page, ReadFault>) -> Reply
    ensures { result ≡ read_reply_of read }
{
    match read {
        Ok(image) => Reply::Page(image),
        Err(fault) => fault_reply(fault),
    }
}

pub(crate) fn fault_reply(fault: ReadFault) -> Reply
    ensures { result ≡ fault_reply_of fault }
{
    match fault {
        ReadFault::Below { min } => Reply::Below(min),
        ReadFault::Above { complete } => Reply::Above(complete),
        ReadFault::BrokenBlockChain { page, number } => Reply::BrokenBlockChain { page, number },
        ReadFault::Memory => Reply::Memory,
    }
}

pub(crate) fn joined_reply(joined: Result<(), Refusal>) -> Reply
    ensures { result ≡ joined_reply_of joined }
{
    match joined {
        Ok(()) => Reply::Joined,
        Err(refusal) => refusal_reply(refusal),
    }
}

pub(crate) fn absorbed_reply(absorbed: Result<(), AbsorbRefusal>) -> Reply
    ensures { result ≡ absorbed_reply_of absorbed }
{
    match absorbed {
        Ok(()) => Reply::Absorbed,
        Err(AbsorbRefusal::Uncovered { shown }) => Reply::Uncovered(shown),
        Err(AbsorbRefusal::Refused(why)) => refusal_reply(why),
    }
}
