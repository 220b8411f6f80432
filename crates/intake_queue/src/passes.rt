//! What the senders and the taker of an intake hold.
ghost use Rattle.std.specs.Prelude.{◌≡◌, ◌+◌, ◌↔◌, ◌^◌, length, IfOk, IfErr, IsErr};
ghost use Rattle.intake_queue.specs.Ends.{next_parcel};

use crate::parcel::Parcel;
use crate::rule::PassView;
use crossbeam_queue::Pass;
use named_log::{LogFact, LogName};
use redo_core::Refused;
use std::marker::Model;

/// The sender has used up its numbers.
#[derive(Debug, Clone, Copy, PartialEq, Eq)]
pub struct UsedUp;

/// What one sender of an intake holds: its number, and how many of its offers were accepted. Contracts see those offers.
#[derive(Drop)]
pub struct SenderPass<L: LogName> {
    pub(crate) number: u64,
    pub(crate) accepted: u64,
    pub(crate) pass: Pass<Parcel<L>, PassView>,
}

// The pass is a sender's, and the two fields are what it knows.
impl<L: LogName> Model for SenderPass<L> {
    ghost use Rattle.std.specs.Prelude.{◌≡◌, [], length};
    ghost use Rattle.crossbeam_queue.specs.Passes.{view as known};
    ghost use Rattle.intake_queue.specs.Known.{sender};
    ghost use Rattle.intake_queue.specs.Ends.{SenderData};

    ghost Value = { SenderData };

    ghost view = { λ s. record {
      intake = s.pass.table_id;
      number = s.number;
      senders = (known s.pass).senders;
      accepted = (known s.pass).accepted;
      heard = (known s.pass).taken_count;
    } };

    ghost invariant = { λ s. (s.pass.me.1 ≡ []) × (known s.pass ≡ sender s.number (known s.pass).senders (known s.pass).accepted (known s.pass).taken_count)
        × (length (known s.pass).accepted ≡ s.accepted) };
}

impl<L: LogName> SenderPass<L> {
    /// The sender's next parcel, with this fact. It is refused only past number 2^64 - 1, and then hands the fact back.
    pub fn parcel(&self, fact: LogFact<L>) -> Result<Parcel<L>, Refused<LogFact<L>, UsedUp>>
        ensures ok { IfOk result (λ p. p ≡ next_parcel self.now fact) }
        ensures err { IfErr result (λ r. r.value ≡ fact) }
        ensures used_up { IsErr result ↔ (length self.now.accepted + 1 ≡ 2 ^ 64) }
    {
        match self.accepted.checked_add(1) {
            Some(number) => Ok(Parcel::new(self.number, number, fact)),
            None => Err(Refused {
                value: fact,
                fault: UsedUp,
            }),
        }
    }
}

/// What the one taker of an intake holds. Contracts see what it took.
#[derive(Drop)]
pub struct TakerPass<L: LogName> {
    pub(crate) pass: Pass<Parcel<L>, PassView>,
}

impl<L: LogName> Model for TakerPass<L> {
    ghost use Rattle.std.specs.Prelude.{◌≡◌, []};
    ghost use Rattle.crossbeam_queue.specs.Passes.{view as known};
    ghost use Rattle.intake_queue.specs.Known.{IsTaker};
    ghost use Rattle.intake_queue.specs.Ends.{TakerData};

    ghost Value = { TakerData };

    ghost view = { λ t. record {
      intake = t.pass.table_id;
      senders = (known t.pass).senders;
      taken = (known t.pass).taken;
      heard = (known t.pass).accepted_counts;
    } };

    ghost invariant = { λ t. (t.pass.me.1 ≡ []) × IsTaker (known t.pass) };
}
