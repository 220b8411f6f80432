ghost use Rattle.std.specs.Prelude.{◌≡◌, IfOk};
ghost use Rattle.node_cell.specs.Gossiping.{IsMail};

use messages::{Delta, Summary};
use named_log::LogName;
use std::alloc::AllocError;
use std::marker::{Model, PhantomData};

/// What a node answered to a summary: the summary, and a delta with what the node's part of the log had beyond it.
#[derive(Drop)]
pub struct Mail<L: LogName> {
    summary: Summary,
    delta: Delta,
    of: PhantomData<L>,
}

impl<L: LogName> Model for Mail<L> {
    ghost use Rattle.node_cell.specs.Gossiping.{MailData, IsMail};

    ghost Value = { MailData };

    ghost view = { λ m. record { summary = m.summary; delta = m.delta } };

    ghost invariant = { λ m. IsMail L.roster L.log (record { summary = m.summary; delta = m.delta }) };
}

impl<L: LogName> Mail<L> {
    pub(crate) fn new(summary: Summary, delta: Delta) -> Self
        requires { IsMail L.roster L.log (record { summary = summary; delta = delta }) }
        ensures { result ≡ record { summary = summary; delta = delta } }
    {
        Mail {
            summary,
            delta,
            of: PhantomData,
        }
    }

    /// An equal mail, which shares the pages. It fails only if memory runs out.
    pub fn copy(&self) -> Result<Mail<L>, AllocError>
        ensures { IfOk result (λ mail. mail ≡ self.now) }
    {
        Ok(Mail {
            summary: self.summary.copy()?,
            delta: self.delta.copy()?,
            of: PhantomData,
        })
    }

    /// The summary that the delta was made for.
    pub fn summary(&self) -> &Summary
        ensures value { result.now ≡ self.now.summary }
        ensures own { IsMail L.roster L.log self.now }
    {
        &self.summary
    }

    pub fn delta(&self) -> &Delta
        ensures value { result.now ≡ self.now.delta }
        ensures own { IsMail L.roster L.log self.now }
    {
        &self.delta
    }
}
