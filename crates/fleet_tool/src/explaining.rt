//! Why a text names a bad line, or a fault of its log.

ghost use Rattle.std.specs.Prelude.{◌≡◌, true, IfOk, MatchOption};
ghost use Rattle.redo_core.specs.Sound.{IsSound};
ghost use Rattle.log_law.specs.Report.{Reports};
ghost use Rattle.script_text.specs.Script.{rostered};
ghost use Rattle.fleet_tool.specs.Explaining.{IsUnsoundReason};

use log_law::{Breach, breach_of};
use redo_core::{Fact, LawFault, Roster};
use script_text::TextReason;
use std::alloc::{AllocError, Global};
use thiserror::Error;

/// Why the answer to a text names a bad line or a fault.
#[derive(Clone, Copy, Debug, PartialEq, Eq, Error)]
pub enum Reason {
    /// The number of the bad line, from 1, and why it is bad.
    #[error("line {at}: {reason}")]
    BadLine { at: usize, reason: TextReason },
    /// The first fault of the log, its index counted from 1, and the evidence of how the fact breaks its law.
    #[error("fact {} breaks law {}: {breach}", fault.place, fault.law.number())]
    Unsound { fault: LawFault, breach: Breach },
}

/// The evidence of how the log's first fault breaks its law, where a reason is sought. Fails only if memory runs out.
pub(crate) fn fault_reason(
    alloc: Global,
    explains: bool,
    facts: &[Fact],
    roster: Roster,
    fault: LawFault,
) -> Result<Option<Reason>, AllocError>
    requires { Reports roster facts.now fault }
    ensures { explains ≡ true → IfOk result (λ found. MatchOption found (IsSound roster facts.now) (IsUnsoundReason (rostered roster facts.now))) }
{
    if !explains {
        return Ok(None);
    }
    match breach_of(alloc, facts, roster, fault)? {
        Some(breach) => Ok(Some(Reason::Unsound { fault, breach })),
        None => Ok(None),
    }
}
