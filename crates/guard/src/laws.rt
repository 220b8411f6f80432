//! What holds of a guard whatever it is asked.
//!
//! `steps_keep`, `runs_keep`: no request changes the birth, takes the membership back, or lowers the generation of a member.
//! `steps_rise`, `runs_rise`: the accepted truncation only rises, by generation and then by epoch, so of one generation by epoch; over a
//! series of requests where no admission brings one of a generation above its own.
//! `fresh_stays`: a node that is no member has generation 0 and no accepted truncation, over such a series.
//! `plain_runs`: while no engine has admitted the node, the guard answers plain requests just as its replica alone would, and the
//! replica is all that they change.
ghost use Rattle.guard.specs.Keeping.{StepsKeep, StepsRise, RunsKeep, RunsRise, FreshStays};
ghost use Rattle.guard.specs.Plainly.{PlainRuns};

/// What a request never takes back.
pub fn steps_keep()
    ensures { StepsKeep }
{}

/// What no series of requests takes back.
pub fn runs_keep()
    ensures { RunsKeep }
{}

/// A request leaves the accepted truncation, or replaces it by one of the same or a later epoch, or of a later generation.
pub fn steps_rise()
    ensures { StepsRise }
{}

/// So does any series of requests to a guard that was fresh once.
pub fn runs_rise()
    ensures { RunsRise }
{}

/// A guard that was fresh once has generation 0 and no accepted truncation while it is no member.
pub fn fresh_stays()
    ensures { FreshStays }
{}

/// A guard that is no member runs through plain requests exactly as its replica alone runs through them.
pub fn plain_runs()
    ensures { PlainRuns }
{}
