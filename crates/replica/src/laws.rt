//! What the replies of a replica mean for the facts of one sound log.
//!
//! `step_means`: whatever facts of the log the segment means, after a request it means those after it (`facts_after`): with the fact
//! that was taken, with those of an absorbed delta, none after it was opened, those of the snapshot after a staging was finished, and
//! else the same. `runs_mean`: so it is after any series of requests. `restart_means`: the pieces of a snapshot, added in any order and
//! with repeats, and then what has come since, make a replica that means what the snapshot's segment meant and what has come since.
ghost use Rattle.replica.specs.Meaning.{StepMeans, RunsMean};
ghost use Rattle.replica.specs.Restarting.{RestartMeans};

/// After a request the segment means the facts after it.
pub fn step_means()
    ensures { StepMeans }
{}

/// After any series of requests it means the facts after them.
pub fn runs_mean()
    ensures { RunsMean }
{}

/// A replica that is put together from the pieces of a snapshot, and then takes what has come since, means what the lost one meant
/// when the snapshot was made, and what has come since.
pub fn restart_means()
    ensures { RestartMeans }
{}
