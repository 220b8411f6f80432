//! The laws of the fleet machine, and of the fleets that follow it.
ghost use Rattle.fleet_core.specs.Headline.{Headline, NodesCoverByParts};
ghost use Rattle.fleet_core.specs.Laws.{OneReply, OneRun, RunsGoOn, CallsGoOn, MessagesStay};

use log_theorems::{least_upper_bound, order_by_parts};
use segment_theorems::states_answer;

/// The main theorem: after any script over a sound log the replies are those of the machine, and each segment answers as the set of facts
/// that reached its node; and the meaning of a union is the least that is at or above both.
pub fn headline()
    ensures { Headline }
{
    states_answer();
    least_upper_bound();
}

/// Whether a node covers another one is replied by the order of parts of the log.
pub fn covers_by_parts()
    ensures { NodesCoverByParts }
{
    order_by_parts();
}

/// From given sets of facts of one sound log a step has one reply, lack of memory aside.
pub fn one_reply()
    ensures { OneReply }
{}

/// From given sets of facts of one sound log a script has one list of replies, lack of memory aside. So what a fleet answers
/// depends on nothing but its script.
pub fn one_run()
    ensures { OneRun }
{}

/// A run may be made step by step: a run with one step more is a run, whatever became of the replies before.
pub fn runs_go_on()
    ensures follows { RunsGoOn }
    ensures calls { CallsGoOn }
{}

/// A message stays for ever, whatever is asked, absorbed or wiped.
pub fn messages_stay()
    ensures { MessagesStay }
{}
