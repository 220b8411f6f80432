//! The laws of a cluster: any number of replicas, between which a network carries what they reply.
//!
//! A run is a list of turns, each of one node. The network is free: a delta may be absorbed late, twice or never, and at another node than
//! the one whose summary it answers; and the pieces of a snapshot may be added so too. All that is asked is that nothing is made up: what
//! is absorbed or added was replied by some node earlier in the run, what is taken is a fact of one sound log, and the pieces that make a
//! segment are of snapshots of the same facts (`specs/Carrying`). Then each node means exactly the facts that have reached it, and replies
//! as these do (`specs/Following`); and so do guarded nodes on streams of lines or frames, whatever engines ask of them, and however their
//! turns are interleaved (`specs/Streams`). A node that is lost is one that has no more turns, and one that comes back from its files is
//! another node of the run.
#![tactic(auto)]

ghost use Rattle.cluster_theorems.specs.Following.{ClusterFollows, SameReplies, OpenedIsEmpty};
ghost use Rattle.cluster_theorems.specs.Naming.{NamesSuffice};
ghost use Rattle.cluster_theorems.specs.Streams.{StreamsFollow};

use node_stream::laws::{answers_run, frames_run};
use segment_theorems::states_answer;

/// After any run each node answers as the set of facts that has reached it, and each reply of the run is that of the facts that had
/// reached its node by then.
pub fn cluster_follows()
    ensures { ClusterFollows }
{
    states_answer();
}

/// Nodes that the same facts have reached reply the same to a front and to a read, lack of memory aside.
pub fn same_replies()
    ensures { SameReplies }
{}

/// A node that was opened for a roster before anything had reached it is one that a run may begin with.
pub fn opened_is_empty()
    ensures { OpenedIsEmpty }
{}

/// Names of their own for snapshots of different facts keep the pieces of different ones out of each staging.
pub fn names_suffice()
    ensures { NamesSuffice }
{}

/// The answers to lines and to frames are such a run's: guarded nodes on streams, whose replicas' turns are interleaved in any order.
pub fn streams_follow()
    ensures { StreamsFollow }
{
    answers_run();
    frames_run();
    states_answer();
}
