//! The fleet: some segments, the messages that were made of them, and scripts of steps for them.
//!
//! The fleet machine of `specs/Machine` knows, for each node, only the set of facts that reached it, and for each message the sets
//! that it speaks of; `specs/Replies` reads each reply off those sets. For every list of steps whose facts are of one sound log,
//! `Fleet::run` gives the machine's replies, whatever the segments keep of those facts (`specs/Runs`); so does `Fleet::step` one step
//! at a time (`laws::runs_go_on`). A fold or a discard changes none of the sets, so it shows in no later reply; a join makes a node's
//! set the union with another node's, and two nodes are compared by what their sets mean. A node that is asked makes a message of its
//! set, and one that answers a message of that and its own; an absorb makes a node's set the union with the answering node's exactly
//! where it answers for the summary of the asking node's, and otherwise reports what of that is uncovered. Messages stay for ever, whatever
//! becomes of the nodes that made them, and each may be used any number of times. For any facts, sound or not, each reply and each new state is that
//! of the segments' call, and the other nodes stay as they were (`specs/Calls`, `specs/MessageCalls`).
#![tactic(auto)]

mod asking;
mod fleets;
pub mod laws;
mod making;
mod pairs;
mod replies;
mod replying;
mod taking;

pub use fleets::Fleet;
pub use making::Made;
pub use replies::Reply;
pub use script_steps::Step;
