use gossip_core::Shown;
use redo_core::Page;
use segment_core::{Front, Refusal};

/// The reply to a step.
#[derive(Drop)]
pub enum Reply {
    /// The fact changed the node's meaning.
    Changed,
    /// The node means what it meant before.
    Unchanged,
    /// The page's image is that of the node's anchor. The node means what it meant before.
    Folded,
    /// What was folded is forgotten. The node means what it meant before.
    Discarded,
    Front(Front),
    Page(Page),
    /// The read point is below the minimum read point, which is shown.
    Below(u64),
    /// The read point is above the complete point, which is shown.
    Above(u64),
    /// The node means what it meant and what the other one means.
    Joined,
    /// Whether two nodes mean the same, or whether what the one means covers what the other means.
    Answer(bool),
    /// The node means no facts.
    Wiped,
    /// A message was made, which has this number.
    Message(usize),
    /// The node means what it meant and what the answering node meant.
    Absorbed,
    /// The node does not answer for the summary of the asking node: so much of it is uncovered.
    Uncovered(Shown),
    /// There is no such message, or it is not one that the step can use: only what was asked is answered, only answers are absorbed.
    NoMessage(usize),
    /// There is no such node.
    NoNode(u16),
    /// The fact, or what the other node knows, contradicts what the node knows. It does not come over a sound log.
    Refused(Refusal),
    /// The block chain of the page is broken at this number. It does not come over a sound log.
    BrokenBlockChain { page: u16, number: u64 },
    /// There was no memory. The step counts as not having come.
    Memory,
}
