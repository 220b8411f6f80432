use crate::backlog::Backlog;
use crate::creating::Creating;
use crate::fencing::Fencing;
use crate::plans::CutPlan;
use guard::AcceptedCut;
use messages::Summary;
use redo_core::Cut;
use redo_writer::RedoWriter;
use segment_core::Segment;

/// What a volume is at.
#[derive(Drop)]
pub enum Phase {
    /// Nothing: it was never opened, or it ended without success, or another engine has fenced it.
    Idle,
    Creating(Creating),
    Fencing(Fencing),
    Opening(Opening),
    Open(Writing),
}

/// The engine's generation, and the nodes that answer it.
#[derive(Clone, Copy)]
pub struct Session {
    pub generation: u64,
    /// The birth of each node that was fenced or admitted under the generation.
    pub births: [Option<u64>; 15],
    /// The nodes whose facts make the union: the first quorum that was fenced.
    pub quorum: [bool; 15],
}

/// An opening after a quorum is fenced.
#[derive(Drop)]
pub struct Opening {
    pub session: Session,
    /// The greatest accepted truncation in the quorum.
    pub pair: Option<AcceptedCut>,
    /// The births of the fresh nodes that this opening may admit and has not yet.
    pub fresh: [Option<u64>; 15],
    /// What the nodes of the quorum have together, as far as they have answered.
    pub union: Segment,
    /// The summary of a segment that nothing has reached: a fresh node gets all that the union has.
    pub summary: Summary,
    /// The summary of the union when the first node of the quorum had answered. The others are asked for what they have beyond it.
    pub asked: Option<Summary>,
    pub stage: Stage,
}

/// How far an opening has come.
#[derive(Clone, Copy)]
pub enum Stage {
    /// The nodes in `left` have not answered what they have.
    Pulling { left: [bool; 15] },
    /// The nodes in `known` have what the union has, up to the plan's `lo`.
    Spreading { plan: CutPlan, known: [bool; 15] },
    /// The nodes in `accepted` have accepted the plan.
    Proposing { plan: CutPlan, accepted: [bool; 15] },
    /// The nodes in `reported` have the plan's epoch.
    Taking { plan: CutPlan, reported: [bool; 15] },
}

/// An open volume.
#[derive(Drop)]
pub struct Writing {
    pub session: Session,
    /// The truncation that began the epoch.
    pub cut: Cut,
    pub writer: RedoWriter,
    /// The records that are not durable yet.
    pub backlog: Backlog,
    /// The greatest complete point that each node has reported in the epoch.
    pub reached: [u64; 15],
    /// The last durable commit point.
    pub durable: u64,
}
