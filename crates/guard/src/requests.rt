use redo_core::Cut;

/// A truncation that a node has accepted, and the generation that proposed it.
#[derive(Clone, Copy, Debug, PartialEq, Eq)]
pub struct AcceptedCut {
    pub generation: u64,
    pub cut: Cut,
}

/// What makes a fresh node a member, and what the node must be and have reached.
#[derive(Clone, Copy, Debug, PartialEq, Eq)]
pub struct Admission {
    /// The generation of the node as a member.
    pub generation: u64,
    /// The birth that the node must have.
    pub birth: u64,
    /// The complete epoch that the node must have.
    pub epoch: u16,
    /// The least complete point that the node must have reached.
    pub complete: u64,
    /// The accepted truncation of the node as a member.
    pub accepted: Option<AcceptedCut>,
}

/// A request to a guard.
#[derive(Drop)]
pub enum Request {
    /// The generation, the birth, the membership, the front and the accepted truncation.
    Status,
    /// Raise the generation to this one.
    Fence {
        generation: u64,
    },
    /// Carry out a request for the engine of this generation, if this is the birth of the node.
    As {
        generation: u64,
        birth: u64,
        request: replica::Request,
    },
    /// Accept a truncation from the engine of this generation, if this is the birth of the node.
    Propose {
        generation: u64,
        birth: u64,
        cut: Cut,
    },
    /// Make a fresh node a member.
    Admit(Admission),
    /// Carry out a request that no engine asks under its generation.
    Plain(replica::Request),
}
