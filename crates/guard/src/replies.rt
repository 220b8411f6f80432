use crate::requests::AcceptedCut;
use segment_core::Front;

/// What a guard replies to a request. Each reply to an engine names the generation and the birth that it answers for.
#[derive(Drop)]
pub enum Reply {
    /// What the node is, and how far its segment has come.
    Status {
        generation: u64,
        birth: u64,
        is_member: bool,
        front: Front,
        accepted: Option<AcceptedCut>,
    },
    /// The node has this generation.
    Fenced {
        generation: u64,
        birth: u64,
        accepted: Option<AcceptedCut>,
    },
    /// The node is a member. It has this generation, and executes nothing for another one, for another birth, or for an older proposal.
    Stale(u64),
    /// The node is no member; this is its birth.
    Fresh(u64),
    /// What the replica replied to a request under a generation.
    Headed {
        generation: u64,
        birth: u64,
        reply: replica::Reply,
    },
    /// The node has accepted the truncation of this epoch.
    Accepted {
        generation: u64,
        birth: u64,
        epoch: u16,
    },
    /// The node is a member, of this generation.
    Admitted {
        generation: u64,
        birth: u64,
    },
    /// The node is a member: it is not admitted again, and its segment is not replaced.
    Member,
    /// The node is fresh, and this is its birth.
    Stranger(u64),
    /// The node is fresh, and its front is not the one that an admission asks for.
    Behind {
        epoch: u16,
        complete: u64,
    },
    /// No engine may ask this under a generation: it would replace the segment, or it fills or uses the staging.
    Unguarded,
    /// What the replica replied to a plain request.
    Plain(replica::Reply),
}
