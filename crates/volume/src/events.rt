use redo_core::Patch;

/// What happens to a volume: a call of its engine, or something that comes from a node. Nodes have the numbers from 0.
#[derive(Drop)]
pub enum Event {
    /// Make a new volume of nodes that are all fresh. A machine creates at most once, and before it opens.
    Create,
    /// Open the volume under a generation, above that of each earlier opening by this machine.
    Open {
        generation: u64,
    },
    /// Patch a page above page 0, in its first 4,088 bytes. With `init` the page is all zeros before.
    Write {
        page: u16,
        init: bool,
        patches: Vec<Patch>,
    },
    /// End a mini-transaction. The header has up to 1,024 bytes of the engine's own.
    Commit {
        header: Vec<u8>,
    },
    /// A reader reads nothing below a point any more.
    Advance {
        reader: u8,
        point: u64,
    },
    /// A node has replied to a request.
    Answered {
        node: u8,
        reply: guard::Reply,
    },
    /// The connection to a node broke: whether the node has executed what it was asked is unknown.
    Failed {
        node: u8,
    },
}
