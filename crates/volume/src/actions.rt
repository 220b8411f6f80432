use redo_core::ShapeFault;
use std::fmt;
use thiserror::Error;

/// What follows from an event.
#[derive(Drop)]
pub enum Action {
    /// Send a request to a node. Requests to one node are sent in this order.
    Ask {
        node: u8,
        request: guard::Request,
    },
    /// All nodes are members of a new volume, which an engine may open.
    Created,
    /// The volume is open. All up to the commit point is durable, and the header is that of its last commit.
    Opened {
        epoch: u16,
        commit_point: u64,
        header: Vec<u8>,
    },
    /// The mini-transaction that the event ends has this commit point. It is not durable yet.
    Committed {
        commit_point: u64,
    },
    /// All up to the commit point is durable.
    Durable {
        commit_point: u64,
    },
    /// The event is refused, or an opening or a creation has ended without success.
    Refused {
        fault: Fault,
    },
}

/// Why an event is refused, or why an opening or a creation has ended.
#[derive(Clone, Copy, Debug, PartialEq, Eq, Error)]
pub enum Fault {
    /// A node has this generation, which is above the machine's; or the machine has opened under this generation before.
    Fenced { generation: u64 },
    /// Of the nodes, `have` can be part of a quorum, which takes `need`.
    NoQuorum { have: u8, need: u8 },
    /// The volume is not open.
    NotOpen,
    /// The point is above the last durable commit point.
    Ahead { durable: u64 },
    /// No number or no epoch is left.
    Full,
    /// A node is a member, or was started again in between; or this machine has created or opened before.
    NotFresh,
    /// Page 0, or the last 8 bytes of a page, are the volume's own.
    Reserved,
    /// The header has more than 1,024 bytes.
    LongHeader,
    /// What the nodes have is not the log of one volume.
    Damaged,
    /// A fault of the shape of a record or an advance.
    Shape(ShapeFault),
}

impl fmt::Display for Fault {
    fn fmt<W: fmt::Write>(&self, f: &mut fmt::Formatter<W>) -> fmt::Result {
        match self {
            Fault::Fenced { generation } => write!(f, "fenced by generation {generation}"),
            Fault::NoQuorum { have, need } => write!(
                f,
                "only {have} nodes can be part of a quorum of {need}"
            ),
            Fault::NotOpen => f.write_str("the volume is not open"),
            Fault::Ahead { durable } => write!(f, "durable only up to {durable}"),
            Fault::Full => f.write_str("no LSN or epoch is left"),
            Fault::NotFresh => f.write_str("a node is not fresh"),
            Fault::Reserved => f.write_str("the volume reserves these bytes"),
            Fault::LongHeader => f.write_str("the header has more than 1,024 bytes"),
            Fault::Damaged => f.write_str("the nodes do not store the log of one volume"),
            Fault::Shape(fault) => write!(f, "{fault}"),
        }
    }
}
