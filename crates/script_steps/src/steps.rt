ghost use Rattle.std.specs.Prelude.{◌≡◌, Ok, Err, IfOk, IfErr, ⊤};
ghost use Rattle.script_steps.specs.Nodes.{node_of, other_of, nodes_of, first_missing};
ghost use Rattle.script_steps.specs.Naming.{NamedIs, SameBut};

use std::alloc::AllocError;

/// A step of a script. Nodes are counted from 1; a step may name one that its fleet does not have.
/// `F` is what a take names: a fact, or a fact's index.
#[derive(Copy, Debug, Drop)]
pub enum Step<F> {
    /// A fact reaches a node.
    Take {
        node: u16,
        fact: F,
    },
    /// A node folds a page to its anchor.
    Fold {
        node: u16,
        page: u16,
    },
    /// A node drops the records that it has folded.
    Discard {
        node: u16,
    },
    /// A node is asked for its front.
    Front {
        node: u16,
    },
    /// A node is asked for a page at a read point; the answer yields `len` of its bytes from `offset` on.
    Read {
        node: u16,
        page: u16,
        point: u64,
        offset: u16,
        len: u16,
    },
    /// What another node means is brought into a node. The two may be one.
    Join {
        node: u16,
        from: u16,
    },
    /// A node is asked whether it and another one mean the same.
    Same {
        node: u16,
        other: u16,
    },
    /// A node is asked whether what it means covers what another one means.
    Covers {
        node: u16,
        other: u16,
    },
    /// A node drops all that reached it.
    Wipe {
        node: u16,
    },
    /// A node is asked what it has: that makes a message, which any node may answer. Messages are counted from 1.
    Ask {
        node: u16,
    },
    /// A node answers a message that was made by asking: that makes another message, which any node may absorb.
    Answer {
        node: u16,
        message: usize,
    },
    /// A node absorbs the message of an answer.
    Absorb {
        node: u16,
        message: usize,
    },
}

// Written out: derived, it has a case for each form, and takes a quarter of this crate's proof time.
impl<F: Copy> Clone for Step<F> {
    ghost is_clone = { λ step copied. copied ≡ step };

    ghost is_infallible = { λ _. ⊤ };

    fn clone(&self) -> Result<Self, AllocError> {
        Ok(*self)
    }
}

impl<F> Step<F> {
    /// The node that carries out the step: the first that it names.
    pub fn node(&self) -> u16
        ensures { result ≡ node_of self.now }
    {
        match self {
            Step::Take { node, .. }
            | Step::Fold { node, .. }
            | Step::Discard { node }
            | Step::Front { node }
            | Step::Read { node, .. }
            | Step::Join { node, .. }
            | Step::Same { node, .. }
            | Step::Covers { node, .. }
            | Step::Wipe { node }
            | Step::Ask { node }
            | Step::Answer { node, .. }
            | Step::Absorb { node, .. } => *node,
        }
    }

    /// The other node that the step reads: the last that it names.
    pub fn other(&self) -> u16
        ensures { result ≡ other_of self.now }
    {
        match self {
            Step::Join { from, .. } => *from,
            Step::Same { other, .. } | Step::Covers { other, .. } => *other,
            _ => self.node(),
        }
    }

    /// The first node that the step names and that is not among nodes 1 to `nodes`.
    pub fn missing(&self, nodes: usize) -> Option<u16>
        ensures { result ≡ first_missing nodes (nodes_of self.now) }
    {
        let node = self.node();
        if node == 0 || usize::from(node) > nodes {
            return Some(node);
        }
        let other = self.other();
        if other == 0 || usize::from(other) > nodes {
            return Some(other);
        }
        None
    }

    /// The same step, with the result of `name` in place of what a take names. The error is that of `name`.
    pub fn naming<G, E, N: FnOnce(F) -> Result<G, E>>(self, name: N) -> Result<Step<G>, E>
        requires { NamedIs (N.pre name) self }
        ensures ok { IfOk result (SameBut (λ f g. N.post name f (Ok g)) self) }
        ensures err { IfErr result (λ e. (f : F) × N.post name f (Err e)) }
    {
        match self {
            Step::Take { node, fact } => {
                let fact = name(fact)?;
                Ok(Step::Take { node, fact })
            }
            Step::Fold { node, page } => Ok(Step::Fold { node, page }),
            Step::Discard { node } => Ok(Step::Discard { node }),
            Step::Front { node } => Ok(Step::Front { node }),
            Step::Read {
                node,
                page,
                point,
                offset,
                len,
            } => Ok(Step::Read {
                node,
                page,
                point,
                offset,
                len,
            }),
            Step::Join { node, from } => Ok(Step::Join { node, from }),
            Step::Same { node, other } => Ok(Step::Same { node, other }),
            Step::Covers { node, other } => Ok(Step::Covers { node, other }),
            Step::Wipe { node } => Ok(Step::Wipe { node }),
            Step::Ask { node } => Ok(Step::Ask { node }),
            Step::Answer { node, message } => Ok(Step::Answer { node, message }),
            Step::Absorb { node, message } => Ok(Step::Absorb { node, message }),
        }
    }
}
