ghost use Rattle.std.specs.Prelude.{◌≡◌, ◌≤◌, ◌++◌, ◌∷◌, [], None, IfOk, OnOk, map};
ghost use Rattle.volume.specs.Asking.{takes_and_reports, admission, asks_of, asks_from, asks_at, queries_from, query_to, request_of_query};
ghost use Rattle.replica.specs.declared.requests.Request.TheVariants.{Absorb as AbsorbOf};
ghost use Rattle.guard.specs.declared.requests.Request.TheVariants.{As as AsOf};
ghost use Rattle.volume.specs.declared.actions.Action.TheVariants.{Ask as AsksNode};

use crate::actions::Action;
use guard::{AcceptedCut, Admission, Request};
use messages::{Delta, Summary};
use redo_core::{Advance, Cut, Fact, Record};
use replica::{Boxed, Request as SegmentRequest};
use std::alloc::{AllocError, Global};

/// What an engine asks of a node under its generation, in the birth that it knows of the node.
#[derive(Drop)]
pub enum Errand {
    /// What the node has beyond a summary.
    Pull(Summary),
    /// The node's summary.
    Ask,
    /// Absorb what another segment has beyond the node's summary, then report the front.
    Push(Summary, Delta),
    /// Accept a truncation.
    Propose(Cut),
    /// Take a truncation, then report the front.
    Begin(Cut),
    /// Take a record.
    Store(Record),
    /// Take the last record of a mini-transaction, then report the front.
    Close(Record),
    /// Take an advance.
    Raise(Advance),
    /// Report the front.
    Report,
    /// Become a member of a new volume.
    Found,
    /// Absorb what a segment has, then become a member.
    Join(Summary, Delta, Joining),
}

/// What a fresh node must have reached to become a member, and the accepted truncation that it then has.
#[derive(Clone, Copy, Debug, PartialEq, Eq)]
pub struct Joining {
    pub epoch: u16,
    pub complete: u64,
    pub accepted: Option<AcceptedCut>,
}

/// What an engine asks of a node of which it knows no birth.
#[derive(Clone, Copy, Debug, PartialEq, Eq)]
pub enum Query {
    Status,
    Fence { generation: u64 },
}

/// A request to a node, as an action.
fn ask(node: u8, request: Request) -> Action
    ensures { result ≡ AsksNode node request }
{
    Action::Ask { node, request }
}

/// Adds the request to carry out another one under a generation.
fn push_under(
    actions: &mut Vec<Action>,
    node: u8,
    generation: u64,
    birth: u64,
    request: SegmentRequest,
) -> Result<(), AllocError>
    ensures { OnOk result (actions.new.items ≡ actions.old.items ++ AsksNode node (AsOf generation birth request) ∷ []) }
{
    let request = Request::As {
        generation,
        birth,
        request,
    };
    actions.push(ask(node, request))?;
    Ok(())
}

/// Adds the requests to take a fact, and to report the front.
fn push_taking(
    actions: &mut Vec<Action>,
    node: u8,
    generation: u64,
    birth: u64,
    fact: Fact,
) -> Result<(), AllocError>
    ensures { OnOk result (actions.new.items ≡ actions.old.items ++ map (λ r. AsksNode node r) (takes_and_reports generation birth fact)) }
{
    push_under(
        actions,
        node,
        generation,
        birth,
        SegmentRequest::Take { fact },
    )?;
    push_under(actions, node, generation, birth, SegmentRequest::Front)
}

/// The request to absorb a copy of a delta, which answers the summary.
fn absorb_request(
    alloc: Global,
    summary: &Summary,
    delta: &Delta,
) -> Result<SegmentRequest, AllocError>
    ensures { IfOk result (λ r. r ≡ AbsorbOf summary.now delta.now) }
{
    let summary = Boxed::new(alloc, summary.copy()?)?;
    let delta = Boxed::new(alloc, delta.copy()?)?;
    Ok(SegmentRequest::Absorb { summary, delta })
}

/// Adds the requests of an errand to one node.
pub(crate) fn push_errand(
    actions: &mut Vec<Action>,
    node: u8,
    generation: u64,
    birth: u64,
    errand: &Errand,
) -> Result<(), AllocError>
    ensures { OnOk result (actions.new.items ≡ actions.old.items ++ asks_of node generation birth errand.now) }
{
    let alloc = *actions.allocator();
    match errand {
        Errand::Pull(summary) => {
            let summary = Boxed::new(alloc, summary.copy()?)?;
            push_under(
                actions,
                node,
                generation,
                birth,
                SegmentRequest::Answer { summary },
            )
        }
        Errand::Ask => push_under(actions, node, generation, birth, SegmentRequest::Ask),
        Errand::Push(summary, delta) => {
            let request = absorb_request(alloc, summary, delta)?;
            push_under(actions, node, generation, birth, request)?;
            push_under(actions, node, generation, birth, SegmentRequest::Front)
        }
        Errand::Propose(cut) => {
            let request = Request::Propose {
                generation,
                birth,
                cut: *cut,
            };
            actions.push(ask(node, request))?;
            Ok(())
        }
        Errand::Begin(cut) => push_taking(actions, node, generation, birth, Fact::Cut(*cut)),
        Errand::Store(redo) => {
            let fact = Fact::Record(redo.copy()?);
            push_under(
                actions,
                node,
                generation,
                birth,
                SegmentRequest::Take { fact },
            )
        }
        Errand::Close(redo) => {
            push_taking(actions, node, generation, birth, Fact::Record(redo.copy()?))
        }
        Errand::Raise(advance) => {
            let fact = Fact::Advance(*advance);
            push_under(
                actions,
                node,
                generation,
                birth,
                SegmentRequest::Take { fact },
            )
        }
        Errand::Report => push_under(actions, node, generation, birth, SegmentRequest::Front),
        Errand::Found => push_admission(actions, node, generation, birth, &Joining::at_start()),
        Errand::Join(summary, delta, joining) => {
            let request = Request::Plain(absorb_request(alloc, summary, delta)?);
            actions.push(ask(node, request))?;
            push_admission(actions, node, generation, birth, joining)
        }
    }
}

impl Joining {
    /// What a node of a new volume must have reached: nothing.
    fn at_start() -> Self
        ensures { result ≡ record { epoch = 0; complete = 0; accepted = None } }
    {
        Joining {
            epoch: 0,
            complete: 0,
            accepted: None,
        }
    }
}

/// Adds the request to become a member.
fn push_admission(
    actions: &mut Vec<Action>,
    node: u8,
    generation: u64,
    birth: u64,
    joining: &Joining,
) -> Result<(), AllocError>
    ensures { OnOk result (actions.new.items ≡ actions.old.items ++ AsksNode node (admission generation birth joining.now.epoch joining.now.complete joining.now.accepted) ∷ []) }
{
    let request = Request::Admit(Admission {
        generation,
        birth,
        epoch: joining.epoch,
        complete: joining.complete,
        accepted: joining.accepted,
    });
    actions.push(ask(node, request))?;
    Ok(())
}

/// Adds the requests of an errand to a node, if its birth is known.
fn push_at(
    actions: &mut Vec<Action>,
    node: u8,
    generation: u64,
    birth: Option<u64>,
    errand: &Errand,
) -> Result<(), AllocError>
    ensures { OnOk result (actions.new.items ≡ actions.old.items ++ asks_at generation errand.now node birth) }
{
    match birth {
        Some(birth) => push_errand(actions, node, generation, birth, errand),
        None => Ok(()),
    }
}

/// Adds the requests of an errand to each node whose birth is known.
pub(crate) fn push_each(
    actions: &mut Vec<Action>,
    generation: u64,
    births: &[Option<u64>; 15],
    errand: &Errand,
) -> Result<(), AllocError>
    ensures { OnOk result (actions.new.items ≡ actions.old.items ++ asks_from generation errand.now 0 births.now) }
{
    for (place, birth) in births.iter().enumerate() {
        push_at(actions, place as u8, generation, *birth, errand)?;
    }
    Ok(())
}

/// The requests of an errand to each node whose birth is known.
pub(crate) fn ask_each(
    alloc: Global,
    generation: u64,
    births: &[Option<u64>; 15],
    errand: &Errand,
) -> Result<Vec<Action>, AllocError>
    ensures { IfOk result (λ v. v.items ≡ asks_from generation errand.now 0 births.now) }
{
    let mut actions = Vec::new(alloc);
    push_each(&mut actions, generation, births, errand)?;
    Ok(actions)
}

/// The requests of an errand to a node, if its birth is known.
pub(crate) fn ask_one(
    alloc: Global,
    generation: u64,
    node: u8,
    birth: Option<u64>,
    errand: &Errand,
) -> Result<Vec<Action>, AllocError>
    ensures { IfOk result (λ v. v.items ≡ asks_at generation errand.now node birth) }
{
    let mut actions = Vec::new(alloc);
    push_at(&mut actions, node, generation, birth, errand)?;
    Ok(actions)
}

/// The request of a query to a node.
pub(crate) fn query_one(alloc: Global, node: u8, query: Query) -> Result<Vec<Action>, AllocError>
    ensures { IfOk result (λ v. v.items ≡ query_to query node) }
{
    let mut actions = Vec::new(alloc);
    push_query(&mut actions, node, query)?;
    Ok(actions)
}

/// Adds the request of a query.
fn push_query(actions: &mut Vec<Action>, node: u8, query: Query) -> Result<(), AllocError>
    ensures { OnOk result (actions.new.items ≡ actions.old.items ++ query_to query node) }
{
    let request = match query {
        Query::Status => Request::Status,
        Query::Fence { generation } => Request::Fence { generation },
    };
    actions.push(ask(node, request))?;
    Ok(())
}

/// The requests of a query to each of so many nodes.
pub(crate) fn query_each(alloc: Global, nodes: u8, query: Query) -> Result<Vec<Action>, AllocError>
    ensures { IfOk result (λ v. v.items ≡ queries_from query 0 nodes) }
{
    let mut actions = Vec::new(alloc);
    for node in 0..nodes {
        push_query(&mut actions, node, query)?;
    }
    Ok(actions)
}
