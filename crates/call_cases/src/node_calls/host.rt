//! A node that one pass delivers to.
ghost use Rattle.std.specs.Prelude.{◌≡◌, IfOk};
ghost use Rattle.front_board.specs.Seat.{IsNode};
ghost use Rattle.node_cell.specs.Node.{IsPassOf};
ghost use Rattle.node_lock.specs.Passes.{AreIdle};

use crate::Log;
use crate::common::{boxed_both, in_box};
use crate::keeping::or_fault;
use front_board::{Board, LogFront, Seat};
use named_log::LogFact;
use node_cell::{AbsorbFault, Ack, Closed, DeliverFault, Folded, Mail, Node, Pass, View};
use segment_core::{CommitFault, ReadFault};
use std::alloc::{AllocError, Global};
use std::sync::Wait;

/// A node with the first of its two passes, the first seat of a board of its own, and the fold that it made last. Large values are
/// in boxes: a function that has one by value proves all that it is made of.
#[derive(Drop)]
pub struct Host {
    pub node: Box<Node<Log>>,
    pass: Box<Pass<Log>>,
    board: Box<Board<Log>>,
    seat: Box<Seat<Log>>,
    pub folded: Option<Box<Folded<Log>>>,
    ghost pass_fits: { IsPassOf node.value pass.value },
    ghost seat_fits: { (seat.value.board ≡ board.value) × IsNode board.value.words node.value.number },
}

pub type Dealt = (Box<Node<Log>>, Box<Pass<Log>>, Box<Pass<Log>>);

/// A node with two passes, whose trail has room for `capacity`.
pub fn open_node(alloc: Global, capacity: u64) -> Result<Dealt, AllocError>
    ensures one { IfOk result (λ t. IsPassOf t.0.value t.1.value) }
    ensures other { IfOk result (λ t. IsPassOf t.0.value t.2.value) }
    ensures number { IfOk result (λ t. t.0.value.number ≡ 1) }
{
    let (node, passes) = Node::open(alloc, 1, 2, capacity)?;
    let node = in_box(alloc, node)?;
    let (one, other) = boxed_both(alloc, passes)?;
    Ok((node, one, other))
}

pub type Seated = (Box<Board<Log>>, Box<Seat<Log>>, Box<Seat<Log>>);

/// A board of one node with two seats.
pub fn open_board(alloc: Global) -> Result<Seated, AllocError>
    ensures one { IfOk result (λ t. t.1.value.board ≡ t.0.value) }
    ensures other { IfOk result (λ t. t.2.value.board ≡ t.0.value) }
    ensures words { IfOk result (λ t. t.0.value.words ≡ 1) }
{
    let (board, seats) = Board::open(alloc, 1, 2)?;
    let board = in_box(alloc, board)?;
    let (one, other) = boxed_both(alloc, seats)?;
    Ok((board, one, other))
}

/// A node with one pass in use, and its own board.
pub fn open_host(alloc: Global, capacity: u64) -> Result<Host, AllocError> {
    let (node, pass, _) = open_node(alloc, capacity)?;
    let (board, seat, _) = open_board(alloc)?;
    Ok(Host {
        node,
        pass,
        board,
        seat,
        folded: None,
    })
}

/// Delivers the fact at a log index. Where there is no fact, or no memory for it, the fault is `Memory`.
pub fn deliver_at<R: Wait>(
    rt: &R,
    alloc: Global,
    node: &Node<Log>,
    pass: &mut Pass<Log>,
    board: &Board<Log>,
    seat: &mut Seat<Log>,
    place: u64,
) -> Result<Ack<Log>, DeliverFault>
    requires pass { IsPassOf node.now pass.old }
    requires seat { (seat.old.board ≡ board.now) × IsNode board.now.words node.now.number }
    ensures { IsPassOf node.now pass.new × (seat.new.board ≡ seat.old.board) }
{
    let Ok(Some(fact)) = LogFact::at(alloc, place) else {
        return Err(DeliverFault::Memory);
    };
    or_fault(node.deliver(rt, pass, board, seat, fact).0)
}

fn deliver_once<R: Wait>(
    rt: &R,
    alloc: Global,
    host: &mut Host,
    place: u64,
) -> Result<Ack<Log>, DeliverFault> {
    deliver_at(
        rt,
        alloc,
        &host.node,
        &mut host.pass,
        &host.board,
        &mut host.seat,
        place,
    )
}

/// Delivers the fact at a log index. Tries again once where memory runs out.
pub fn deliver<R: Wait>(
    rt: &R,
    alloc: Global,
    host: &mut Host,
    place: u64,
) -> Result<Ack<Log>, DeliverFault> {
    match deliver_once(rt, alloc, host, place) {
        Err(DeliverFault::Memory) => deliver_once(rt, alloc, host, place),
        answer => answer,
    }
}

/// The front that the board has of the node.
pub fn reached(host: &mut Host) -> LogFront<Log> {
    host.board.front(&mut host.seat, 1)
}

/// Reads a page at a point.
pub fn read<R: Wait>(
    rt: &R,
    host: &mut Host,
    page: u16,
    point: u64,
) -> Result<View<Log>, ReadFault> {
    host.node.read(rt, &mut host.pass, page, point)
}

// A copy of the reply of one node to a summary of another.
fn mail_for<R: Wait>(
    rt: &R,
    asker: &Node<Log>,
    answerer: &Node<Log>,
) -> Result<Mail<Log>, AllocError> {
    let sent = or_fault(answerer.reply(rt, asker.summary(rt)?))?;
    sent.copy()
}

/// Absorbs the reply of one node to a summary of another.
pub fn absorb<R: Wait>(
    rt: &R,
    node: &Node<Log>,
    asker: &Node<Log>,
    answerer: &Node<Log>,
) -> Result<LogFront<Log>, AbsorbFault> {
    let Ok(sent) = mail_for(rt, asker, answerer) else {
        return Err(AbsorbFault::Memory);
    };
    or_fault(node.absorb(rt, sent).0)
}

/// A fold of a page.
pub fn folded<R: Wait>(
    rt: &R,
    alloc: Global,
    node: &Node<Log>,
    page: u16,
) -> Result<Box<Folded<Log>>, AllocError> {
    in_box(alloc, node.fold_plan(rt, page)?.fold())
}

/// Commits a copy of a fold.
pub fn commit<R: Wait>(rt: &R, node: &Node<Log>, folded: &Folded<Log>) -> Result<(), CommitFault> {
    let Ok(copy) = folded.copy() else {
        return Err(CommitFault::Memory);
    };
    or_fault(node.fold_commit(rt, copy).0)
}

/// Closes a node with its pass.
pub fn close_host<R: Wait>(
    rt: &R,
    alloc: Global,
    host: Host,
) -> Result<Box<Closed<Log>>, AllocError> {
    let Host {
        node,
        pass,
        board: _,
        seat: _,
        folded: _,
    } = host;
    let passes = Vec::from_array(alloc, [Box::into_inner(pass)])?;
    closed_with(rt, alloc, node, passes)
}

/// Closes a node with passes that are idle.
pub fn closed_with<R: Wait>(
    rt: &R,
    alloc: Global,
    node: Box<Node<Log>>,
    passes: Vec<Pass<Log>>,
) -> Result<Box<Closed<Log>>, AllocError>
    requires { AreIdle node.value.lock passes.items }
{
    in_box(alloc, Box::into_inner(node).close(rt, passes))
}
