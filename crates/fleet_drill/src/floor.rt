ghost use Rattle.std.specs.Prelude.{◌≡◌, ◌<◌, ◌≤◌, ◌+◌, [], All, length, replicate, IfOk, OnOk};
ghost use Rattle.front_board.specs.Seat.{IsNode, new_seat};
ghost use Rattle.node_cell.specs.Node.{IsPassOf};
ghost use Rattle.node_threads.specs.Each.{Each};

use crate::dealing::deal;
use crate::running::MAX_NODES;
use front_board::{Board, Seat};
use intake_queue::{Intake, MAX_CAPACITY};
use named_log::LogName;
use node_cell::Node;
use node_threads::{Feed, Inlet};
use std::alloc::{AllocError, Global};

/// Nodes, numbered from 1, each with an intake of its own and the facts that are fed into it, and the board of their fronts.
#[derive(Drop)]
pub struct DrillSetup<L: LogName> {
    pub board: Board<L>,
    pub nodes: Vec<Node<L>>,
    pub feeds: Vec<Feed<L>>,
    pub inlets: Vec<Inlet<L>>,
    ghost len: { (length feeds.items ≡ length nodes.items) × (length inlets.items ≡ length nodes.items) × (length nodes.items ≤ 6) },
    ghost numbers: { All (λ n. IsNode board.words n.number) nodes.items },
    ghost feeds_fit: { Each (λ k i d. (d.inlet ≡ k + 1) × (d.sender.intake ≡ i.intake.id)) inlets.items feeds.items },
    ghost inlets_fit: { Each (λ k n i. (i.node ≡ k + 1) × (i.taker.intake ≡ i.intake.id) × (i.seat.board ≡ board) × IsPassOf n i.pass × (i.pass.list ≡ [])) nodes.items inlets.items },
}

// One node with what goes into its workers.
#[derive(Drop)]
struct Stand<L: LogName> {
    node: Node<L>,
    feed: Feed<L>,
    inlet: Inlet<L>,
}

// The size of each stand: to how many nodes how many facts are dealt, and how many entries a trail may have.
#[derive(Clone, Copy)]
struct Measure {
    dealt: usize,
    facts: usize,
    trail: u64,
    ghost some: { (0 < dealt) × (0 < facts) × (facts ≤ 65536) },
}

/// Opens `count` nodes, each with an intake that has room for `facts` parcels and a trail of at most `trail` entries, and deals the
/// facts at the first `facts` places of the log out to the first `dealt` nodes, in turn. It fails only if memory runs out.
pub fn open_floor<L: LogName>(
    alloc: Global,
    count: usize,
    dealt: usize,
    facts: usize,
    trail: u64,
) -> Result<DrillSetup<L>, AllocError>
    requires nodes { (0 < count) × (count ≤ MAX_NODES) × (0 < dealt) }
    requires facts { (0 < facts) × (facts ≤ MAX_CAPACITY) }
    ensures { IfOk result (λ f. length f.nodes.items ≡ count) }
{
    let (board, seats) = Board::<L>::open(alloc, count, count)?;
    let mut floor = DrillSetup {
        board,
        nodes: Vec::new(alloc),
        feeds: Vec::new(alloc),
        inlets: Vec::new(alloc),
    };
    let measure = Measure {
        dealt,
        facts,
        trail,
    };
    open_stands(alloc, &mut floor, seats, count, measure)?;
    Ok(floor)
}

// A stand for each seat of the board. The floor is borrowed: a path without memory then has nothing to drop here.
fn open_stands<L: LogName>(
    alloc: Global,
    floor: &mut DrillSetup<L>,
    seats: Vec<Seat<L>>,
    count: usize,
    measure: Measure,
) -> Result<(), AllocError>
    requires words { floor.old.board.words ≡ count }
    requires seats { seats.items ≡ replicate count (new_seat floor.old.board count) }
    requires count { count ≤ MAX_NODES }
    requires none { floor.old.nodes.items ≡ [] }
    ensures { OnOk result (length floor.new.nodes.items ≡ count) }
{
    for seat in seats {
        add_stand(alloc, floor, seat, measure)?;
    }
    Ok(())
}

fn add_stand<L: LogName>(
    alloc: Global,
    floor: &mut DrillSetup<L>,
    seat: Seat<L>,
    measure: Measure,
) -> Result<(), AllocError>
    requires room { (length floor.old.nodes.items < floor.old.board.words) × (floor.old.board.words ≤ MAX_NODES) }
    requires seat { seat.board ≡ floor.old.board }
    ensures board { floor.new.board ≡ floor.old.board }
    ensures len { OnOk result (length floor.new.nodes.items ≡ length floor.old.nodes.items + 1) }
{
    floor.nodes.reserve(1)?;
    floor.feeds.reserve(1)?;
    floor.inlets.reserve(1)?;
    let number = floor.nodes.len() + 1;
    let stand = open_stand(alloc, seat, number, measure)?;
    floor.nodes.push_reserved(stand.node);
    floor.feeds.push_reserved(stand.feed);
    floor.inlets.push_reserved(stand.inlet);
    Ok(())
}

fn open_stand<L: LogName>(
    alloc: Global,
    seat: Seat<L>,
    number: usize,
    measure: Measure,
) -> Result<Stand<L>, AllocError>
    ensures node { IfOk result (λ s. s.node.number ≡ number) }
    ensures feed { IfOk result (λ s. (s.feed.inlet ≡ number) × (s.feed.sender.intake ≡ s.inlet.intake.id)) }
    ensures inlet { IfOk result (λ s. (s.inlet.node ≡ number) × (s.inlet.taker.intake ≡ s.inlet.intake.id) × (s.inlet.seat ≡ seat) × IsPassOf s.node s.inlet.pass × (s.inlet.pass.list ≡ [])) }
{
    // In this order an error path has the least to drop.
    let facts = deal(alloc, number, measure.dealt, measure.facts)?;
    let (node, mut passes) = Node::<L>::open(alloc, number, 1, measure.trail)?;
    let (intake, mut senders, taker) = Intake::<L>::open(alloc, 1, measure.facts)?;
    let (Some(pass), Some(sender)) = (passes.pop(), senders.pop()) else {
        unreachable!()
    };
    let feed = Feed {
        inlet: number,
        sender,
        facts,
    };
    let inlet = Inlet {
        intake,
        taker,
        node: number,
        pass,
        seat,
    };
    Ok(Stand { node, feed, inlet })
}
