ghost use Rattle.std.specs.Prelude.{◌≡◌, All, length, Some, is_some, true, slice_get};
ghost use Rattle.front_board.specs.Seat.{IsNode};
ghost use Rattle.node_cell.specs.Node.{IsPassOf};
ghost use Rattle.node_threads.specs.Each.{Each};
ghost use Rattle.node_threads.specs.Refusals.{AllStarted};
ghost use Rattle.node_threads.specs.Work.{receipts_in};

use crate::floor::DrillSetup;
use front_board::Board;
use named_log::LogName;
use node_cell::Node;
use node_threads::{DeliverResult, Gate, Inlet, Plan, ServeInput, Shared, WorkerRefusal, serve};
use std::alloc::{AllocError, Global};
use std::sync::Wait;
use std::thread::Threads;

/// The nodes after the work, what came back of their inlets, the answers, and what was refused. Where all workers were started, each
/// pass has just the receipts among the answers of its inlet.
#[derive(Drop)]
pub struct DrillResult<L: LogName> {
    pub board: Board<L>,
    pub nodes: Vec<Node<L>>,
    pub inlets: Vec<Option<Inlet<L>>>,
    pub answers: Vec<Vec<DeliverResult<L>>>,
    pub refusals: Vec<WorkerRefusal>,
    ghost len: { (length inlets.items ≡ length nodes.items) × (length answers.items ≡ length nodes.items) },
    ghost numbers: { All (λ n. IsNode board.words n.number) nodes.items },
    ghost passes: { AllStarted refusals.items → Each (λ k n s. (is_some s ≡ true) × ((j : _) → s ≡ Some j → IsPassOf n j.pass × ((a : _) → slice_get answers.items k ≡ Some a → j.pass.list ≡ receipts_in a.items))) nodes.items inlets.items },
}

/// Runs the workers of a setup under a gate. It fails only if memory runs out, before the first worker starts; what is refused later
/// is in `refusals`.
pub fn work<L: LogName + Send + Sync, G: Gate + Sync, R: Threads + Wait + Sync>(
    rt: &R,
    alloc: Global,
    floor: DrillSetup<L>,
    plan: Plan,
    gate: &G,
) -> Result<DrillResult<L>, AllocError> {
    let DrillSetup {
        board,
        nodes,
        feeds,
        inlets,
    } = floor;
    let lent = nodes.as_slice();
    let shared = Shared {
        nodes: lent,
        board: &board,
        gate,
    };
    let input = ServeInput {
        feeds,
        inlets,
        plan,
    };
    let Ok(served) = serve(rt, alloc, &shared, input) else {
        return Err(AllocError);
    };
    Ok(DrillResult {
        board,
        nodes,
        inlets: served.inlets,
        answers: served.answers,
        refusals: served.refusals,
    })
}
