ghost use Rattle.std.specs.Prelude.{◌≡◌, All};
ghost use Rattle.front_board.specs.Seat.{IsNode};

use crate::serving::Shared;
use crate::stop::StopSignal;
use front_board::Board;
use intake_queue::Intake;
use named_log::LogName;
use node_cell::Node;
use std::alloc::Global;

/// What all workers of a run share. Each node has a word on the board.
#[derive(Drop)]
pub(crate) struct Context<'s, L: LogName, G, R> {
    pub rt: &'s R,
    pub alloc: Global,
    pub nodes: &'s [Node<L>],
    pub board: &'s Board<L>,
    pub intakes: &'s [Intake<L>],
    pub gate: &'s G,
    pub stop: &'s StopSignal,
    ghost numbers: { All (λ n. IsNode board.now.words n.number) nodes.now },
}

/// The context of a run, whose references all live as long.
pub(crate) fn context_of<'s, L: LogName, G, R>(
    rt: &'s R,
    alloc: Global,
    shared: Shared<'s, L, G>,
    intakes: &'s [Intake<L>],
    stop: &'s StopSignal,
) -> Context<'s, L, G, R>
    requires numbers { All (λ n. IsNode shared.board.now.words n.number) shared.nodes.now }
    ensures nodes { result.nodes.now ≡ shared.entry.nodes.now }
    ensures board { result.board.now ≡ shared.entry.board.now }
    ensures intakes { result.intakes.now ≡ intakes.entry.now }
{
    Context {
        rt,
        alloc,
        nodes: shared.nodes,
        board: shared.board,
        intakes,
        gate: shared.gate,
        stop,
    }
}
