//! What the contracts fix, so that no other body meets them: a word keeps the greatest of what was published. Called by nobody.

ghost use Rattle.std.specs.Prelude.{◌≡◌, ◌≤◌};
ghost use Rattle.front_board.specs.FrontWord.{word_of};
ghost use Rattle.front_board.specs.Seat.{IsNode};

use crate::board::{Board, Seat};
use crate::fronts::LogFront;
use named_log::LogName;

fn greatest_is_kept<L: LogName>(
    board: &Board<L>,
    seat: &mut Seat<L>,
    node: usize,
    one: LogFront<L>,
    other: LogFront<L>,
) -> LogFront<L>
    requires own { seat.old.board ≡ board.now }
    requires node { IsNode board.now.words node }
    ensures one { word_of one ≤ word_of result }
    ensures other { word_of other ≤ word_of result }
{
    board.publish(seat, node, one);
    board.publish(seat, node, other);
    board.front(seat, node)
}
