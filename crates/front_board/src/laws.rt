//! What the words of a board mean.
ghost use Rattle.front_board.specs.FrontWord.{WordsInOrder};
ghost use Rattle.front_board.specs.Quorum.{QuorumHasReached, QuorumHasOneAnswer};

/// The words of fronts are in the order of the fronts: by epoch, then by number.
pub fn words_in_order()
    ensures { WordsInOrder }
{}

/// At every moment from a quorum's look on, at least `need` words have reached its answer, by the board's rule.
pub fn quorum_has_reached()
    ensures { QuorumHasReached }
{}

/// What a seat knows has one answer for each need.
pub fn quorum_has_one_answer()
    ensures { QuorumHasOneAnswer }
{}
