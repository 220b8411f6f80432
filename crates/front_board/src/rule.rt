use atomic_table::{Play, Split, TableRule};
use named_log::LogName;
use std::collections::LinkedList;
use std::marker::PhantomData;

/// What a seat knows: for each word the greatest that it published there or saw.
pub(crate) type SeenWords = LinkedList<u64>;

/// A seat of the table, which has no slots.
pub(crate) type TableSeat = atomic_table::Seat<(), SeenWords>;

/// Each word is a front of the log, and no entry of any seat's view is above its word.
pub struct WordsAreFronts<L> {
    of: PhantomData<L>,
}

impl<L: LogName> TableRule<(), SeenWords, usize> for WordsAreFronts<L> {
    ghost use Rattle.std.specs.Prelude.{replicate};
    ghost use Rattle.front_board.specs.Rule.{KeepsRule};

    ghost holds = { λ nodes s. KeepsRule L.log s.words s.views };

    ghost first = { λ nodes. replicate nodes 0 };
}

pub(crate) struct Loads<L> {
    of: PhantomData<L>,
}

impl<L: LogName> Play<(), SeenWords> for Loads<L> {
    ghost use Rattle.front_board.specs.Rule.{IsLoad};

    ghost then = { IsLoad L.log };
}

pub(crate) struct Raises<L> {
    of: PhantomData<L>,
}

impl<L: LogName> Play<(), SeenWords> for Raises<L> {
    ghost use Rattle.front_board.specs.Rule.{IsFetchMax};

    ghost then = { IsFetchMax L.log };
}

/// Both seats know what the one knew.
pub(crate) struct BothKeep;

impl Split<SeenWords> for BothKeep {
    ghost left = { λ seen. seen };

    ghost right = { λ seen. seen };
}
