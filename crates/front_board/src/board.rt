ghost use Rattle.std.specs.Prelude.{◌≡◌, ℕ, ◌<◌, ◌≤◌, IfOk, length, replicate, slice_index, slice_set};
ghost use Rattle.redo_core.specs.LogFront.{IsLogFront};
ghost use Rattle.front_board.specs.FrontWord.{word_of, AreFronts};
ghost use Rattle.front_board.specs.Seat.{IsNode, Publishes, new_seat, seen_of, with_seen};
ghost use Rattle.front_board.specs.NthGreatest.{IsNthGreatest};
ghost use Rattle.front_board.specs.Quorum.{IsReachedBy};

use crate::fronts::LogFront;
use crate::rule::{BothKeep, Loads, Raises, SeenWords, TableSeat, WordsAreFronts};
use crate::survey::survey;
use atomic_table::Table;
use named_log::LogName;
use std::alloc::{AllocError, Global};
use std::marker::{Model, PhantomData};

/// One atomic word for each node, which holds a front of the log and only grows. Contracts see which board it is.
#[derive(Drop)]
pub struct Board<L: LogName> {
    table: Table<(), SeenWords, usize, WordsAreFronts<L>, Global>,
}

impl<L: LogName> Model for Board<L> {
    ghost use Rattle.atomic_table.specs.Seated.{TableId};

    ghost Value = { TableId };

    ghost view = { λ b. b.table.shared.table_id };
}

/// What one thread knows of a board: for each word the greatest front that it published there or saw.
/// It has room to read all words once.
#[derive(Drop)]
pub struct Seat<L: LogName> {
    token: TableSeat,
    words: Vec<u64>,
    of: PhantomData<L>,
}

impl<L: LogName> Model for Seat<L> {
    ghost use Rattle.std.specs.Prelude.{◌≡◌, [], length};
    ghost use Rattle.front_board.specs.FrontWord.{AreFronts};
    ghost use Rattle.front_board.specs.Seat.{SeatData};

    ghost Value = { SeatData };

    ghost view = { λ s. record { board = s.token.table_id; seen = s.token.me.0 } };

    ghost invariant = { λ s. (s.token.me.1 ≡ []) × (length s.words.items ≡ s.token.table_id.words) × (length s.token.me.0 ≡ s.token.table_id.words)
        × AreFronts L.log s.token.me.0 };
}

impl<L: LogName> Board<L> {
    /// Raises the word of a node (from 1) to a front, where the word is below it.
    pub fn publish(&self, seat: &mut Seat<L>, node: usize, front: LogFront<L>)
        requires own { seat.old.board ≡ self.now }
        requires node { IsNode self.now.words node }
        ensures own { seat.new.board ≡ seat.old.board }
        ensures raised { Publishes L.log seat.old.seen seat.new.seen node (word_of front) }
        ensures reached { word_of front ≤ seen_of seat.new.seen node }
        ensures grows { seen_of seat.old.seen node ≤ seen_of seat.new.seen node }
        ensures others { seat.new.seen ≡ with_seen seat.old.seen node (seen_of seat.new.seen node) }
        ensures fronts { AreFronts L.log seat.new.seen }
    {
        let table = &self.table.shared;
        table.fetch_max::<Raises<L>>(&mut seat.token, node - 1, front.word());
    }

    /// The front that the word of a node (from 1) holds.
    pub fn front(&self, seat: &mut Seat<L>, node: usize) -> LogFront<L>
        requires own { seat.old.board ≡ self.now }
        requires node { IsNode self.now.words node }
        ensures own { seat.new.board ≡ seat.old.board }
        ensures answer { word_of result ≡ seen_of seat.new.seen node }
        ensures front { IsLogFront L.log result.epoch result.number }
        ensures grows { seen_of seat.old.seen node ≤ word_of result }
        ensures others { seat.new.seen ≡ with_seen seat.old.seen node (word_of result) }
        ensures fronts { AreFronts L.log seat.new.seen }
    {
        let table = &self.table.shared;
        let word = table.load::<Loads<L>>(&mut seat.token, node - 1);
        LogFront::of_word(word)
    }

    /// Reads each word once, in the order of the nodes, and returns the front that at least `need` words had reached: the
    /// `need`-th greatest, from 1.
    pub fn quorum(&self, seat: &mut Seat<L>, need: usize) -> LogFront<L>
        requires own { seat.old.board ≡ self.now }
        requires need { (0 < need) × (need ≤ self.now.words) }
        ensures own { seat.new.board ≡ seat.old.board }
        ensures answer { IsNthGreatest need seat.new.seen (word_of result) }
        ensures front { IsLogFront L.log result.epoch result.number }
        ensures grows { (node : ℕ) → seen_of seat.old.seen node ≤ seen_of seat.new.seen node }
        ensures reached { IsReachedBy L.log need seat.new.seen (word_of result) }
        ensures length { length seat.new.seen ≡ self.now.words }
        ensures fronts { AreFronts L.log seat.new.seen }
    {
        let table = &self.table.shared;
        let word = survey::<L>(table, &mut seat.token, seat.words.as_mut_slice(), need);
        LogFront::of_word(word)
    }

    /// A board of so many nodes, at least one, each word at (0, 0), and seats that know nothing yet.
    /// It fails only if memory runs out.
    pub fn open(
        alloc: Global,
        nodes: usize,
        seats: usize,
    ) -> Result<(Board<L>, Vec<Seat<L>>), AllocError>
        requires { 0 < nodes }
        ensures nodes { IfOk result (λ made. made.0.words ≡ nodes) }
        ensures seats { IfOk result (λ made. made.1.items ≡ replicate seats (new_seat made.0 nodes)) }
    {
        let zeros = vec![in alloc; 0u64; nodes]?;
        let (table, mut first) = Table::of_words(alloc, zeros.as_slice(), &nodes)?;
        let mut made = Vec::new(alloc);
        for _ in 0..seats {
            let words = vec![in alloc; 0u64; nodes]?;
            let token = table.shared.split_seat::<BothKeep>(&mut first);
            made.push(Seat {
                token,
                words,
                of: PhantomData,
            })?;
        }
        Ok((Board { table }, made))
    }
}
