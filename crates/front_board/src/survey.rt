ghost use Rattle.std.specs.Prelude.{◌≡◌, ℕ, ◌<◌, ◌≤◌, length, slice_index};
ghost use Rattle.front_board.specs.FrontWord.{IsFrontWord, AreFronts};
ghost use Rattle.front_board.specs.Survey.{IsSurveyed};
ghost use Rattle.front_board.specs.NthGreatest.{IsNthGreatest};

use crate::rule::{Loads, SeenWords, TableSeat, WordsAreFronts};
use atomic_table::Shared;
use named_log::LogName;

type Words<L> = Shared<(), SeenWords, usize, WordsAreFronts<L>>;

/// Loads each word once, in order, and picks the `need`-th greatest.
pub(crate) fn survey<L: LogName>(
    table: &Words<L>,
    token: &mut TableSeat,
    words: &mut [u64],
    need: usize,
) -> u64
    requires own { token.old.table_id ≡ table.now.table_id }
    requires count { (length words.old ≡ table.now.table_id.words) × (length token.old.me.0 ≡ table.now.table_id.words) }
    requires fronts { AreFronts L.log token.old.me.0 }
    requires need { (0 < need) × (need ≤ table.now.table_id.words) }
    ensures own { (token.new.table_id ≡ token.old.table_id) × (token.new.me.1 ≡ token.old.me.1) }
    ensures len { (length words.new ≡ length words.old) × (length token.new.me.0 ≡ length token.old.me.0) }
    ensures answer { IsNthGreatest need token.new.me.0 result }
    ensures front { IsFrontWord L.log result }
    ensures fronts { AreFronts L.log token.new.me.0 }
    ensures grows { (node : ℕ) → slice_index token.old.me.0 node ≤ slice_index token.new.me.0 node }
{
    load_all::<L>(table, token, words);
    nth_greatest(words, need)
}

fn load_all<L: LogName>(table: &Words<L>, token: &mut TableSeat, words: &mut [u64])
    requires own { token.old.table_id ≡ table.now.table_id }
    requires count { (length words.old ≡ table.now.table_id.words) × (length token.old.me.0 ≡ table.now.table_id.words) }
    requires fronts { AreFronts L.log token.old.me.0 }
    ensures own { (token.new.table_id ≡ token.old.table_id) × (token.new.me.1 ≡ token.old.me.1) }
    ensures surveyed { IsSurveyed L.log (length words.old) token.old.me.0 token.new.me.0 words.new }
{
    for node in 0..words.len() {
        words[node] = table.load::<Loads<L>>(token, node);
    }
}

fn nth_greatest(words: &mut [u64], need: usize) -> u64
    requires need { (0 < need) × (need ≤ length words.old) }
    ensures len { length words.new ≡ length words.old }
    ensures answer { IsNthGreatest need words.old result }
{
    let index = words.len() - need;
    let (_, word, _) = words.select_nth_unstable(index);
    *word
}
