ghost use Rattle.std.specs.Prelude.{◌≡◌, ◌+◌, ◌-◌, ◌<◌, ◌≤◌, length, max, take, slice_index_or};
ghost use Rattle.std.specs.Global.{Vec};
ghost use Rattle.std.specs.List.{remove_range};
ghost use Rattle.sorted_runs.specs.Edits.{IsShaped, offset, LosesBetween};
ghost use Rattle.sorted_runs.specs.Rows.{entries};

use crate::search::Place;

// Removes the entries from one position up to another, or none where they cross, and returns how many entries are left.
pub(crate) fn cut_out<K: Copy + Drop, V: Drop>(
    firsts: &mut Vec<K>,
    runs: &mut Vec<Vec<(K, V)>>,
    len: usize,
    from: Place,
    to: Place,
) -> usize
    requires shaped { IsShaped firsts.old.items runs.old.items }
    requires counted { len ≡ length (entries runs.old.items) }
    requires from_within { from.run < length runs.old.items }
    requires from_place { (d : Vec (K × V)) → let run = slice_index_or runs.old.items from.run d in from.at ≤ length run.items }
    requires to_within { to.run < length runs.old.items }
    requires to_place { (d : Vec (K × V)) → let run = slice_index_or runs.old.items to.run d in to.at ≤ length run.items }
    ensures shaped { IsShaped firsts.new.items runs.new.items }
    ensures counted { result ≡ length (entries runs.new.items) }
    ensures loses { let p = offset runs.old.items from.run from.at in let q = offset runs.old.items to.run to.at in LosesBetween runs.old.items p (max p q) runs.new.items }
{
    if from.run < to.run {
        return cut_over(firsts, runs, len, from, to);
    }
    if from.run > to.run || from.at > to.at {
        return len;
    }
    cut_run(firsts, runs, len, from.run, from.at, to.at)
}

// The same from one run to a later one. It removes from the end first, so that the runs before keep their indices.
fn cut_over<K: Copy + Drop, V: Drop>(
    firsts: &mut Vec<K>,
    runs: &mut Vec<Vec<(K, V)>>,
    len: usize,
    from: Place,
    to: Place,
) -> usize
    requires shaped { IsShaped firsts.old.items runs.old.items }
    requires counted { len ≡ length (entries runs.old.items) }
    requires rising { from.run < to.run }
    requires from_place { (d : Vec (K × V)) → let run = slice_index_or runs.old.items from.run d in from.at ≤ length run.items }
    requires to_within { to.run < length runs.old.items }
    requires to_place { (d : Vec (K × V)) → let run = slice_index_or runs.old.items to.run d in to.at ≤ length run.items }
    ensures shaped { IsShaped firsts.new.items runs.new.items }
    ensures counted { result ≡ length (entries runs.new.items) }
    ensures loses { LosesBetween runs.old.items (offset runs.old.items from.run from.at) (offset runs.old.items to.run to.at) runs.new.items }
{
    let left = cut_run(firsts, runs, len, to.run, 0, to.at);
    let left = cut_whole(firsts, runs, left, from.run + 1, to.run);
    let end = runs[from.run].len();
    cut_run(firsts, runs, left, from.run, from.at, end)
}

// Removes whole runs, and returns how many entries are left.
fn cut_whole<K: Copy + Drop, V: Drop>(
    firsts: &mut Vec<K>,
    runs: &mut Vec<Vec<(K, V)>>,
    len: usize,
    from: usize,
    to: usize,
) -> usize
    requires shaped { IsShaped firsts.old.items runs.old.items }
    requires counted { len ≡ length (entries runs.old.items) }
    requires rising { from ≤ to }
    requires within { to ≤ length runs.old.items }
    ensures shaped { IsShaped firsts.new.items runs.new.items }
    ensures counted { result ≡ length (entries runs.new.items) }
    ensures before { take from runs.new.items ≡ take from runs.old.items }
    ensures loses { LosesBetween runs.old.items (offset runs.old.items from 0) (offset runs.old.items to 0) runs.new.items }
{
    let mut left = len;
    for run in &runs[from..to] {
        left -= run.len();
    }
    cut(firsts, from, to);
    cut(runs, from, to);
    left
}

// Removes entries from one run, and the run where they were all of it; returns how many entries are left.
fn cut_run<K: Copy + Drop, V: Drop>(
    firsts: &mut Vec<K>,
    runs: &mut Vec<Vec<(K, V)>>,
    len: usize,
    r: usize,
    from: usize,
    to: usize,
) -> usize
    requires shaped { IsShaped firsts.old.items runs.old.items }
    requires counted { len ≡ length (entries runs.old.items) }
    requires within { r < length runs.old.items }
    requires rising { from ≤ to }
    requires place { (d : Vec (K × V)) → let run = slice_index_or runs.old.items r d in to ≤ length run.items }
    ensures shaped { IsShaped firsts.new.items runs.new.items }
    ensures counted { result ≡ length (entries runs.new.items) }
    ensures before { take r runs.new.items ≡ take r runs.old.items }
    ensures loses { LosesBetween runs.old.items (offset runs.old.items r from) (offset runs.old.items r to) runs.new.items }
{
    let run = &mut runs[r];
    cut(run, from, to);
    if run.is_empty() {
        let _ = runs.remove(r);
        let _ = firsts.remove(r);
    } else if from == 0 {
        firsts[r] = run[0].0;
    }
    len - (to - from)
}

// Removes elements from a list. `Vec::drain` has the same effect, and moves what follows through a buffer of 4 KB that it zeroes first.
fn cut<T: Drop>(row: &mut Vec<T>, from: usize, to: usize)
    requires rising { from ≤ to }
    requires within { to ≤ length row.old.items }
    ensures { row.new.items ≡ remove_range row.old.items from to }
{
    let left = row.len() - (to - from);
    close_up(row, from, to - from);
    row.truncate(left);
}

// Moves what follows a gap down to where the gap begins; the elements of the gap are then the end of the list.
fn close_up<T>(row: &mut [T], from: usize, gap: usize)
    requires { from + gap ≤ length row.old }
    ensures len { length row.new ≡ length row.old }
    ensures closed { take (length row.old - gap) row.new ≡ remove_range row.old from (from + gap) }
{
    for place in from..row.len() - gap {
        row.swap(place, place + gap);
    }
}
