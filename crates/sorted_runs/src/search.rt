ghost use Rattle.std.specs.Prelude.{◌≡◌, ◌<◌, ◌≤◌, length, take, IfOk, IfErr, IsTrue, slice_index_or, true, false};
ghost use Rattle.std.specs.Global.{Vec};
ghost use Rattle.std.specs.Map.{keys_of};
ghost use Rattle.std.specs.BTreeMap.Range.{is_from_start, is_past_end};
ghost use Rattle.std.specs.List.Sorted.{IsStrictlySortedBy};
ghost use Rattle.sorted_runs.specs.Edits.{offset};
ghost use Rattle.sorted_runs.specs.Places.{IsRunFor, IsFoundAt, IsGap, IsCut, Passes, is_after};
ghost use Rattle.sorted_runs.specs.Rows.{entries, IsRuns};

use std::cmp::Ordering;
use std::ops::Bound;

// The distance between the entries of a run that a search visits first.
const STRIDE: usize = 8;

// A position in a run, before an entry or after the last one.
#[derive(Clone, Copy)]
pub(crate) struct Place {
    pub(crate) run: usize,
    pub(crate) at: usize,
}

// The last run whose first key is not above the key, or the first run. The run `near` is tried before the others.
pub(crate) fn run_for<K: Ord>(firsts: &[K], near: usize, key: &K) -> usize
    requires some { 0 < length firsts.now }
    requires rising { IsStrictlySortedBy K.cmp firsts.now }
    ensures { IsRunFor K.cmp firsts.now key.now result }
{
    if near < firsts.len() - 1
        && key.cmp(&firsts[near]).is_ge()
        && key.cmp(&firsts[near + 1]).is_lt()
    {
        return near;
    }
    run_among(firsts, key)
}

// The same by binary search. The key is below each first key from `end` on, and not below that of `r`, unless it is 0.
fn run_among<K: Ord>(firsts: &[K], key: &K) -> usize
    requires some { 0 < length firsts.now }
    requires rising { IsStrictlySortedBy K.cmp firsts.now }
    ensures { IsRunFor K.cmp firsts.now key.now result }
{
    let last = firsts.len() - 1;
    if key.cmp(&firsts[last]).is_ge() {
        return last;
    }
    let mut r = 0;
    let mut end = firsts.len();
    while end - r > 1 {
        let middle = r + (end - r) / 2;
        if key.cmp(&firsts[middle]).is_lt() {
            end = middle;
        } else {
            r = middle;
        }
    }
    r
}

// The index of the key in a run, or where it would be inserted.
pub(crate) fn slot<K: Ord, V>(run: &[(K, V)], key: &K) -> Result<usize, usize>
    requires { IsStrictlySortedBy K.cmp (keys_of run.now) }
    ensures hit { IfOk result (IsFoundAt K.cmp run.now key.now) }
    ensures gap { IfErr result (IsGap K.cmp run.now key.now) }
{
    if is_behind(run, key) {
        return Err(run.len());
    }
    slot_within(run, key)
}

// The same where the run is likely to have the key: a look at its last entry would cost a cache miss and decide nothing.
pub(crate) fn slot_within<K: Ord, V>(run: &[(K, V)], key: &K) -> Result<usize, usize>
    requires { IsStrictlySortedBy K.cmp (keys_of run.now) }
    ensures hit { IfOk result (IsFoundAt K.cmp run.now key.now) }
    ensures gap { IfErr result (IsGap K.cmp run.now key.now) }
{
    slot_from(run, key, stride_to(run, key))
}

// Whether the key is above all of a run, by its last entry: true in a series of rising keys.
fn is_behind<K: Ord, V>(run: &[(K, V)], key: &K) -> bool
    requires { IsStrictlySortedBy K.cmp (keys_of run.now) }
    ensures { IsTrue result → Passes K.cmp key.now run.now }
{
    let len = run.len();
    if len == 0 {
        return true;
    }
    key.cmp(&run[len - 1].0).is_gt()
}

// A position before which all keys are below the key. The addresses that it reads do not depend on what it found, so the memory is
// prefetched: a binary search would wait for each entry.
fn stride_to<K: Ord, V>(run: &[(K, V)], key: &K) -> usize
    requires { IsStrictlySortedBy K.cmp (keys_of run.now) }
    ensures within { result ≤ length run.now }
    ensures passed { Passes K.cmp key.now (take result run.now) }
{
    let mut at = 0;
    while run.len() - at > STRIDE {
        if key.cmp(&run[at + STRIDE].0).is_lt() {
            return at;
        }
        at += STRIDE;
    }
    at
}

// The same as slot, from a position on before which all keys are below the key.
fn slot_from<K: Ord, V>(run: &[(K, V)], key: &K, from: usize) -> Result<usize, usize>
    requires sorted { IsStrictlySortedBy K.cmp (keys_of run.now) }
    requires within { from ≤ length run.now }
    requires passed { Passes K.cmp key.now (take from run.now) }
    ensures hit { IfOk result (IsFoundAt K.cmp run.now key.now) }
    ensures gap { IfErr result (IsGap K.cmp run.now key.now) }
{
    let mut at = from;
    while at < run.len() {
        match key.cmp(&run[at].0) {
            Ordering::Greater => at += 1,
            Ordering::Equal => return Ok(at),
            Ordering::Less => return Err(at),
        }
    }
    Err(at)
}

// Before the first entry at or above the key, or before the first above it.
fn place_of<K: Ord, V>(
    firsts: &[K],
    runs: &[Vec<(K, V)>],
    near: usize,
    key: &K,
    past: bool,
) -> Place
    requires some { 0 < length firsts.now }
    requires whole { IsRuns K.cmp firsts.now runs.now (length (entries runs.now)) }
    ensures within { result.run < length runs.now }
    ensures place { (d : Vec (K × V)) → let run = slice_index_or runs.now result.run d in result.at ≤ length run.items }
    ensures cut { IsCut (λ k. is_after past (K.cmp key.now k)) (entries runs.now) (offset runs.now result.run result.at) }
{
    let run = run_for(firsts, near, key);
    let at = match slot(&runs[run], key) {
        Ok(at) if past => at + 1,
        Ok(at) => at,
        Err(at) => at,
    };
    Place { run, at }
}

// The position where the entries within a lower bound begin.
pub(crate) fn start_of<K: Ord, V>(
    firsts: &[K],
    runs: &[Vec<(K, V)>],
    near: usize,
    from: &Bound<K>,
) -> Place
    requires some { 0 < length firsts.now }
    requires whole { IsRuns K.cmp firsts.now runs.now (length (entries runs.now)) }
    ensures within { result.run < length runs.now }
    ensures place { (d : Vec (K × V)) → let run = slice_index_or runs.now result.run d in result.at ≤ length run.items }
    ensures cut { IsCut (is_from_start K.cmp from.now) (entries runs.now) (offset runs.now result.run result.at) }
{
    match from {
        Bound::Included(key) => place_of(firsts, runs, near, key, false),
        Bound::Excluded(key) => place_of(firsts, runs, near, key, true),
        Bound::Unbounded => Place { run: 0, at: 0 },
    }
}

// The position where the entries within an upper bound end.
pub(crate) fn end_of<K: Ord, V>(
    firsts: &[K],
    runs: &[Vec<(K, V)>],
    near: usize,
    to: &Bound<K>,
) -> Place
    requires some { 0 < length firsts.now }
    requires whole { IsRuns K.cmp firsts.now runs.now (length (entries runs.now)) }
    ensures within { result.run < length runs.now }
    ensures place { (d : Vec (K × V)) → let run = slice_index_or runs.now result.run d in result.at ≤ length run.items }
    ensures cut { IsCut (is_past_end K.cmp to.now) (entries runs.now) (offset runs.now result.run result.at) }
{
    match to {
        Bound::Included(key) => place_of(firsts, runs, near, key, true),
        Bound::Excluded(key) => place_of(firsts, runs, near, key, false),
        Bound::Unbounded => {
            let run = runs.len() - 1;
            Place {
                run,
                at: runs[run].len(),
            }
        }
    }
}
