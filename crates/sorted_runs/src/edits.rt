ghost use Rattle.std.specs.Prelude.{◌≡◌, ◌+◌, ◌<◌, ◌≤◌, length, IfOk, IfErr, OnOk, OnErr, slice_index_or, slice_set};
ghost use Rattle.std.specs.Global.{Vec};
ghost use Rattle.sorted_runs.specs.Edits.{IsShaped, GainsAt, LosesAt, Splits};
ghost use Rattle.sorted_runs.specs.Rows.{entries};

use crate::placing::put_in;
use std::alloc::{AllocError, AllocFailed, Global};
use std::mem::replace;

// The capacity of a run, and the least number of entries that stay in it when a full one is split.
const FULL: usize = 64;

const HALF: usize = 32;

// Replaces the value at a position.
pub(crate) fn write<K, V>(run: &mut Vec<(K, V)>, at: usize, value: V) -> V
    requires { at < length run.old.items }
    ensures was { (d : K × V) → let e = slice_index_or run.old.items at d in result ≡ e.1 }
    ensures written { (d : K × V) → let e = slice_index_or run.old.items at d in run.new.items ≡ slice_set run.old.items at (e.0, value) }
{
    let entry = &mut run[at];
    replace(&mut entry.1, value)
}

// Removes the entry at a position from its run; the run is removed where this was its last entry.
pub(crate) fn take_out<K: Copy + Drop, V: Drop>(
    firsts: &mut Vec<K>,
    runs: &mut Vec<Vec<(K, V)>>,
    r: usize,
    at: usize,
) -> V
    requires shaped { IsShaped firsts.old.items runs.old.items }
    requires within { r < length runs.old.items }
    requires place { (d : Vec (K × V)) → let run = slice_index_or runs.old.items r d in at < length run.items }
    ensures shaped { IsShaped firsts.new.items runs.new.items }
    ensures value { (d : Vec (K × V)) (e : K × V) → let run = slice_index_or runs.old.items r d in let x = slice_index_or run.items at e in result ≡ x.1 }
    ensures loses { (d : Vec (K × V)) → LosesAt runs.old.items r at d runs.new.items }
{
    let run = &mut runs[r];
    let (_, value) = run.remove(at);
    if run.is_empty() {
        let _ = runs.remove(r);
        let _ = firsts.remove(r);
    } else if at == 0 {
        firsts[r] = run[0].0;
    }
    value
}

// Inserts an entry into a run. A full run is split, or the entry begins a run of its own after it.
pub(crate) fn add<K: Copy + Drop, V: Drop>(
    alloc: Global,
    firsts: &mut Vec<K>,
    runs: &mut Vec<Vec<(K, V)>>,
    r: usize,
    at: usize,
    key: K,
    value: V,
) -> Result<(), AllocFailed<(K, V)>>
    requires shaped { IsShaped firsts.old.items runs.old.items }
    requires within { r < length runs.old.items }
    requires place { (d : Vec (K × V)) → let run = slice_index_or runs.old.items r d in at ≤ length run.items }
    ensures shaped { IsShaped firsts.new.items runs.new.items }
    ensures gains { OnOk result (GainsAt runs.old.items r at (key, value) runs.new.items) }
    ensures returned { IfErr result (λ e. e.value ≡ (key, value)) }
    ensures unchanged { OnErr result (entries runs.new.items ≡ entries runs.old.items) }
{
    let len = runs[r].len();
    if len < FULL {
        return add_into(firsts, runs, r, at, key, value);
    }
    if at == len {
        return open(alloc, firsts, runs, r + 1, key, value);
    }
    // Nothing follows the entry in its run, so that the next of a series of rising keys is a push; but half of the run stays.
    let Ok(()) = split(firsts, runs, r, at.max(HALF)) else {
        return Err(AllocFailed {
            value: (key, value),
        });
    };
    add_into(firsts, runs, r, at, key, value)
}

// The same with the number of all entries; it returns their new number.
pub(crate) fn add_counted<K: Copy + Drop, V: Drop>(
    alloc: Global,
    firsts: &mut Vec<K>,
    runs: &mut Vec<Vec<(K, V)>>,
    len: usize,
    r: usize,
    at: usize,
    key: K,
    value: V,
) -> Result<usize, AllocFailed<(K, V)>>
    requires shaped { IsShaped firsts.old.items runs.old.items }
    requires within { r < length runs.old.items }
    requires place { (d : Vec (K × V)) → let run = slice_index_or runs.old.items r d in at ≤ length run.items }
    ensures shaped { IsShaped firsts.new.items runs.new.items }
    ensures gains { OnOk result (GainsAt runs.old.items r at (key, value) runs.new.items) }
    ensures counts { IfOk result (λ more. more ≡ len + 1) }
    ensures returned { IfErr result (λ e. e.value ≡ (key, value)) }
    ensures unchanged { OnErr result (entries runs.new.items ≡ entries runs.old.items) }
{
    let Some(more) = len.checked_add(1) else {
        return Err(AllocFailed {
            value: (key, value),
        });
    };
    add(alloc, firsts, runs, r, at, key, value)?;
    Ok(more)
}

// Inserts an entry into a run that is not full.
pub(crate) fn add_into<K: Copy, V>(
    firsts: &mut Vec<K>,
    runs: &mut Vec<Vec<(K, V)>>,
    r: usize,
    at: usize,
    key: K,
    value: V,
) -> Result<(), AllocFailed<(K, V)>>
    requires shaped { IsShaped firsts.old.items runs.old.items }
    requires within { r < length runs.old.items }
    requires place { (d : Vec (K × V)) → let run = slice_index_or runs.old.items r d in at ≤ length run.items }
    requires room { (d : Vec (K × V)) → let run = slice_index_or runs.old.items r d in length run.items < FULL }
    ensures shaped { OnOk result (IsShaped firsts.new.items runs.new.items) }
    ensures gains { OnOk result (GainsAt runs.old.items r at (key, value) runs.new.items) }
    ensures returned { IfErr result (λ e. e.value ≡ (key, value)) }
    ensures shape_stays { OnErr result (IsShaped firsts.new.items runs.new.items) }
    ensures unchanged { OnErr result (entries runs.new.items ≡ entries runs.old.items) }
{
    let run = &mut runs[r];
    put_in(run, at, (key, value))?;
    if at == 0 {
        firsts[r] = key;
    }
    Ok(())
}

// Inserts an entry in a run of its own, before the run r or after all others.
pub(crate) fn open<K: Copy + Drop, V: Drop>(
    alloc: Global,
    firsts: &mut Vec<K>,
    runs: &mut Vec<Vec<(K, V)>>,
    r: usize,
    key: K,
    value: V,
) -> Result<(), AllocFailed<(K, V)>>
    requires shaped { IsShaped firsts.old.items runs.old.items }
    requires within { r ≤ length runs.old.items }
    ensures shaped { IsShaped firsts.new.items runs.new.items }
    ensures gains { OnOk result (GainsAt runs.old.items r 0 (key, value) runs.new.items) }
    ensures returned { IfErr result (λ e. e.value ≡ (key, value)) }
    ensures unchanged { OnErr result (entries runs.new.items ≡ entries runs.old.items) }
{
    let Ok(()) = firsts.reserve(1) else {
        return Err(AllocFailed {
            value: (key, value),
        });
    };
    let Ok(()) = runs.reserve(1) else {
        return Err(AllocFailed {
            value: (key, value),
        });
    };
    let mut run = Vec::new(alloc);
    run.push((key, value))?;
    let _ = put_in(firsts, r, key);
    let _ = put_in(runs, r, run);
    Ok(())
}

// Moves the entries of a run from the position cut on into a run of their own after it.
pub(crate) fn split<K: Copy + Drop, V: Drop>(
    firsts: &mut Vec<K>,
    runs: &mut Vec<Vec<(K, V)>>,
    r: usize,
    cut: usize,
) -> Result<(), AllocError>
    requires shaped { IsShaped firsts.old.items runs.old.items }
    requires within { r < length runs.old.items }
    requires some { 0 < cut }
    requires place { (d : Vec (K × V)) → let run = slice_index_or runs.old.items r d in cut < length run.items }
    ensures shaped { IsShaped firsts.new.items runs.new.items }
    ensures same { entries runs.new.items ≡ entries runs.old.items }
    ensures cuts { OnOk result (Splits runs.old.items r cut runs.new.items) }
{
    firsts.reserve(1)?;
    runs.reserve(1)?;
    let run = &mut runs[r];
    let rest = run.split_off(cut)?;
    let first = rest[0].0;
    let _ = put_in(firsts, r + 1, first);
    let _ = put_in(runs, r + 1, rest);
    Ok(())
}
