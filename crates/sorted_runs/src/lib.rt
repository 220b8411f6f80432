//! An ordered map that stores its entries in runs of bounded length, in the order of their keys.
//!
//! A search visits the first keys of the runs, and then one run. So the insertion of a key after all others is a push, and so is mostly
//! that of the next of a series of rising keys between others; iteration reads memory sequentially. A full run is split and an
//! empty one is removed; the runs after it then move by one position, which becomes noticeable at a million keys in random order.
//! Reading allocates nothing; only `insert` and `copy` can allocate.
//!
//! `search` finds positions, `edits` changes runs, `ranges` removes ranges of entries, `entries` iterates, and `copies` copies;
//! `placing` inserts an element into a list.
#![tactic(auto)]

ghost use Rattle.std.specs.Prelude.{◌≡◌, [], None, length, not, IfOk, IfErr, OnOk, OnErr};
ghost use Rattle.std.specs.Option.{option_copied};
ghost use Rattle.std.specs.List.{filter, AllZip};
ghost use Rattle.std.specs.Map.{keys_of, lookup, remove_entry};
ghost use Rattle.std.specs.BTreeMap.{is_at, insert_entry};
ghost use Rattle.std.specs.BTreeMap.Range.{range_contains};
ghost use Rattle.std.specs.declared.ops.Bound.TheVariants.{Included, Excluded, Unbounded};
ghost use Rattle.std.specs.List.Sorted.{IsStrictlySortedBy};
ghost use Rattle.sorted_runs.specs.Copies.{IsEntryCopy};

mod copies;
mod edits;
mod entries;
mod placing;
mod ranges;
mod search;

use copies::{copy_keys, copy_runs};
use edits::{add_counted, open, take_out, write};
pub use entries::Entries;
pub use placing::put_in;
use ranges::cut_out;
use search::{end_of, run_for, slot, slot_within, start_of};
use std::alloc::{AllocError, AllocFailed, Global};
use std::marker::Model;
use std::ops::Bound;

/// A map, with its entries in the order of their keys.
#[derive(Drop)]
pub struct SortedRuns<K: Ord + Copy, V> {
    alloc: Global,
    firsts: Vec<K>,
    runs: Vec<Vec<(K, V)>>,
    len: usize,
    // The run of the last insertion or removal, which is tried first: successive keys are often close to each other.
    near: usize,
}

impl<K: Ord + Copy, V> Model for SortedRuns<K, V> {
    ghost use Rattle.std.specs.Prelude.{List};
    ghost use Rattle.sorted_runs.specs.Rows.{entries, IsRuns};

    ghost Value = { List (K × V) };

    ghost view = { λ s. entries s.runs.items };

    ghost invariant = { λ s. IsRuns K.cmp s.firsts.items s.runs.items s.len };
}

impl<K: Ord + Copy, V> SortedRuns<K, V> {
    /// A map with no entries. It allocates nothing.
    pub fn new(alloc: Global) -> Self
        ensures { result ≡ [] }
    {
        SortedRuns {
            alloc,
            firsts: Vec::new(alloc),
            runs: Vec::new(alloc),
            len: 0,
            near: 0,
        }
    }

    /// The number of entries.
    pub fn len(&self) -> usize
        ensures len { result ≡ length self.now }
        ensures ordered { IsStrictlySortedBy K.cmp (keys_of self.now) }
    {
        self.len
    }

    /// The value of a key, or None where it has none.
    pub fn get(&self, key: &K) -> Option<&V>
        ensures value { option_copied result ≡ lookup (is_at (K.cmp key.now)) self.now }
        ensures ordered { IsStrictlySortedBy K.cmp (keys_of self.now) }
    {
        if self.firsts.is_empty() {
            return None;
        }
        let r = run_for(&self.firsts, self.near, key);
        let run = &self.runs[r];
        match slot_within(run, key) {
            Ok(at) => Some(&run[at].1),
            Err(_) => None,
        }
    }

    /// All entries, rising.
    pub fn iter(&self) -> Entries<'_, K, V>
        ensures rest { result ≡ self.now }
        ensures ordered { IsStrictlySortedBy K.cmp (keys_of self.now) }
    {
        Entries::all(&self.runs)
    }

    /// The entries with keys above one, rising.
    pub fn above(&self, key: K) -> Entries<'_, K, V>
        ensures above { filter (λ e. range_contains K.cmp (Excluded key) Unbounded e.0) self.now ≡ result }
        ensures ordered { IsStrictlySortedBy K.cmp (keys_of self.now) }
    {
        if self.firsts.is_empty() {
            return Entries::all(&self.runs);
        }
        let from = Bound::Excluded(key);
        let begin = start_of(&self.firsts, &self.runs, self.near, &from);
        Entries::on_from(&self.runs, begin)
    }

    /// The entries with keys up to one, rising.
    pub fn up_to(&self, key: K) -> Entries<'_, K, V>
        ensures up_to { filter (λ e. range_contains K.cmp Unbounded (Included key) e.0) self.now ≡ result }
        ensures ordered { IsStrictlySortedBy K.cmp (keys_of self.now) }
    {
        if self.firsts.is_empty() {
            return Entries::all(&self.runs);
        }
        let to = Bound::Included(key);
        let end = end_of(&self.firsts, &self.runs, self.near, &to);
        Entries::up_to(&self.runs, end)
    }

    /// The entries with keys between two bounds, rising; none where the bounds cross.
    pub fn range(&self, from: Bound<K>, to: Bound<K>) -> Entries<'_, K, V>
        ensures between { filter (λ e. range_contains K.cmp from to e.0) self.now ≡ result }
        ensures ordered { IsStrictlySortedBy K.cmp (keys_of self.now) }
    {
        if self.firsts.is_empty() {
            return Entries::all(&self.runs);
        }
        let begin = start_of(&self.firsts, &self.runs, self.near, &from);
        let end = end_of(&self.firsts, &self.runs, self.near, &to);
        Entries::between(&self.runs, begin, end)
    }
}

impl<K: Ord + Copy + Drop, V: Drop> SortedRuns<K, V> {
    /// Sets the value of a key, and returns the previous one. The error is an allocation failure, or an overflow of the number of entries:
    /// the entries are then unchanged, without the key, and the error returns the key and the value.
    pub fn insert(&mut self, key: K, value: V) -> Result<Option<V>, AllocFailed<(K, V)>>
        ensures had { IfOk result (λ had. had ≡ lookup (is_at (K.cmp key)) self.old) }
        ensures gains { OnOk result (self.new ≡ insert_entry K.cmp self.old key value) }
        ensures returned { IfErr result (λ e. e.value ≡ (key, value)) }
        ensures absent { OnErr result (lookup (is_at (K.cmp key)) self.old ≡ None) }
        ensures unchanged { OnErr result (self.new ≡ self.old) }
        ensures was_ordered { IsStrictlySortedBy K.cmp (keys_of self.old) }
        ensures ordered { IsStrictlySortedBy K.cmp (keys_of self.new) }
    {
        if self.firsts.is_empty() {
            open(self.alloc, &mut self.firsts, &mut self.runs, 0, key, value)?;
            self.len = 1;
            return Ok(None);
        }
        let r = run_for(&self.firsts, self.near, &key);
        self.near = r;
        match slot(&self.runs[r], &key) {
            Ok(at) => Ok(Some(write(&mut self.runs[r], at, value))),
            Err(at) => {
                let (firsts, runs) = (&mut self.firsts, &mut self.runs);
                let len = add_counted(self.alloc, firsts, runs, self.len, r, at, key, value)?;
                self.len = len;
                Ok(None)
            }
        }
    }

    /// Removes a key, and returns its value, or None where it had none.
    pub fn remove(&mut self, key: &K) -> Option<V>
        ensures had { result ≡ lookup (is_at (K.cmp key.now)) self.old }
        ensures loses { self.new ≡ remove_entry (is_at (K.cmp key.now)) self.old }
        ensures was_ordered { IsStrictlySortedBy K.cmp (keys_of self.old) }
        ensures ordered { IsStrictlySortedBy K.cmp (keys_of self.new) }
    {
        if self.firsts.is_empty() {
            return None;
        }
        let r = run_for(&self.firsts, self.near, key);
        self.near = r;
        match slot_within(&self.runs[r], key) {
            Ok(at) => {
                let value = take_out(&mut self.firsts, &mut self.runs, r, at);
                self.len -= 1;
                Some(value)
            }
            Err(_) => None,
        }
    }

    /// Removes the entries with keys between two bounds; none where the bounds cross. It allocates nothing.
    pub fn remove_range(&mut self, from: Bound<K>, to: Bound<K>)
        ensures loses { self.new ≡ filter (λ e. not (range_contains K.cmp from to e.0)) self.old }
        ensures was_ordered { IsStrictlySortedBy K.cmp (keys_of self.old) }
        ensures ordered { IsStrictlySortedBy K.cmp (keys_of self.new) }
    {
        if self.firsts.is_empty() {
            return;
        }
        let begin = start_of(&self.firsts, &self.runs, self.near, &from);
        let end = end_of(&self.firsts, &self.runs, self.near, &to);
        self.len = cut_out(&mut self.firsts, &mut self.runs, self.len, begin, end);
    }
}

impl<K: Ord + Copy + Drop, V: Clone + Drop> SortedRuns<K, V> {
    /// The same keys and clones of their values, with memory of their own. The only error is an allocation failure.
    pub fn copy(&self) -> Result<Self, AllocError>
        ensures cases { IfOk result (λ m. AllZip (IsEntryCopy V.is_clone) self.now m) }
    {
        Ok(SortedRuns {
            alloc: self.alloc,
            firsts: copy_keys(self.alloc, &self.firsts)?,
            runs: copy_runs(self.alloc, &self.runs)?,
            len: self.len,
            near: self.near,
        })
    }
}
