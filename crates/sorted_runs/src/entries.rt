ghost use Rattle.std.specs.Prelude.{◌≡◌, ◌<◌, ◌≤◌, length, drop, take, slice_index_or};
ghost use Rattle.std.specs.Global.{Vec};
ghost use Rattle.std.specs.Iterator.{at_most};
ghost use Rattle.std.specs.Map.Iter.{TakesFirst, TakesLast, deref_pair};
ghost use Rattle.sorted_runs.specs.Rows.{entries};
ghost use Rattle.sorted_runs.specs.Edits.{offset};

use crate::search::Place;
use std::iter::{DoubleEndedIterator, Iterator};
use std::marker::Model;

/// Entries in the order of their keys, an iterator from either end.
#[derive(Drop)]
pub struct Entries<'a, K, V> {
    front: &'a [(K, V)],
    middle: &'a [Vec<(K, V)>],
    back: &'a [(K, V)],
}

impl<'a, K, V> Model for Entries<'a, K, V> {
    ghost use Rattle.std.specs.Prelude.{List, ◌++◌};
    ghost use Rattle.sorted_runs.specs.Rows.{entries};

    ghost Value = { List (K × V) };

    ghost view = { λ a. a.front.now ++ (entries a.middle.now ++ a.back.now) };
}

impl<'a, K, V> Entries<'a, K, V> {
    // The entries of all runs.
    pub(crate) fn all(runs: &'a [Vec<(K, V)>]) -> Entries<'a, K, V>
        ensures { result ≡ entries runs.now }
    {
        Entries {
            front: &[],
            middle: runs,
            back: &[],
        }
    }

    // The entries from one position up to another.
    pub(crate) fn between(runs: &'a [Vec<(K, V)>], from: Place, to: Place) -> Entries<'a, K, V>
        requires from_within { from.run < length runs.now }
        requires from_place { (d : Vec (K × V)) → let run = slice_index_or runs.now from.run d in from.at ≤ length run.items }
        requires to_within { to.run < length runs.now }
        requires to_place { (d : Vec (K × V)) → let run = slice_index_or runs.now to.run d in to.at ≤ length run.items }
        ensures { result ≡ drop (offset runs.now from.run from.at) (take (offset runs.now to.run to.at) (entries runs.now)) }
    {
        let first = &runs[from.run];
        let last = &runs[to.run];
        if from.run < to.run {
            return Entries {
                front: &first[from.at..],
                middle: &runs[from.run + 1..to.run],
                back: &last[..to.at],
            };
        }
        if from.run > to.run || from.at > to.at {
            return Entries {
                front: &[],
                middle: &[],
                back: &[],
            };
        }
        Entries {
            front: &first[from.at..to.at],
            middle: &[],
            back: &[],
        }
    }
}

impl<'a, K, V> Entries<'a, K, V> {
    // The entries from a position on.
    pub(crate) fn on_from(runs: &'a [Vec<(K, V)>], from: Place) -> Entries<'a, K, V>
        requires within { from.run < length runs.now }
        requires place { (d : Vec (K × V)) → let run = slice_index_or runs.now from.run d in from.at ≤ length run.items }
        ensures { result ≡ drop (offset runs.now from.run from.at) (entries runs.now) }
    {
        let first = &runs[from.run];
        Entries {
            front: &first[from.at..],
            middle: &runs[from.run + 1..],
            back: &[],
        }
    }

    // The entries up to a position.
    pub(crate) fn up_to(runs: &'a [Vec<(K, V)>], to: Place) -> Entries<'a, K, V>
        requires within { to.run < length runs.now }
        requires place { (d : Vec (K × V)) → let run = slice_index_or runs.now to.run d in to.at ≤ length run.items }
        ensures { result ≡ take (offset runs.now to.run to.at) (entries runs.now) }
    {
        let last = &runs[to.run];
        Entries {
            front: &[],
            middle: &runs[..to.run],
            back: &last[..to.at],
        }
    }
}

impl<'a, K, V> Iterator for Entries<'a, K, V> {
    type Item = (&'a K, &'a V);

    ghost next_gives = { TakesFirst deref_pair };

    ghost remaining = { λ s. at_most (length s) };

    #[inline]
    fn next(&mut self) -> Option<(&'a K, &'a V)> {
        loop {
            let front = self.front;
            if let Some((entry, rest)) = front.split_first() {
                self.front = rest;
                return Some((&entry.0, &entry.1));
            }
            let middle = self.middle;
            let Some((run, rest)) = middle.split_first() else {
                break;
            };
            self.front = run;
            self.middle = rest;
        }
        let back = self.back;
        let (entry, rest) = back.split_first()?;
        self.back = rest;
        Some((&entry.0, &entry.1))
    }
}

impl<'a, K, V> DoubleEndedIterator for Entries<'a, K, V> {
    ghost next_back_gives = { TakesLast deref_pair };

    #[inline]
    fn next_back(&mut self) -> Option<(&'a K, &'a V)> {
        loop {
            let back = self.back;
            if let Some((entry, rest)) = back.split_last() {
                self.back = rest;
                return Some((&entry.0, &entry.1));
            }
            let middle = self.middle;
            let Some((run, rest)) = middle.split_last() else {
                break;
            };
            self.back = run;
            self.middle = rest;
        }
        let front = self.front;
        let (entry, rest) = front.split_last()?;
        self.front = rest;
        Some((&entry.0, &entry.1))
    }
}
