ghost use Rattle.std.specs.Prelude.{◌≡◌, ◌<◌, ◌↔◌, Some, None, IfOk, IfSome, IsNone, IsTrue, OnOk, OnErr};
ghost use Rattle.hot_log.specs.Indexing.{empty_index, IsNextKey, GainsKey, LosesKey, RaisesStart};

use crate::packed::PackedKey;
use sorted_runs::SortedRuns;
use std::alloc::{AllocError, Global};
use std::marker::Model;
use std::ops::Bound;

/// Keys of records in groups, by their segment backlink. It has the groups from its start on, and leaves out lower ones.
#[derive(Drop)]
pub struct KeyIndex {
    keys: SortedRuns<(u64, PackedKey), ()>,
    start: u64,
}

impl Model for KeyIndex {
    ghost use Rattle.std.specs.Map.{keys_of};
    ghost use Rattle.hot_log.specs.Indexing.{IndexData, IsFrom};

    ghost Value = { IndexData };

    ghost view = { λ i. record { start = i.start; keys = keys_of i.keys } };

    ghost invariant = { λ i. IsFrom i.start (keys_of i.keys) };
}

impl KeyIndex {
    /// An index without keys that starts at group 0. It allocates nothing.
    pub fn new(alloc: Global) -> Self
        ensures { result ≡ empty_index }
    {
        KeyIndex {
            keys: SortedRuns::new(alloc),
            start: 0,
        }
    }

    /// An equal index with memory of its own. The only error is an allocation failure.
    pub fn copy(&self) -> Result<Self, AllocError>
        ensures { IfOk result (λ i. i ≡ self.now) }
    {
        Ok(KeyIndex {
            keys: self.keys.copy()?,
            start: self.start,
        })
    }

    /// Adds a key to a group, unless the index starts above the group. The only error is an allocation failure, which leaves the index
    /// unchanged.
    pub fn insert(&mut self, group: u64, key: PackedKey) -> Result<(), AllocError>
        ensures gains { OnOk result (GainsKey self.old group key self.new) }
        ensures unchanged { OnErr result (self.new ≡ self.old) }
    {
        if group < self.start {
            return Ok(());
        }
        let _ = self.keys.insert((group, key), ())?;
        Ok(())
    }

    /// Removes a key from a group.
    pub fn remove(&mut self, group: u64, key: PackedKey)
        ensures { LosesKey self.old group key self.new }
    {
        let _ = self.keys.remove(&(group, key));
    }

    /// Raises the start to a group, unless it is as high, and removes the keys of all lower groups in one range.
    pub fn raise(&mut self, group: u64)
        ensures { RaisesStart self.old group self.new }
    {
        if group <= self.start {
            return;
        }
        let end = Bound::Excluded((group, PackedKey::least()));
        self.keys.remove_range(Bound::Unbounded, end);
        self.start = group;
    }

    /// Whether the index starts above a group.
    pub fn leaves_out(&self, group: u64) -> bool
        ensures { IsTrue result ↔ group < self.now.start }
    {
        group < self.start
    }

    /// The least key of a group above the one given, and the least of it above that one.
    pub fn next_two(&self, group: u64, after: PackedKey) -> Option<(PackedKey, Option<PackedKey>)>
        ensures none { IsNone result → IsNextKey self.now.keys group after None }
        ensures some { IfSome result (λ t. IsNextKey self.now.keys group after (Some t.0) × IsNextKey self.now.keys group t.0 t.1) }
    {
        let mut rest = self.keys.above((group, after));
        let (place, _) = rest.next()?;
        if place.0 != group {
            return None;
        }
        match rest.next() {
            Some((second, _)) if second.0 == group => Some((place.1, Some(second.1))),
            _ => Some((place.1, None)),
        }
    }

    /// The least key of a group above the one given.
    pub fn next(&self, group: u64, after: PackedKey) -> Option<PackedKey>
        ensures { IsNextKey self.now.keys group after result }
    {
        let (place, _) = self.keys.above((group, after)).next()?;
        if place.0 == group {
            Some(place.1)
        } else {
            None
        }
    }
}
