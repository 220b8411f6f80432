ghost use Rattle.std.specs.Prelude.{◌≡◌, [], IfOk, OnErr, Some, None, ℕ, OnOk};
ghost use Rattle.std.specs.Option.{IsSome, IsNone};
ghost use Rattle.std.specs.Map.{keys_of, lookup};
ghost use Rattle.std.specs.BTreeMap.{is_at, insert_entry};
ghost use Rattle.std.specs.List.Sorted.{IsStrictlySortedBy};
ghost use Rattle.std.specs.Option.{option_copied};
ghost use Rattle.hot_log.specs.Indexing.{AreAbove, LosesEntry, IsUnderKey, IsLeastKey, GainsEntry, IsGreatestKey, IsGreatestOf};
ghost use Rattle.hot_log.specs.Kept.{IsKeyKept};
ghost use Rattle.redo_core.specs.Order.{IsRising, Lists};
ghost use Rattle.hot_log.specs.Scanning.{EntryBefore};
ghost use Rattle.redo_core.specs.Keys.{KeyBefore};
ghost use Rattle.std.specs.List.{Contains};

use crate::packed::PackedKey;
use crate::spans::keeps;
use epoch_book::EpochBook;
use redo_core::{Key, Record};
use sorted_runs::{Entries, SortedRuns};
use std::alloc::{AllocError, Global};
use std::marker::Model;

/// The record of each key.
#[derive(Drop)]
pub struct KeyRecords {
    map: SortedRuns<PackedKey, Record>,
}

impl Model for KeyRecords {
    ghost use Rattle.std.specs.Prelude.{List};
    ghost use Rattle.redo_core.specs.Data.{RecordData};
    ghost use Rattle.std.specs.Map.{keys_of};
    ghost use Rattle.std.specs.List.Sorted.{IsStrictlySortedBy};
    ghost use Rattle.redo_core.specs.Keys.{key_cmp};
    ghost use Rattle.redo_core.specs.declared.keys.Key.{Key};

    ghost Value = { List (Key × RecordData) };

    ghost view = { λ k. k.map };

    ghost invariant = { λ k. IsStrictlySortedBy key_cmp (keys_of k.map) };
}

impl KeyRecords {
    /// A map without keys. It allocates nothing.
    pub fn new(alloc: Global) -> Self
        ensures { result ≡ [] }
    {
        KeyRecords {
            map: SortedRuns::new(alloc),
        }
    }

    /// Equal entries with memory of their own. The only error is an allocation failure.
    pub fn copy(&self) -> Result<Self, AllocError>
        ensures { IfOk result (λ k. k ≡ self.now) }
    {
        Ok(KeyRecords {
            map: self.map.copy()?,
        })
    }

    /// The record of a key, or None where it has none.
    pub fn get(&self, key: PackedKey) -> Option<&Record>
        ensures { IsUnderKey self.now key (option_copied result) }
    {
        self.map.get(&key)
    }

    /// Adds a key that is not there, with one more owner of its record. The only error is an allocation failure, which changes nothing.
    pub fn add(&mut self, key: PackedKey, redo: &Record) -> Result<(), AllocError>
        requires { IsUnderKey self.old key None }
        ensures gains { OnOk result (GainsEntry self.old key redo.now self.new) }
        ensures unchanged { OnErr result (self.new ≡ self.old) }
    {
        let copied = redo.copy()?;
        let _had = self.map.insert(key, copied)?;
        Ok(())
    }

    /// Removes a key, and returns its record.
    pub fn remove(&mut self, key: PackedKey) -> Option<Record>
        ensures had { IsUnderKey self.old key result }
        ensures loses { LosesEntry self.old key self.new }
        ensures unchanged { IsNone result → self.new ≡ self.old }
    {
        self.map.remove(&key)
    }

    /// The least key above the one given, or the least of all for None.
    pub fn key_after(&self, after: Option<PackedKey>) -> Option<PackedKey>
        ensures { IsLeastKey self.now after result }
    {
        match after {
            Some(key) => self.key_above(key),
            None => self.first_key(),
        }
    }

    /// The greatest key, or None where there is none.
    pub fn greatest_key(&self) -> Option<PackedKey>
        ensures { IsGreatestOf self.now result }
    {
        let (key, _) = self.map.iter().next_back()?;
        Some(*key)
    }

    fn first_key(&self) -> Option<PackedKey>
        ensures { IsLeastKey self.now None result }
    {
        let (key, _) = self.map.iter().next()?;
        Some(*key)
    }

    fn key_above(&self, after: PackedKey) -> Option<PackedKey>
        ensures { IsLeastKey self.now (Some after) result }
    {
        let (key, _) = self.map.above(after).next()?;
        Some(*key)
    }

    /// The keys with their records, rising.
    pub fn entries(&self) -> Entries<'_, PackedKey, Record>
        ensures all { result ≡ self.now }
        ensures rising { IsRising EntryBefore result }
    {
        self.map.iter()
    }

    /// The keys above the one given with their records, rising.
    pub fn above(&self, after: PackedKey) -> Entries<'_, PackedKey, Record>
        ensures { AreAbove self.now after result }
    {
        self.map.above(after)
    }

    /// The greatest key at or below the one given.
    pub fn key_to(&self, to: PackedKey) -> Option<PackedKey>
        ensures { IsGreatestKey self.now to result }
    {
        let (key, _) = self.map.up_to(to).next_back()?;
        Some(*key)
    }

    /// The keys above one given that wait, or are alive above an LSN, rising. The only error is an allocation failure.
    pub fn kept_keys(
        &self,
        alloc: Global,
        book: &EpochBook,
        above: PackedKey,
        point: u64,
    ) -> Result<Vec<Key>, AllocError>
        ensures { IfOk result (λ v. Lists KeyBefore (IsKeyKept book.now self.now above point) v.items) }
    {
        let mut kept = Vec::new(alloc);
        let mut span = None;
        for (key, _) in self.map.above(above) {
            let key = key.key();
            if keeps(book, &mut span, key, point) {
                kept.push(key)?;
            }
        }
        Ok(kept)
    }
}
