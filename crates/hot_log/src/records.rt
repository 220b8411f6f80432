ghost use Rattle.std.specs.Prelude.{◌≡◌, ◌⊎◌, ◌↔◌, [], None, length, map, reverse, IsTrue, IfOk, IfErr, OnOk, OnErr};
ghost use Rattle.std.specs.Option.{option_copied};
ghost use Rattle.std.specs.List.{Contains};
ghost use Rattle.redo_core.specs.Data.{RecordData};
ghost use Rattle.redo_core.specs.Keys.{key_of, KeyBefore};
ghost use Rattle.redo_core.specs.Order.{Lists, BeforeByNumber, RecordBefore};
ghost use Rattle.hot_log.specs.Held.{IsHeld, HasKey, IsRecordAt};
ghost use Rattle.hot_log.specs.Alive.{IsAliveBetween};
ghost use Rattle.hot_log.specs.Anew.{ListsAnew};
ghost use Rattle.hot_log.specs.Found.{IsPageAfter};
ghost use Rattle.hot_log.specs.Indexing.{IsKeyRecords, IsNextRecord, IsLastRecord};
ghost use Rattle.hot_log.specs.Removing.{IsBetween, Removes, RemovesRow, UnlistsRow};

use crate::key_records::KeyRecords;
use crate::packed::PackedKey;
use crate::search::is_alive;
use epoch_book::EpochBook;
use redo_core::{Key, Record, Refused};
use sorted_runs::SortedRuns;
use std::alloc::{AllocError, Global};
use std::marker::Model;
use std::ops::Bound;

/// Records by page and, within a page, by key: epoch, then LSN. No two have one key.
#[derive(Drop)]
pub struct PagedRecords {
    map: SortedRuns<(u16, PackedKey), Record>,
}

impl Model for PagedRecords {
    ghost use Rattle.std.specs.Prelude.{List};
    ghost use Rattle.redo_core.specs.Data.{RecordData};
    ghost use Rattle.hot_log.specs.Paged.{IsPaged, records_in, by_key};

    ghost Value = { List RecordData };

    ghost view = { λ p. by_key (records_in p.map) };

    ghost invariant = { λ p. IsPaged p.map };
}

impl PagedRecords {
    /// A map without records. It allocates nothing.
    pub fn new(alloc: Global) -> Self
        ensures { result ≡ [] }
    {
        PagedRecords {
            map: SortedRuns::new(alloc),
        }
    }

    /// Equal records with memory of their own. The only error is an allocation failure.
    pub fn copy(&self) -> Result<Self, AllocError>
        ensures { IfOk result (λ p. p ≡ self.now) }
    {
        Ok(PagedRecords {
            map: self.map.copy()?,
        })
    }

    /// The number of records.
    pub fn len(&self) -> usize
        ensures value { result ≡ length self.now }
        ensures form { IsHeld self.now }
    {
        self.map.len()
    }

    /// Does nothing. Callers use its contract: the records are in order.
    pub fn opens_form(&self)
        ensures form { IsHeld self.now }
    {
        let _map = &self.map;
    }

    /// Stores a record by its page and key. The only error is an allocation failure, which leaves the records unchanged and returns it.
    pub fn insert(&mut self, redo: Record) -> Result<(), Refused<Record, AllocError>>
        requires { IsRecordAt self.old (key_of redo) None }
        ensures gains { OnOk result ((r : RecordData) → Contains self.new r ↔ (Contains self.old r ⊎ (r ≡ redo))) }
        ensures refused { IfErr result (λ e. e.value ≡ redo) }
        ensures unchanged { OnErr result (self.new ≡ self.old) }
        ensures form { IsHeld self.new }
    {
        let place = (redo.page(), PackedKey::of(&redo));
        match self.map.insert(place, redo) {
            Ok(_) => Ok(()),
            Err(failed) => Err(Refused {
                value: failed.value.1,
                fault: AllocError,
            }),
        }
    }

    /// Removes the record of a page and a key, if there is one.
    pub fn remove(&mut self, page: u16, key: PackedKey)
        ensures removes { Removes (λ r. (r.page ≡ page) × HasKey key r) self.old self.new }
        ensures form { IsHeld self.new }
    {
        let _ = self.map.remove(&(page, key));
    }

    /// Removes the records of a page with keys above one and up to another.
    pub fn remove_between(&mut self, page: u16, above: PackedKey, to: PackedKey)
        ensures removes { Removes (IsBetween page above to) self.old self.new }
        ensures form { IsHeld self.new }
    {
        let (from, end) = (Bound::Excluded((page, above)), Bound::Included((page, to)));
        self.map.remove_range(from, end);
    }

    /// The record of a page with the least key above the one given.
    pub fn next(&self, page: u16, after: PackedKey) -> Option<&Record>
        ensures next { IsNextRecord self.now page after (option_copied result) }
        ensures form { IsHeld self.now }
    {
        let (place, redo) = self.map.above((page, after)).next()?;
        if place.0 == page { Some(redo) } else { None }
    }

    /// The record of a page with the greatest key at or below the one given.
    pub fn last(&self, page: u16, to: PackedKey) -> Option<&Record>
        ensures last { IsLastRecord self.now page to (option_copied result) }
        ensures form { IsHeld self.now }
    {
        let (place, redo) = self.map.up_to((page, to)).next_back()?;
        if place.0 == page { Some(redo) } else { None }
    }

    /// The least page above the one given that has a record; the least of all for None.
    pub fn page_after(&self, after: Option<u16>) -> Option<u16>
        ensures { IsPageAfter self.now after result }
    {
        let map = &self.map;
        let from = match after {
            Some(page) => page.checked_add(1)?,
            None => 0,
        };
        let start = Bound::Included((from, PackedKey::least()));
        let (place, _) = map.range(start, Bound::Unbounded).next()?;
        Some(place.0)
    }

    /// The alive records of a page with keys above one and up to another, rising. The only error is an allocation failure.
    pub fn alive_between(
        &self,
        alloc: Global,
        book: &EpochBook,
        page: u16,
        above: PackedKey,
        to: PackedKey,
    ) -> Result<Vec<&Record>, AllocError>
        ensures { IfOk result (λ v. Lists BeforeByNumber (IsAliveBetween book.now self.now page above to) (map (λ x. x.now) v.items)) }
    {
        let mut found = Vec::new(alloc);
        let (from, end) = (Bound::Excluded((page, above)), Bound::Included((page, to)));
        for (_, redo) in self.map.range(from, end) {
            if is_alive(book, redo.epoch(), redo.number()) {
                found.push(redo)?;
            }
        }
        Ok(found)
    }

    /// The same from the last of them with `init` on, where there is one. It does not visit what comes before that one.
    pub fn alive_since_init(
        &self,
        alloc: Global,
        book: &EpochBook,
        page: u16,
        above: PackedKey,
        to: PackedKey,
    ) -> Result<Vec<&Record>, AllocError>
        ensures { IfOk result (λ v. ListsAnew (IsAliveBetween book.now self.now page above to) (map (λ x. x.now) v.items)) }
    {
        let mut found = Vec::new(alloc);
        let (from, end) = (Bound::Excluded((page, above)), Bound::Included((page, to)));
        let mut left = self.map.range(from, end);
        while let Some((_, redo)) = left.next_back() {
            if is_alive(book, redo.epoch(), redo.number()) {
                found.push(redo)?;
                if redo.init() {
                    return Ok(reversed(found));
                }
            }
        }
        Ok(reversed(found))
    }
}

impl PagedRecords {
    /// Removes the first run of alive records of a page between two keys, with those by key, and returns its last key.
    pub fn remove_row(
        &mut self,
        by_key: &mut KeyRecords,
        book: &EpochBook,
        page: u16,
        above: Key,
        to: Key,
    ) -> Option<Key>
        requires { IsKeyRecords self.old by_key.old }
        ensures removes { RemovesRow book.now page above to self.old self.new result }
        ensures pages { IsKeyRecords self.new by_key.new }
        ensures form { IsHeld self.new }
    {
        self.opens_form();
        let (above, to) = (PackedKey::capped(above), PackedKey::capped(to));
        let row = self.unlist_row(by_key, book, page, above, to)?;
        self.remove_between(page, row.0, row.1);
        Some(row.1.key())
    }

    /// Removes the first run of alive records of a page between two keys from those by key, and returns a key that the run is above, and
    /// its last one.
    fn unlist_row(
        &self,
        by_key: &mut KeyRecords,
        book: &EpochBook,
        page: u16,
        above: PackedKey,
        to: PackedKey,
    ) -> Option<(PackedKey, PackedKey)>
        requires { IsKeyRecords self.now by_key.old }
        ensures { UnlistsRow book.now self.now page above to by_key.new result }
    {
        let (from, end) = (Bound::Excluded((page, above)), Bound::Included((page, to)));
        let mut start = above;
        let mut last = None;
        for (_, redo) in self.map.range(from, end) {
            let packed = PackedKey::of(redo);
            let key = redo.key();
            if is_alive(book, key.epoch, key.number) {
                let _ = by_key.remove(packed);
                last = Some(packed);
            } else if let Some(last) = last {
                return Some((start, last));
            } else {
                start = packed;
            }
        }
        Some((start, last?))
    }
}

fn reversed(mut found: Vec<&Record>) -> Vec<&Record>
    ensures { result.items ≡ reverse found.entry.items }
{
    found.reverse();
    found
}
