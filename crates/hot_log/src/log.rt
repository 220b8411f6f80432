ghost use Rattle.std.specs.Prelude.{◌≡◌, Some, ◌<◌, ◌⊎◌, ◌↔◌, [], None, List, length, map, IsTrue, IfOk, IfErr, IfSome, IsNone, OnErr, OnOk};
ghost use Rattle.std.specs.Option.{option_copied};
ghost use Rattle.redo_core.specs.Data.{RecordData};
ghost use Rattle.redo_core.specs.Keys.{key_of};
ghost use Rattle.redo_core.specs.Order.{Lists, RecordBefore};
ghost use Rattle.redo_core.specs.Standing.{IsDead};
ghost use Rattle.hot_log.specs.Held.{IsHeld, IsRecordAt, IsKeyAfter, IsKeyTo, IsGreatestHeld, HasKey, HoldsKey};
ghost use Rattle.hot_log.specs.Found.{IsPageAfter};
ghost use Rattle.hot_log.specs.Indexing.{AreHeldAbove, IsIndexOf, IsNextHeld, IsNextRecord, IsLastRecord};
ghost use Rattle.hot_log.specs.Missing.{IsMissing};
ghost use Rattle.hot_log.specs.Putting.{Puts, RefusesPut};
ghost use Rattle.hot_log.specs.Removing.{IsFolded, Removes};
ghost use Rattle.hot_log.specs.Scanning.{AreEntries};
ghost use Rattle.hot_log.specs.declared.log.PutFault.TheVariants.{Memory as OfMemory};
ghost use Rattle.std.specs.List.{Contains};

use crate::ahead::Ahead;
use crate::index::KeyIndex;
use crate::key_records::KeyRecords;
use crate::packed::{PackedKey, unpacked};
use crate::records::PagedRecords;
use crate::removal;
use epoch_book::EpochBook;
use redo_core::{Key, Record, Refused};
use sorted_runs::Entries;
use std::alloc::{AllocError, Global};
use std::marker::Model;
use thiserror::Error;

/// The redo records that a segment stores, by page and key.
///
/// It also has them by key alone, and their keys by segment backlink: those of the stored records and no others. The index by backlink
/// starts at the greatest point up to which folded records were removed, and leaves out the records with lower backlinks: a segment
/// searches from its base point on, which is not lower.
#[derive(Drop)]
pub struct HotLog {
    pub(crate) records: PagedRecords,
    pub(crate) by_key: KeyRecords,
    by_back: KeyIndex,
}

impl Model for HotLog {
    ghost use Rattle.std.specs.Prelude.{List};
    ghost use Rattle.redo_core.specs.Data.{RecordData};
    ghost use Rattle.hot_log.specs.Indexing.{IsIndexed};

    ghost Value = { List RecordData };

    ghost view = { λ h. h.records };

    ghost invariant = { λ h. IsIndexed h.records h.by_key h.by_back };
}

/// What a put found: no record of that key, or an equal one.
#[derive(Clone, Copy, Debug, PartialEq, Eq)]
pub enum Put {
    New,
    Known,
}

/// Why a put was refused.
#[derive(Clone, Copy, Debug, PartialEq, Eq, Error)]
pub enum PutFault {
    #[error("another record with this key is stored")]
    OtherRecord,
    #[error("out of memory")]
    Memory,
}

impl HotLog {
    /// A log without records.
    pub fn new(alloc: Global) -> Self
        ensures { result ≡ [] }
    {
        HotLog {
            records: PagedRecords::new(alloc),
            by_key: KeyRecords::new(alloc),
            by_back: KeyIndex::new(alloc),
        }
    }

    /// An equal log with memory of its own. The only error is an allocation failure.
    pub fn copy(&self) -> Result<Self, AllocError>
        ensures { IfOk result (λ h. h ≡ self.now) }
    {
        Ok(HotLog {
            records: self.records.copy()?,
            by_key: self.by_key.copy()?,
            by_back: self.by_back.copy()?,
        })
    }

    /// The number of records.
    pub fn len(&self) -> usize
        ensures value { result ≡ length self.now }
        ensures form { IsHeld self.now }
    {
        self.records.len()
    }

    /// Does nothing. Callers use its contract: a log has its records in order.
    pub fn opens_form(&self)
        ensures form { IsHeld self.now }
    {
        self.records.opens_form();
    }

    /// Whether it stores no record.
    pub fn is_empty(&self) -> bool
        ensures value { IsTrue result ↔ (self.now ≡ []) }
        ensures form { IsHeld self.now }
    {
        self.len() == 0
    }

    /// The record of a key, or None where none is stored.
    pub fn get(&self, key: Key) -> Option<&Record>
        ensures { IsRecordAt self.now key (option_copied result) }
    {
        self.opens_form();
        self.by_key.get(PackedKey::exact(key)?)
    }

    /// Whether a record of a key is stored.
    pub fn holds_key(&self, key: Key) -> bool
        ensures { IsTrue result ↔ HoldsKey self.now key }
    {
        self.opens_form();
        let Some(packed) = PackedKey::exact(key) else {
            return false;
        };
        match self.by_key.get(packed) {
            Some(_) => true,
            None => false,
        }
    }

    /// The least key above the one given, or the least of all for None.
    pub fn key_after(&self, after: Option<Key>) -> Option<Key>
        ensures { IsKeyAfter self.now after result }
    {
        match after {
            Some(key) => self.next_key(key),
            None => unpacked(self.by_key.key_after(None)),
        }
    }

    /// Stores one more record. Each error returns the record and leaves the log unchanged.
    pub fn put(&mut self, redo: Record) -> Result<Put, Refused<Record, PutFault>>
        ensures put { IfOk result (Puts self.old redo self.new) }
        ensures refused { IfErr result (λ e. (e.value ≡ redo) × RefusesPut self.old redo e.fault) }
        ensures unchanged { OnErr result (self.new ≡ self.old) }
        ensures form { IsHeld self.new }
    {
        self.opens_form();
        let key = PackedKey::of(&redo);
        if let Some(held) = self.by_key.get(key) {
            if held.is_same(&redo) {
                return Ok(Put::Known);
            }
            return Err(Refused {
                value: redo,
                fault: PutFault::OtherRecord,
            });
        }
        if self.by_key.add(key, &redo).is_err() {
            return Err(Refused {
                value: redo,
                fault: PutFault::Memory,
            });
        }
        match hold(&mut self.records, &mut self.by_back, redo) {
            Ok(()) => Ok(Put::New),
            Err(refused) => {
                let _ = self.by_key.remove(key);
                Err(refused)
            }
        }
    }

    /// Removes the record of a key, if one is stored.
    pub fn remove(&mut self, key: Key)
        ensures removes { Removes (HasKey key) self.old self.new }
        ensures form { IsHeld self.new }
    {
        self.opens_form();
        let Some(packed) = PackedKey::exact(key) else {
            return;
        };
        let Some(redo) = self.by_key.remove(packed) else {
            return;
        };
        self.records.remove(redo.page(), packed);
        self.by_back.remove(redo.back(), packed);
    }

    // The record of a page with the least key above the one given.
    pub(crate) fn next_of_page(&self, page: u16, after: Key) -> Option<&Record>
        ensures next { IsNextRecord self.now page after (option_copied result) }
        ensures form { IsHeld self.now }
    {
        self.records.next(page, PackedKey::capped(after))
    }

    // The record of a page with the greatest key at or below the one given.
    pub(crate) fn last_of_page(&self, page: u16, to: Key) -> Option<&Record>
        ensures last { IsLastRecord self.now page to (option_copied result) }
        ensures form { IsHeld self.now }
    {
        self.records.last(page, PackedKey::capped(to))
    }

    // The least key above the one given.
    pub(crate) fn next_key(&self, after: Key) -> Option<Key>
        ensures next { IsKeyAfter self.now (Some after) result }
        ensures form { IsHeld self.now }
    {
        unpacked(self.by_key.key_after(Some(PackedKey::capped(after))))
    }

    // The keys above the one given with their records, rising.
    pub(crate) fn keys_above(&self, after: Key) -> Entries<'_, PackedKey, Record>
        ensures above { AreHeldAbove self.now after result }
        ensures form { IsHeld self.now }
    {
        self.by_key.above(PackedKey::capped(after))
    }

    // The records with their keys, rising.
    pub(crate) fn entries(&self) -> Entries<'_, PackedKey, Record>
        ensures { AreEntries self.now result }
    {
        self.by_key.entries()
    }

    // The least key above the one given of the records with a segment backlink.
    pub(crate) fn next_of_back(&self, back: u64, after: Key) -> Option<Key>
        ensures next { IsNextHeld (λ r. r.back) self.now back after result }
        ensures form { IsHeld self.now }
    {
        if self.by_back.leaves_out(back) {
            return self.walk_to_back(back, after);
        }
        unpacked(self.by_back.next(back, PackedKey::capped(after)))
    }

    // The same, and the least key above that one.
    pub(crate) fn next_two_of_back(&self, back: u64, after: Key) -> Option<(Key, Option<Key>)>
        ensures none { IsNone result → IsNextHeld (λ r. r.back) self.now back after None }
        ensures some { IfSome result (λ t. IsNextHeld (λ r. r.back) self.now back after (Some t.0) × IsNextHeld (λ r. r.back) self.now back t.0 t.1) }
        ensures form { IsHeld self.now }
    {
        if self.by_back.leaves_out(back) {
            return self.walk_to_two(back, after);
        }
        let (first, second) = self.by_back.next_two(back, PackedKey::capped(after))?;
        Some((first.key(), unpacked(second)))
    }

    // The same by a walk over the keys.
    fn walk_to_two(&self, back: u64, after: Key) -> Option<(Key, Option<Key>)>
        ensures none { IsNone result → IsNextHeld (λ r. r.back) self.now back after None }
        ensures some { IfSome result (λ t. IsNextHeld (λ r. r.back) self.now back after (Some t.0) × IsNextHeld (λ r. r.back) self.now back t.0 t.1) }
        ensures form { IsHeld self.now }
    {
        let first = self.walk_to_back(back, after)?;
        Some((first, self.walk_to_back(back, first)))
    }

    // The least key above the one given of the records with a segment backlink, by a walk over the keys.
    fn walk_to_back(&self, back: u64, after: Key) -> Option<Key>
        ensures next { IsNextHeld (λ r. r.back) self.now back after result }
        ensures form { IsHeld self.now }
    {
        self.opens_form();
        let mut at = after;
        while let Some(key) = self.next_key(at) {
            if self.has_back(key, back) {
                return Some(key);
            }
            at = key;
        }
        None
    }

    // Whether the record of a key has a segment backlink.
    fn has_back(&self, key: Key, back: u64) -> bool
        ensures { IsTrue result ↔ ((r : RecordData) × Contains self.now r × HasKey key r × (r.back ≡ back)) }
    {
        self.opens_form();
        match self.get(key) {
            Some(redo) => redo.back() == back,
            None => false,
        }
    }

    /// The least page above the one given that a stored record writes, whatever its standing; the least of all for None.
    pub fn page_after(&self, after: Option<u16>) -> Option<u16>
        ensures { IsPageAfter self.now after result }
    {
        self.records.page_after(after)
    }

    /// The records of another log that this one does not store, rising by key. It scans both side by side, without look-ups. The only
    /// error is an allocation failure.
    pub fn missing<'a>(
        &self,
        alloc: Global,
        other: &'a HotLog,
    ) -> Result<Vec<&'a Record>, AllocError>
        ensures { IfOk result (λ v. Lists RecordBefore (IsMissing self.now other.now) (map (λ x. x.now) v.items)) }
    {
        let mut missing = Vec::new(alloc);
        let mut own = Ahead::new(self.entries());
        for (key, redo) in other.entries() {
            own.pass_to(*key);
            if !own.is_at(*key, redo) {
                missing.push(redo)?;
            }
        }
        Ok(missing)
    }

    /// Removes the alive records of a page with LSNs at most the version of its image and at most a point.
    pub fn remove_folded(&mut self, book: &EpochBook, page: u16, version: u64, point: u64)
        ensures removes { Removes (IsFolded book.now page version point) self.old self.new }
        ensures form { IsHeld self.new }
    {
        // The records to remove have an LSN up to the point, so their backlinks are below it.
        self.by_back.raise(point);
        let (records, by_key) = (&mut self.records, &mut self.by_key);
        removal::remove_folded(records, by_key, book, page, version.min(point));
    }

    /// Removes the dead records.
    pub fn remove_dead(&mut self, book: &EpochBook)
        ensures removes { Removes (λ r. IsDead book.now.cuts book.now.complete r.epoch r.number) self.old self.new }
        ensures form { IsHeld self.new }
    {
        removal::remove_dead(self, book);
    }

    // The greatest key, or None where no record is stored.
    pub(crate) fn greatest_key(&self) -> Option<Key>
        ensures greatest { IsGreatestHeld self.now result }
        ensures form { IsHeld self.now }
    {
        unpacked(self.by_key.greatest_key())
    }

    // The greatest key at or below the one given.
    pub(crate) fn last_key(&self, to: Key) -> Option<Key>
        ensures last { IsKeyTo self.now to result }
        ensures form { IsHeld self.now }
    {
        unpacked(self.by_key.key_to(PackedKey::capped(to)))
    }
}

impl Clone for HotLog {
    ghost is_clone = { λ h copied. copied ≡ h };

    fn clone(&self) -> Result<Self, AllocError> {
        self.copy()
    }
}

// Stores a record whose key is free, and lists the key by the segment backlink. The only error is an allocation failure: it returns
// the record, and leaves what is stored and listed unchanged.
fn hold(
    records: &mut PagedRecords,
    by_back: &mut KeyIndex,
    redo: Record,
) -> Result<(), Refused<Record, PutFault>>
    requires free { IsRecordAt records.old (key_of redo) None }
    requires listed { IsIndexOf records.old by_back.old }
    ensures gains { OnOk result ((r : RecordData) → Contains records.new r ↔ (Contains records.old r ⊎ (r ≡ redo))) }
    ensures refused { IfErr result (λ e. (e.value ≡ redo) × (e.fault ≡ OfMemory)) }
    ensures unchanged { OnErr result (records.new ≡ records.old) }
    ensures still_listed { IsIndexOf records.new by_back.new }
    ensures form { IsHeld records.new }
{
    records.opens_form();
    let key = PackedKey::of(&redo);
    let back = redo.back();
    if by_back.insert(back, key).is_err() {
        return Err(Refused {
            value: redo,
            fault: PutFault::Memory,
        });
    }
    match records.insert(redo) {
        Ok(()) => Ok(()),
        Err(refused) => {
            by_back.remove(back, key);
            Err(Refused {
                value: refused.value,
                fault: PutFault::Memory,
            })
        }
    }
}
