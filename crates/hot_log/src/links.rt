//! The LSNs that stored records link, from a base on.
ghost use Rattle.std.specs.Prelude.{◌≡◌, ℕ, ◌<◌, ◌≤◌, ◌↔◌, List, length, IsTrue, IfSome, IsNone, Some, None, false};
ghost use Rattle.std.specs.Option.{option_copied};
ghost use Rattle.redo_core.specs.Data.{RecordData};
ghost use Rattle.redo_core.specs.Order.{Lists, RecordBefore};
ghost use Rattle.hot_log.specs.Held.{IsHeld};
ghost use Rattle.hot_log.specs.Ahead.{AreOnward, IsNextOfBack, PassesToAlive};
ghost use Rattle.hot_log.specs.Alive.{HasNoneEarlier, IsAliveOfBack, IsLinkedFrom, IsLinkedHeld, IsReached, IsContiguous, IsStraightEnd};
ghost use Rattle.hot_log.specs.Found.{IsGreatestRecord, IsOnlyRecord};
ghost use Rattle.hot_log.specs.Gaps.{IsGapAbove};
ghost use Rattle.hot_log.specs.Seen.{seen_in};

use crate::packed::PackedKey;
use crate::search::{is_alive, start_above};
use crate::steps::Steps;
use crate::view::BookView;
use epoch_book::EpochBook;
use redo_core::{Key, Record};
use sorted_runs::Entries;

impl<'a> BookView<'a> {
    /// The greatest LSN up to a limit that is linked from a base.
    pub fn linked_to(&self, from: u64, limit: u64) -> u64
        requires { from ≤ limit }
        ensures linked { seen_in self.now IsLinkedFrom from result }
        ensures bound { result ≤ limit }
        ensures greatest { (n : ℕ) → seen_in self.now IsLinkedFrom from n → n ≤ limit → n ≤ result }
        ensures form { IsHeld self.now.held.now }
    {
        let mut steps = Steps::new();
        self.linked_counted(from, limit, &mut steps)
    }

    /// The same; `steps`, which starts at 0, counts the alive records that the search reaches: each whose backlink is linked and at most
    /// `limit`, once.
    ///
    /// It counts records and not look-ups. In a log with forks the search also visits a fork's sibling and each record on its way
    /// back to the last fork, which it does not count. It allocates nothing, and does not visit dead or waiting records.
    pub fn linked_counted(&self, from: u64, limit: u64, steps: &mut Steps) -> u64
        requires ordered { from ≤ limit }
        requires fresh { steps.old.count ≡ 0 }
        ensures linked { seen_in self.now IsLinkedFrom from result }
        ensures bound { result ≤ limit }
        ensures greatest { (n : ℕ) → seen_in self.now IsLinkedFrom from n → n ≤ limit → n ≤ result }
        ensures counted { (xs : List RecordData) → Lists RecordBefore (seen_in self.now IsReached from limit) xs → steps.new.count ≡ length xs }
        ensures form { IsHeld self.now.held.now }
    {
        // The search reaches no more records than are stored, so the count fits.
        let _held = self.held.len();
        let mut top = from;
        let mut back = from;
        let mut at = Key {
            epoch: 0,
            number: 0,
        };
        let mut forked = false;
        loop {
            match self.alive_of_back(back, at, 0) {
                Some(key) => {
                    steps.step();
                    if key.number <= limit {
                        top = top.max(key.number);
                        forked = self.passes_fork(back, key, forked);
                        back = key.number;
                        at = Key {
                            epoch: 0,
                            number: 0,
                        };
                    } else {
                        at = key;
                    }
                }
                None => {
                    if !forked {
                        return top;
                    }
                    if back <= from {
                        return top;
                    }
                    let Some(redo) = self.alive_of(back) else {
                        return top;
                    };
                    back = redo.back();
                    at = redo.key();
                }
            }
        }
    }

    /// Whether a fork was passed: one was before, or an alive record with this backlink has a key above the one given.
    fn passes_fork(&self, back: u64, key: Key, forked: bool) -> bool
        ensures { result ≡ false → (forked ≡ false) × seen_in self.now IsAliveOfBack back key None }
    {
        forked || self.alive_of_back(back, key, 0).is_some()
    }

    /// Whether an LSN is linked, by a walk down the backlinks.
    fn is_linked(&self, from: u64, number: u64) -> bool
        ensures { IsTrue result ↔ seen_in self.now IsLinkedFrom from number }
    {
        let mut at = number;
        while at > from {
            match self.alive_of(at) {
                Some(redo) => at = redo.back(),
                None => return false,
            }
        }
        at == from
    }

    /// The last alive record of a page whose LSN is linked from a base and at most `limit`, or None where there is none.
    pub fn greatest_linked_of(&self, page: u16, from: u64, limit: u64) -> Option<&'a Record>
        ensures { IsGreatestRecord (λ r. seen_in self.now IsLinkedHeld from r × (r.page ≡ page) × (r.number ≤ limit)) (option_copied result) }
    {
        let mut to = limit;
        while let Some(redo) = self.alive_to(page, to) {
            if self.is_linked(from, redo.number()) {
                return Some(redo);
            }
            to = redo.number() - 1;
        }
        None
    }

    /// The end of the chain from an LSN on: the greatest LSN linked from there. None where the chain has a fork or an orphan record.
    pub fn contiguous_end(&self, from: u64) -> Option<u64>
        ensures some { IfSome result (seen_in self.now IsStraightEnd from) }
        ensures none { IsNone result → (n : ℕ) → seen_in self.now IsStraightEnd from n → ⊥ }
    {
        self.straight_end_since(from, 0)
    }

    /// The same, where no alive record above the LSN is of an epoch before the one given: dead records of those epochs are not visited.
    pub fn straight_end_since(&self, from: u64, since: u16) -> Option<u64>
        requires { seen_in self.now HasNoneEarlier from since }
        ensures some { IfSome result (seen_in self.now IsStraightEnd from) }
        ensures none { IsNone result → (n : ℕ) → seen_in self.now IsStraightEnd from n → ⊥ }
    {
        // The stored keys above the LSN are searched only where an alive record goes on from it.
        match self.first_of_back(from, since) {
            Some(first) => self.straight_walk(from, since, first),
            None => Some(from),
        }
    }

    /// The same, given the key of a record that goes on from the LSN, and whether another record goes on from there too.
    fn straight_walk(&self, from: u64, since: u16, first: (Key, bool)) -> Option<u64>
        requires later { seen_in self.now HasNoneEarlier from since }
        requires first { IsNextOfBack self.now.book.now self.now.held.now from (Some first) }
        ensures some { IfSome result (seen_in self.now IsStraightEnd from) }
        ensures none { IsNone result → (n : ℕ) → seen_in self.now IsStraightEnd from n → ⊥ }
    {
        self.held.opens_form();
        self.book.opens_form();
        let mut top = from;
        let mut left = self.keys_on(from, since);
        let mut next = Some(first);
        while let Some((key, is_fork)) = next {
            if is_fork || !is_at(next_alive(self.book, &mut left), key) {
                return None;
            }
            top = key.number;
            next = self.first_of_back(top, since);
        }
        Some(top)
    }

    /// The stored keys from the alive ones above an LSN on, with their records, rising, where no alive one is of an epoch
    /// before the one given.
    fn keys_on(&self, number: u64, since: u16) -> Entries<'a, PackedKey, Record>
        requires { seen_in self.now HasNoneEarlier number since }
        ensures { seen_in self.now AreOnward number result }
    {
        self.held.keys_above(start_above(self.book, number, since))
    }

    /// The LSN that blocks the first alive record above an LSN: that record names it as its segment backlink, or names a stored one
    /// that does, and so on down, and no stored alive record has it. None where no alive record is above the LSN.
    ///
    /// In a sound log the record's own backlink is that LSN, so the walk down the backlinks ends at once.
    pub fn gap_above(&self, number: u64) -> Option<u64>
        ensures { seen_in self.now IsGapAbove number result }
    {
        self.held.opens_form();
        let mut redo = self.alive_after(number)?;
        while let Some(below) = self.alive_of(redo.back()) {
            redo = below;
        }
        Some(redo.back())
    }

    /// The alive record with this LSN, where the LSN is linked from a base; otherwise None.
    pub fn linked_record(&self, from: u64, number: u64) -> Option<&'a Record>
        ensures { IsOnlyRecord (λ r. seen_in self.now IsLinkedHeld from r × (r.number ≡ number)) (option_copied result) }
    {
        if self.is_linked(from, number) {
            self.alive_of(number)
        } else {
            None
        }
    }
}

/// The next of some keys that is alive; the walk skips those before it, and it.
fn next_alive(book: &EpochBook, left: &mut Entries<'_, PackedKey, Record>) -> Option<Key>
    ensures { PassesToAlive book.now left.old result left.new }
{
    while let Some((key, _)) = left.next() {
        let key = key.key();
        if is_alive(book, key.epoch, key.number) {
            return Some(key);
        }
    }
    None
}

/// Whether a walk has reached a key.
fn is_at(next: Option<Key>, key: Key) -> bool
    ensures { IsTrue result ↔ (next ≡ Some key) }
{
    match next {
        Some(next) => next.epoch == key.epoch && next.number == key.number,
        None => false,
    }
}
