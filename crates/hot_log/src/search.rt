//! Searches of stored records in a book's view.
ghost use Rattle.std.specs.Prelude.{◌≡◌, ℕ, ◌<◌, ◌≤◌, ◌⊎◌, ◌↔◌, IsTrue, IfSome, IsNone, Some, None};
ghost use Rattle.std.specs.Option.{option_copied};
ghost use Rattle.redo_core.specs.Data.{RecordData};
ghost use Rattle.redo_core.specs.Keys.{key_in, KeyBefore};
ghost use Rattle.redo_core.specs.Standing.{IsAlive};
ghost use Rattle.epoch_book.specs.Book.{IsBook};
ghost use Rattle.epoch_book.specs.Lows.{CutsAt};
ghost use Rattle.hot_log.specs.Held.{IsHeld, HasKey};
ghost use Rattle.hot_log.specs.Alive.{HasNoneAbove, HasNoneEarlier, HasSecond, IsAliveKey, IsAliveOfBack, IsHeldAlive, IsOpenedBelow, IsPageAlive, PartsAt, PartsAtKey, SparesAbove, StartsAbove};
ghost use Rattle.hot_log.specs.Found.{IsLeast, IsLeastRecord, IsGreatestRecord, IsOnlyRecord};
ghost use Rattle.hot_log.specs.Kept.{KeepsKey};
ghost use Rattle.hot_log.specs.Seen.{seen_in};

use crate::view::BookView;
use epoch_book::{EpochBook, Standing};
use redo_core::{Key, Record};

/// Whether a record is alive; it does not look up one that waits.
pub(crate) fn is_alive(book: &EpochBook, epoch: u16, number: u64) -> bool
    ensures alive { IsTrue result ↔ IsAlive book.now.cuts book.now.complete epoch number }
    ensures book { IsBook book.now }
{
    epoch <= book.complete_epoch() && matches!(book.stands(epoch, number), Standing::Alive)
}

/// Whether a record of a key waits, or is alive above an LSN.
pub fn is_kept(book: &EpochBook, key: Key, point: u64) -> bool
    ensures { IsTrue result ↔ KeepsKey book.now point key }
{
    key.epoch > book.complete_epoch()
        || (point < key.number && is_alive(book, key.epoch, key.number))
}

/// The epoch that parts the alive records at an LSN: those above the LSN are those above this epoch and LSN by key.
pub(crate) fn epoch_above(book: &EpochBook, number: u64) -> u16
    ensures parts { PartsAt book.now number result }
    ensures known { result ≤ book.now.complete }
    ensures cut { (result ≡ 0) ⊎ CutsAt book.now number result }
    ensures book { IsBook book.now }
{
    book.last_cut_at(number)
}

/// A key that each alive record of an LSN up to this one is at or below, and no other alive record.
///
/// Its epoch is the one in which the LSN itself can be alive. The epoch that parts the alive records at the LSN is a later one
/// where truncations have it as their `lo`, and from there a search would meet every dead record between the two.
pub(crate) fn last_key_to(book: &EpochBook, number: u64) -> Key
    ensures parts { PartsAtKey book.now number result }
    ensures low { (epoch : ℕ) → SparesAbove book.now epoch number → result.epoch ≤ epoch }
    ensures number { result.number ≡ number }
    ensures book { IsBook book.now }
{
    if number == 0 {
        book.opens_form();
        return Key {
            epoch: 0,
            number: 0,
        };
    }
    Key {
        epoch: epoch_above(book, number - 1),
        number,
    }
}

/// Below a dead key, a key that each alive record of a lower key is at or below.
///
/// What is above the least `lo` of the later truncations is dead in each epoch up to this one, so a search skips all of it in one
/// step, and not record by record.
fn key_down(book: &EpochBook, key: Key) -> Key
    requires { 0 < key.number }
    ensures below { KeyBefore result key }
    ensures spares { (e n : ℕ) → IsAlive book.now.cuts book.now.complete e n → KeyBefore (key_in e n) key → KeyBefore result (key_in e n) → ⊥ }
{
    match book.least_lo(key.epoch) {
        Some(lo) if lo < key.number => last_key_to(book, lo),
        // It is not above the `hi` of its own epoch: an alive record of an earlier one may have a higher LSN.
        _ => Key {
            epoch: key.epoch,
            number: key.number - 1,
        },
    }
}

/// A key that each alive record above an LSN is above where its epoch is at least the one given; no other alive record is above it.
pub(crate) fn start_above(book: &EpochBook, number: u64, since: u16) -> Key
    ensures starts { StartsAbove book.now number since result }
    ensures book { IsBook book.now }
{
    let low = Key {
        epoch: epoch_above(book, number),
        number,
    };
    let first = Key {
        epoch: since,
        number: 0,
    };
    if is_up_to(first, low) { low } else { first }
}

/// Whether a key is at or below another one.
fn is_up_to(key: Key, to: Key) -> bool
    ensures { IsTrue result ↔ (KeyBefore to key → ⊥) }
{
    key.epoch < to.epoch || (key.epoch == to.epoch && key.number <= to.number)
}

impl<'a> BookView<'a> {
    /// The alive record with this LSN.
    pub fn alive_of(&self, number: u64) -> Option<&'a Record>
        ensures { IsOnlyRecord (λ r. seen_in self.now IsHeldAlive r × (r.number ≡ number)) (option_copied result) }
    {
        self.held.opens_form();
        if number == 0 {
            return None;
        }
        let epoch = epoch_above(self.book, number - 1);
        if is_alive(self.book, epoch, number) {
            self.held.get(Key { epoch, number })
        } else {
            None
        }
    }

    /// The first alive record of a page above an LSN.
    pub(crate) fn alive_above(&self, page: u16, number: u64) -> Option<&'a Record>
        ensures found { IsLeastRecord (λ r. seen_in self.now IsPageAlive page r × (number < r.number)) (option_copied result) }
        ensures form { IsHeld self.now.held.now }
    {
        let mut at = Key {
            epoch: epoch_above(self.book, number),
            number,
        };
        while let Some(redo) = self.held.next_of_page(page, at) {
            at = redo.key();
            if is_alive(self.book, at.epoch, at.number) {
                return Some(redo);
            }
        }
        None
    }

    /// The last alive record of a page up to an LSN.
    pub(crate) fn alive_to(&self, page: u16, number: u64) -> Option<&'a Record>
        ensures found { IsGreatestRecord (λ r. seen_in self.now IsPageAlive page r × (r.number ≤ number)) (option_copied result) }
        ensures form { IsHeld self.now.held.now }
    {
        let mut at = last_key_to(self.book, number);
        while let Some(redo) = self.held.last_of_page(page, at) {
            let key = redo.key();
            if is_alive(self.book, key.epoch, key.number) {
                return Some(redo);
            }
            at = key_down(self.book, key);
        }
        None
    }

    /// The first alive record above an LSN.
    pub(crate) fn alive_after(&self, number: u64) -> Option<&'a Record>
        ensures found { IsLeastRecord (λ r. seen_in self.now IsHeldAlive r × (number < r.number)) (option_copied result) }
        ensures form { IsHeld self.now.held.now }
    {
        let key = self.alive_key(number, 0)?;
        self.held.get(key)
    }

    /// The key of the first alive record above an LSN, where none is of an epoch before the one given.
    fn alive_key(&self, number: u64, since: u16) -> Option<Key>
        requires { seen_in self.now HasNoneEarlier number since }
        ensures found { seen_in self.now IsAliveKey number result }
        ensures book { IsBook self.now.book.now }
        ensures form { IsHeld self.now.held.now }
    {
        let mut at = start_above(self.book, number, since);
        while let Some(key) = self.held.next_key(at) {
            if is_alive(self.book, key.epoch, key.number) {
                return Some(key);
            }
            at = key;
        }
        None
    }

    /// Whether an alive record has an LSN between two, where none above the lower one is of an epoch before the one given: dead records
    /// of those epochs are not visited.
    pub fn has_between(&self, above: u64, below: u64, since: u16) -> bool
        requires { seen_in self.now HasNoneEarlier above since }
        ensures found { IsTrue result ↔ ((r : RecordData) × seen_in self.now IsHeldAlive r × (above < r.number) × (r.number < below)) }
        ensures form { IsHeld self.now.held.now }
    {
        match self.alive_key(above, since) {
            Some(key) => key.number < below,
            None => false,
        }
    }

    /// Whether no alive record is above an LSN, by the greatest key alone, where none there is of an epoch before the one
    /// given. Where records above are dead or wait, it may be false too.
    pub fn has_none_above(&self, number: u64, since: u16) -> bool
        requires { seen_in self.now HasNoneEarlier number since }
        ensures { IsTrue result → seen_in self.now HasNoneAbove number }
    {
        match self.held.greatest_key() {
            Some(key) => is_up_to(key, start_above(self.book, number, since)),
            None => true,
        }
    }

    /// The least key above the one given of the alive records with this segment backlink, where no alive record above that LSN is of an
    /// epoch before `since`. An alive LSN is above its backlink, so its key is above the one that parts the alive records there: dead
    /// records of earlier epochs are not visited. What waits has a key above all that is alive, so the search ends there.
    pub(crate) fn alive_of_back(&self, back: u64, after: Key, since: u16) -> Option<Key>
        requires { seen_in self.now HasNoneEarlier back since }
        ensures found { seen_in self.now IsAliveOfBack back after result }
        ensures book { IsBook self.now.book.now }
        ensures form { IsHeld self.now.held.now }
    {
        let complete = self.book.complete_epoch();
        let low = start_above(self.book, back, since);
        let mut at = if is_up_to(after, low) { low } else { after };
        while let Some(key) = self.held.next_of_back(back, at) {
            if key.epoch > complete {
                return None;
            }
            if is_alive(self.book, key.epoch, key.number) {
                return Some(key);
            }
            at = key;
        }
        None
    }

    /// The least key of the alive records with this segment backlink, and whether another of them has it, where no alive record above that
    /// LSN is of an epoch before the one given.
    pub(crate) fn first_of_back(&self, back: u64, since: u16) -> Option<(Key, bool)>
        requires { seen_in self.now HasNoneEarlier back since }
        ensures none { IsNone result → seen_in self.now IsAliveOfBack back (key_in 0 0) None }
        ensures some { IfSome result (λ t. seen_in self.now IsAliveOfBack back (key_in 0 0) (Some t.0) × seen_in self.now HasSecond back t.0 t.1) }
        ensures book { IsBook self.now.book.now }
        ensures form { IsHeld self.now.held.now }
    {
        self.book.opens_form();
        let start = Key {
            epoch: since,
            number: 0,
        };
        let (first, second) = self.held.next_two_of_back(back, start)?;
        // In a sound log an alive record is mostly the only one with its backlink, and the truncations need not be searched.
        if second.is_none() && is_alive(self.book, first.epoch, first.number) {
            return Some((first, false));
        }
        let zero = Key {
            epoch: 0,
            number: 0,
        };
        let first = self.alive_of_back(back, zero, since)?;
        let is_second = self.alive_of_back(back, first, since).is_some();
        Some((first, is_second))
    }

    /// The least alive LSN with this segment backlink, or None where there is none.
    pub fn next_after(&self, back: u64) -> Option<u64>
        ensures { IsLeast (λ n. (r : RecordData) × seen_in self.now IsHeldAlive r × (r.back ≡ back) × (r.number ≡ n)) result }
    {
        let key = self.alive_of_back(
            back,
            Key {
                epoch: 0,
                number: 0,
            },
            0,
        )?;
        Some(key.number)
    }

    /// The last alive record up to an LSN, whatever its page, or None where there is none.
    pub fn last_alive(&self, to: u64) -> Option<&'a Record>
        ensures found { IsGreatestRecord (λ r. seen_in self.now IsHeldAlive r × (r.number ≤ to)) (option_copied result) }
        ensures form { IsHeld self.now.held.now }
    {
        let mut at = last_key_to(self.book, to);
        while let Some(key) = self.held.last_key(at) {
            if is_alive(self.book, key.epoch, key.number) {
                return self.held.get(key);
            }
            at = key_down(self.book, key);
        }
        None
    }

    /// Whether the record of a key is alive, and its segment backlink below an LSN.
    fn goes_below(&self, redo: &Record, key: Key, number: u64) -> bool
        ensures { IsTrue result ↔ (IsAlive self.now.book.now.cuts self.now.book.now.complete key.epoch key.number × (redo.now.back < number)) }
    {
        redo.back() < number && is_alive(self.book, key.epoch, key.number)
    }

    /// Whether an alive record of an epoch above the one given has a segment backlink below an LSN.
    pub fn opens_below(&self, epoch: u16, number: u64) -> bool
        ensures { IsTrue result ↔ ((r : RecordData) × seen_in self.now IsOpenedBelow epoch number r) }
    {
        let complete = self.book.complete_epoch();
        let mut left = self.held.keys_above(Key {
            epoch,
            number: u64::MAX,
        });
        while let Some((key, redo)) = left.next() {
            let key = key.key();
            if key.epoch > complete {
                return false;
            }
            if self.goes_below(redo, key, number) {
                return true;
            }
        }
        false
    }
}
