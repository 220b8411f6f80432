//! Stored records in a book's view.
ghost use Rattle.std.specs.Prelude.{IfOk, map};
ghost use Rattle.std.specs.Option.{option_copied};
ghost use Rattle.redo_core.specs.Order.{Lists, BeforeByNumber};
ghost use Rattle.hot_log.specs.Alive.{IsHeldOf};
ghost use Rattle.hot_log.specs.Anew.{ListsAnew};
ghost use Rattle.hot_log.specs.Found.{IsLeastRecord, IsGreatestRecord};
ghost use Rattle.hot_log.specs.Gaps.{IsAwaited};
ghost use Rattle.hot_log.specs.Kept.{IsKeptAbove, ListsKeysOf};
ghost use Rattle.hot_log.specs.Seen.{seen_in};

use crate::log::HotLog;
use crate::packed::PackedKey;
use crate::search::{epoch_above, last_key_to};
use epoch_book::EpochBook;
use redo_core::{Key, Record};
use std::alloc::{AllocError, Global};

/// Stored records in the view of a book of truncations and advances, which decides which of them are dead, wait or are alive.
///
/// It borrows both for queries. What changes the log takes the log and the book themselves.
#[derive(Clone, Copy)]
pub struct BookView<'a> {
    pub book: &'a EpochBook,
    pub held: &'a HotLog,
}

impl<'a> BookView<'a> {
    /// The first alive record of a page with an LSN above `from` and up to `to`, or None where there is none.
    pub fn next_of(&self, page: u16, from: u64, to: u64) -> Option<&'a Record>
        ensures { IsLeastRecord (seen_in self.now IsHeldOf page from to) (option_copied result) }
    {
        let redo = self.alive_above(page, from)?;
        if redo.number() <= to {
            Some(redo)
        } else {
            None
        }
    }

    /// The last alive record of a page with an LSN above `from` and up to `to`, or None where there is none.
    pub fn last_of(&self, page: u16, from: u64, to: u64) -> Option<&'a Record>
        ensures { IsGreatestRecord (seen_in self.now IsHeldOf page from to) (option_copied result) }
    {
        let redo = self.alive_to(page, to)?;
        if from < redo.number() {
            Some(redo)
        } else {
            None
        }
    }

    /// The alive records of a page with LSNs above `from` and up to `to`, rising. The only error is an allocation failure.
    pub fn records_of(
        &self,
        alloc: Global,
        page: u16,
        from: u64,
        to: u64,
    ) -> Result<Vec<&'a Record>, AllocError>
        ensures { IfOk result (λ v. Lists BeforeByNumber (seen_in self.now IsHeldOf page from to) (map (λ x. x.now) v.items)) }
    {
        let (book, held) = (self.book, self.held);
        let above = Key {
            epoch: epoch_above(book, from),
            number: from,
        };
        let to = last_key_to(book, to);
        if above.epoch > to.epoch || from >= to.number {
            return Ok(Vec::new(alloc));
        }
        let (above, to) = (PackedKey::capped(above), PackedKey::capped(to));
        held.records.alive_between(alloc, book, page, above, to)
    }

    /// The same from the last of them with `init` on, where there is one: what comes before that one has no effect on the
    /// page, and is not visited. The only error is an allocation failure.
    pub fn records_since_init(
        &self,
        alloc: Global,
        page: u16,
        from: u64,
        to: u64,
    ) -> Result<Vec<&'a Record>, AllocError>
        ensures { IfOk result (λ v. ListsAnew (seen_in self.now IsHeldOf page from to) (map (λ x. x.now) v.items)) }
    {
        let (book, held) = (self.book, self.held);
        let above = Key {
            epoch: epoch_above(book, from),
            number: from,
        };
        let to = last_key_to(book, to);
        if above.epoch > to.epoch || from >= to.number {
            return Ok(Vec::new(alloc));
        }
        let (above, to) = (PackedKey::capped(above), PackedKey::capped(to));
        held.records.alive_since_init(alloc, book, page, above, to)
    }

    /// The keys of the records that wait, or are alive above an LSN, rising. The only error is an allocation failure.
    pub fn kept_keys(&self, alloc: Global, point: u64) -> Result<Vec<Key>, AllocError>
        ensures { IfOk result (λ v. ListsKeysOf (seen_in self.now IsKeptAbove point) v.items) }
    {
        let (book, held) = (self.book, self.held);
        // A record that waits, or is alive above the LSN, has a key above this one.
        let above = PackedKey::capped(Key {
            epoch: epoch_above(book, point),
            number: point,
        });
        held.by_key.kept_keys(alloc, book, above, point)
    }

    /// The epoch after the complete one, where a stored record waits; otherwise None.
    pub fn awaited(&self) -> Option<u16>
        ensures { seen_in self.now IsAwaited result }
    {
        let complete = self.book.complete_epoch();
        let key = self.held.greatest_key()?;
        if complete < key.epoch {
            Some(complete + 1)
        } else {
            None
        }
    }
}
