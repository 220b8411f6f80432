//! What two logs keep, compared.
ghost use Rattle.std.specs.Prelude.{◌≡◌, ℕ, ◌↔◌, IsTrue, false};
ghost use Rattle.std.specs.List.{Contains};
ghost use Rattle.std.specs.declared.cmp.Ordering.TheVariants.{Less};
ghost use Rattle.redo_core.specs.Data.{RecordData};
ghost use Rattle.redo_core.specs.Keys.{key_cmp};
ghost use Rattle.redo_core.specs.declared.keys.Key.{Key};
ghost use Rattle.hot_log.specs.Kept.{KeepsKey};
ghost use Rattle.hot_log.specs.Scanning.{IsKeptInBoth, StoresKept};
ghost use Rattle.hot_log.specs.Seen.{seen_in};

use crate::ahead::Ahead;
use crate::packed::PackedKey;
use crate::search::is_kept;
use crate::view::BookView;
use epoch_book::EpochBook;
use redo_core::{Key, Record};

impl<'a> BookView<'a> {
    /// Whether the log stores each record of a lower view's log that both views keep, this one above a point and the lower one above a
    /// base: the record waits, or is alive above that LSN.
    ///
    /// It scans both logs side by side, without look-ups, compares only records above the base, and ends at the first that is not stored.
    pub fn stores_kept(&self, point: u64, lower: &BookView<'_>, base: u64) -> bool
        ensures { IsTrue result ↔ seen_in self.now StoresKept point lower.now.book.now lower.now.held.now base }
    {
        let mut own = Ahead::new(self.held.entries());
        for (key, redo) in lower.held.entries() {
            own.pass_to(*key);
            if self.lacks(point, lower.book, base, &own, *key, redo) {
                return false;
            }
        }
        true
    }

    /// Whether a record of a key is kept in both views, and is not among those ahead, which are not before it.
    fn lacks(
        &self,
        point: u64,
        low: &EpochBook,
        base: u64,
        own: &Ahead<'_>,
        packed: PackedKey,
        redo: &Record,
    ) -> bool
        requires { (e : Key × RecordData) → Contains own.now e → key_cmp e.0 packed ≡ Less → ⊥ }
        ensures lacks { IsTrue result → IsKeptInBoth self.now.book.now point low.now base packed × (Contains own.now (packed, redo.now) → ⊥) }
        ensures has { result ≡ false → IsKeptInBoth self.now.book.now point low.now base packed → Contains own.now (packed, redo.now) }
    {
        let key = packed.key();
        if !may_be_kept(low, key, base) || own.is_at(packed, redo) {
            return false;
        }
        is_kept(low, key, base) && is_kept(self.book, key, point)
    }
}

/// Whether a key has an LSN above the one given, or waits: no record of another key is kept above that. No truncation is looked at.
fn may_be_kept(book: &EpochBook, key: Key, point: u64) -> bool
    ensures { KeepsKey book.now point key → IsTrue result }
{
    point < key.number || key.epoch > book.complete_epoch()
}
