//! The kept records whose keys a list does not have.
ghost use Rattle.std.specs.Prelude.{◌≡◌, ◌↔◌, IsTrue, IfOk, map, take, drop};
ghost use Rattle.std.specs.List.{All, Contains};
ghost use Rattle.redo_core.specs.Order.{IsRising, Lists, RecordBefore};
ghost use Rattle.redo_core.specs.Keys.{KeyBefore};
ghost use Rattle.hot_log.specs.Kept.{KeepsKey, IsKeptUnlisted};
ghost use Rattle.hot_log.specs.Seen.{seen_in};

use crate::search::{epoch_above, is_kept};
use crate::view::BookView;
use redo_core::{Key, Record};
use std::alloc::{AllocError, Global};

impl<'a> BookView<'a> {
    /// The records that wait, or are alive above an LSN, and whose keys are not among the ones given, which rise; rising by key. Its
    /// only error is an allocation failure.
    pub fn kept_unlisted(
        &self,
        alloc: Global,
        point: u64,
        keys: &[Key],
    ) -> Result<Vec<&'a Record>, AllocError>
        requires { IsRising KeyBefore keys.now }
        ensures { IfOk result (λ v. Lists RecordBefore (seen_in self.now IsKeptUnlisted point keys.now) (map (λ x. x.now) v.items)) }
    {
        let mut found = Vec::new(alloc);
        let mut place = 0;
        // A record that waits, or is alive above the LSN, has a key above this one.
        let mut left = self.held.keys_above(Key {
            epoch: epoch_above(self.book, point),
            number: point,
        });
        while let Some((key, redo)) = left.next() {
            let key = key.key();
            place = reach(keys, place, key);
            if self.is_unlisted(point, keys, place, key) {
                found.push(redo)?;
            }
        }
        Ok(found)
    }

    /// Whether a key is kept and not listed; if it is listed, it is likely at the index given.
    fn is_unlisted(&self, point: u64, keys: &[Key], place: usize, key: Key) -> bool
        requires { IsRising KeyBefore keys.now }
        ensures { IsTrue result ↔ (KeepsKey self.now.book.now point key × (Contains keys.now key → ⊥)) }
    {
        !is_listed(keys, place, key) && is_kept(self.book, key, point)
    }
}

/// The first index from one on where the listed key is not below a key. It scans stored and listed keys side by side.
fn reach(keys: &[Key], from: usize, key: Key) -> usize {
    let mut place = from;
    while place < keys.len() && keys[place] < key {
        place += 1;
    }
    place
}

/// Whether a key is among keys that rise. The search tries an index first, and then both sides of it.
fn is_listed(keys: &[Key], place: usize, key: Key) -> bool
    requires { IsRising KeyBefore keys.now }
    ensures { IsTrue result ↔ Contains keys.now key }
{
    if place < keys.len() && keys[place] == key {
        return true;
    }
    if are_below(keys, place, key) && are_above(keys, place, key) {
        return false;
    }
    keys.binary_search(&key).is_ok()
}

/// Whether the rising keys before an index are visibly below a key: the last of them is.
fn are_below(keys: &[Key], place: usize, key: Key) -> bool
    requires { IsRising KeyBefore keys.now }
    ensures { IsTrue result → All (λ k. KeyBefore k key) (take place keys.now) }
{
    place == 0 || (place <= keys.len() && keys[place - 1] < key)
}

/// Whether the rising keys from an index on are above a key: the first of them is.
fn are_above(keys: &[Key], place: usize, key: Key) -> bool
    requires { IsRising KeyBefore keys.now }
    ensures { IsTrue result → All (KeyBefore key) (drop place keys.now) }
{
    place >= keys.len() || key < keys[place]
}
