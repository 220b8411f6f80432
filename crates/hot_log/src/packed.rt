//! Keys of records in one word each, so that a map compares two by one comparison of words.
ghost use Rattle.std.specs.Prelude.{◌≡◌, ◌<◌, ◌≤◌, ◌==◌, None, IfSome, IsNone};
ghost use Rattle.std.proofs.Common.{rules};
ghost use Rattle.std.specs.Cmp.{partial_order_from_own_ties};
ghost use Rattle.std.specs.Cmp.Rules.{comparing};
ghost use Rattle.std.specs.Ordering.{as_partial_cmp, eq_of_both, nat_cmp, on, then_cmp};
ghost use Rattle.redo_core.specs.Keys.{key_in, key_of};
ghost use Rattle.redo_core.specs.declared.keys.Key.{Key};
ghost use Rattle.redo_core.specs.Shape.{max_number, record_fault};
ghost use Rattle.hot_log.specs.Packed.{capped};

use redo_core::{Key, MAX_NUMBER, Record};
use std::cmp::Ordering;
use std::marker::Model;

// The number of LSNs that a record may have, and 0.
const SPAN: u64 = 281_474_976_710_656;

/// A key with an LSN that a record may have, or 0, in one word: the epoch above the LSN. So words are in the order of their keys.
#[derive(Clone, Copy)]
pub struct PackedKey {
    word: u64,
}

impl Model for PackedKey {
    ghost use Rattle.redo_core.specs.declared.keys.Key.{Key};

    ghost Value = { Key };

    ghost use Rattle.std.proofs.Common.{ap};
    ghost use Rattle.hot_log.specs.Packed.{key_in_word, key_word, word_back};

    ghost view = { λ p. key_in_word p.word };

    ghost inverse = { λ k. record { word = key_word k } };

    ghost inverse_ok = { λ a h. ap (λ w. record { word = w }) (word_back a.word) };
}

impl PackedKey {
    /// The key of a record.
    pub fn of(redo: &Record) -> PackedKey
        ensures value { result ≡ key_of redo.now }
        ensures shape { record_fault redo.now ≡ None }
    {
        PackedKey::pack(redo.key())
    }

    /// A key, or None where no record has its LSN.
    pub fn exact(key: Key) -> Option<PackedKey>
        ensures some { IfSome result (λ p. p ≡ key) }
        ensures none { IsNone result → max_number < key.number }
    {
        if key.number > MAX_NUMBER {
            None
        } else {
            Some(PackedKey::pack(key))
        }
    }

    /// A key that is below the same keys of records as the one given.
    pub fn capped(key: Key) -> PackedKey
        ensures { result ≡ capped key }
    {
        PackedKey::pack(Key {
            epoch: key.epoch,
            number: key.number.min(MAX_NUMBER),
        })
    }

    /// The least key.
    pub fn least() -> PackedKey
        ensures { result ≡ key_in 0 0 }
    {
        PackedKey { word: 0 }
    }

    fn pack(key: Key) -> PackedKey
        requires { key.number ≤ max_number }
        ensures { result ≡ key }
    {
        PackedKey {
            word: SPAN * u64::from(key.epoch) + key.number,
        }
    }

    /// The key.
    pub fn key(self) -> Key
        ensures { result ≡ self }
    {
        Key {
            epoch: (self.word / SPAN) as u16,
            number: self.word % SPAN,
        }
    }
}

/// The key that is packed, if there is one.
pub(crate) fn unpacked(packed: Option<PackedKey>) -> Option<Key>
    ensures { result ≡ packed }
{
    Some(packed?.key())
}

impl PartialEq for PackedKey {
    ghost eq = { eq_of_both (on (λ (k : Key). k.epoch) ◌==◌) (on (λ (k : Key). k.number) ◌==◌) };

    ghost laws = { Prim.search (comparing, rules) };

    fn eq(&self, other: &PackedKey) -> bool {
        self.word == other.word
    }
}

impl Eq for PackedKey {
    ghost laws = { Prim.search (comparing, rules) };
}

impl PartialOrd for PackedKey {
    ghost partial_cmp = { as_partial_cmp (then_cmp (on (λ (k : Key). k.epoch) nat_cmp) (on (λ (k : Key). k.number) nat_cmp)) };

    ghost laws = { partial_order_from_own_ties (Prim.search (comparing, rules)) (Prim.search (comparing, rules)) };

    fn partial_cmp(&self, other: &PackedKey) -> Option<Ordering> {
        Some(self.cmp(other))
    }
}

impl Ord for PackedKey {
    ghost cmp = { then_cmp (on (λ (k : Key). k.epoch) nat_cmp) (on (λ (k : Key). k.number) nat_cmp) };

    ghost total = { Prim.search (comparing, rules) };

    ghost matches_partial_cmp = { Prim.search (comparing, rules) };

    ghost matches_eq = { Prim.search (comparing, rules) };

    fn cmp(&self, other: &PackedKey) -> Ordering {
        self.word.cmp(&other.word)
    }
}
