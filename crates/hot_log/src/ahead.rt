ghost use Rattle.std.specs.Prelude.{◌≡◌, ℕ, ◌↔◌, IsTrue};
ghost use Rattle.std.specs.List.{Contains};
ghost use Rattle.std.specs.declared.cmp.Ordering.TheVariants.{Less};
ghost use Rattle.redo_core.specs.Data.{RecordData};
ghost use Rattle.redo_core.specs.Keys.{key_cmp};
ghost use Rattle.redo_core.specs.Order.{IsRising};
ghost use Rattle.redo_core.specs.declared.keys.Key.{Key};
ghost use Rattle.hot_log.specs.Scanning.{EntryBefore};

use crate::packed::PackedKey;
use redo_core::Record;
use sorted_runs::Entries;
use std::marker::Model;

/// Records with their keys, and the one that comes next: an iterator that follows the walk through another log.
///
/// It is moved by keys alone: a record is read only where another one is compared with it.
#[derive(Drop)]
pub struct Ahead<'a> {
    next: Option<(&'a PackedKey, &'a Record)>,
    rest: Entries<'a, PackedKey, Record>,
}

impl<'a> Model for Ahead<'a> {
    ghost use Rattle.std.specs.Prelude.{List, option_map};
    ghost use Rattle.std.specs.List.{cons_option};
    ghost use Rattle.std.specs.Map.Iter.{deref_pair};
    ghost use Rattle.redo_core.specs.Data.{RecordData};
    ghost use Rattle.redo_core.specs.declared.keys.Key.{Key};
    ghost use Rattle.hot_log.specs.Scanning.{StandsNext};

    ghost Value = { List (Key × RecordData) };

    ghost view = { λ a. cons_option (option_map deref_pair a.next) a.rest };

    ghost invariant = { λ a. StandsNext (option_map deref_pair a.next) a.rest };
}

impl<'a> Ahead<'a> {
    /// An iterator before its first record.
    pub fn new(mut rest: Entries<'a, PackedKey, Record>) -> Ahead<'a>
        requires { IsRising EntryBefore rest }
        ensures { result ≡ rest.entry }
    {
        let next = rest.next();
        Ahead { next, rest }
    }

    /// Skips the records of lower keys.
    pub fn pass_to(&mut self, key: PackedKey)
        ensures { (e : Key × RecordData) → Contains self.new e ↔ (Contains self.old e × (key_cmp e.0 key ≡ Less → ⊥)) }
    {
        while let Some((own, _)) = self.next {
            if !is_before(*own, key) {
                return;
            }
            self.next = self.rest.next();
        }
    }

    /// Whether this record of a key comes next; no other one equals it, once those of lower keys are skipped.
    pub fn is_at(&self, key: PackedKey, redo: &Record) -> bool
        requires { (e : Key × RecordData) → Contains self.now e → key_cmp e.0 key ≡ Less → ⊥ }
        ensures { IsTrue result ↔ Contains self.now (key, redo.now) }
    {
        match self.next {
            Some((own, stored)) => *own == key && stored.is_same(redo),
            None => false,
        }
    }
}

/// Whether a key is lower than another.
fn is_before(key: PackedKey, other: PackedKey) -> bool
    ensures { IsTrue result ↔ (key_cmp key other ≡ Less) }
{
    key < other
}
