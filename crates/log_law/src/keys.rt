ghost use Rattle.std.specs.Prelude.{◌≡◌, ◌+◌, ◌<◌, ◌≤◌, ◌↔◌, length, take, slice_get, IfOk, IsTrue, MatchBool, Some, ⊤};
ghost use Rattle.redo_core.specs.Sound.{Law1};
ghost use Rattle.log_law.specs.Counted.{Describes};
ghost use Rattle.log_law.specs.Keys.{IsFirstKeyConflict, IsSeen, HasRisingKeys, HasKeyAbove};

use crate::counted::CountedCuts;
use redo_core::{Fact, Key, Record};
use std::alloc::{AllocError, Global};
use std::collections::HashMap;

/// The index of the first record of each key.
type Places = HashMap<Key, usize>;

/// The least index (from 0) that breaks law 1, or the number of facts. The only error is an allocation failure.
pub(crate) fn first_key_conflict(
    alloc: Global,
    facts: &[Fact],
    cuts: &CountedCuts,
) -> Result<usize, AllocError>
    requires { Describes facts.now cuts.now }
    ensures { IfOk result (IsFirstKeyConflict facts.now) }
{
    if has_rising_keys(facts) {
        // Nearly all logs have rising keys, and a map of their keys would be their greatest cost.
        return Ok(first_cut_conflict(facts, cuts));
    }
    let mut seen = HashMap::with_capacity(alloc, facts.len())?;
    for (place, fact) in facts.iter().enumerate() {
        match fact {
            Fact::Record(redo) => {
                if is_other(facts, &mut seen, place, redo)? {
                    return Ok(place);
                }
            }
            Fact::Cut(cut) => {
                if !cuts.counts(cut) {
                    return Ok(place);
                }
            }
            Fact::Advance(_) => {}
        }
    }
    Ok(facts.len())
}

/// Whether each record's key is above those of all earlier records, so that no two records have one key.
fn has_rising_keys(facts: &[Fact]) -> bool
    ensures { IsTrue result ↔ HasRisingKeys facts.now }
{
    let mut last = None;
    for fact in facts {
        if let Fact::Record(redo) = fact {
            if !is_above(redo, last) {
                return false;
            }
            last = Some(redo.key());
        }
    }
    true
}

/// Whether a record's key is above the last one before it, if there is one.
fn is_above(redo: &Record, last: Option<Key>) -> bool
    ensures { IsTrue result ↔ HasKeyAbove redo.now last }
{
    match last {
        Some(key) => {
            key.epoch < redo.epoch() || (key.epoch == redo.epoch() && key.number < redo.number())
        }
        None => true,
    }
}

/// The result of `first_key_conflict` for a log whose keys rise, where only truncations can break law 1.
fn first_cut_conflict(facts: &[Fact], cuts: &CountedCuts) -> usize
    requires cuts { Describes facts.now cuts.now }
    requires rising { HasRisingKeys facts.now }
    ensures { IsFirstKeyConflict facts.now result }
{
    for (place, fact) in facts.iter().enumerate() {
        if let Fact::Cut(cut) = fact {
            if !cuts.counts(cut) {
                return place;
            }
        }
    }
    facts.len()
}

fn is_other(
    facts: &[Fact],
    seen: &mut Places,
    place: usize,
    redo: &Record,
) -> Result<bool, AllocError>
    requires at { slice_get facts.now place ≡ Some (Fact.Record redo.now) }
    requires seen { IsSeen facts.now place seen.old }
    ensures law { IfOk result (λ b. MatchBool b (Law1 (take place facts.now) (Fact.Record redo.now) → ⊥) (Law1 (take place facts.now) (Fact.Record redo.now))) }
    ensures seen { IfOk result (λ b. MatchBool b ⊤ (IsSeen facts.now (place + 1) seen.new)) }
{
    match seen.insert(redo.key(), place)? {
        Some(earlier) => Ok(!facts[earlier].is_same(&facts[place])),
        None => Ok(false),
    }
}
