ghost use Rattle.std.specs.Prelude.{◌≡◌, ℕ, ◌≤◌, ◌↔◌, List, IsTrue, IfOk};
ghost use Rattle.std.specs.List.{Contains, AllZip, All};
ghost use Rattle.redo_core.specs.Meaning.{Meaning, IsMeaning};
ghost use Rattle.redo_core.specs.AtMost.{IsAtMost};
ghost use Rattle.redo_core.specs.Sound.{IsSound};
ghost use Rattle.redo_core.specs.declared.facts.Fact.{Fact as AnyFact};
ghost use Rattle.redo_core.specs.declared.facts.Fact.TheVariants.{Advance as OfAdvance};
ghost use Rattle.log_theorems.specs.OrderOfMeanings.{Covers};
ghost use Rattle.segment_theorems.specs.Means.{Means};
ghost use Rattle.segment_theorems.specs.HasMeaning.{HasAnchor, HasMeaning};
ghost use Rattle.segment_theorems.specs.Known.{IsKnown};
ghost use Rattle.segment_join.specs.Covering.{HasAllKept, HasAt, IsHeldAt, CoversBook, CoversState, CoversByParts};

use log_theorems::order_by_parts;
use redo_core::{Advance, Cut, Key};
use segment_core::{Segment, prefers_lookup};
use segment_theorems::same_meaning;
use std::alloc::AllocError;

/// Whether one segment's meaning is at or above another's: each truncation, reader's point and waiting advance of the lower one is
/// known, its anchor is reached, and each record that it keeps is kept, dead or stable. The two rosters may differ.
///
/// It fails only if memory runs out.
pub fn covers(upper: &Segment, lower: &Segment) -> Result<bool, AllocError>
    // By the two meanings, for arbitrary facts.
    ensures meanings { IfOk result (λ answer. (y x : Meaning) → HasMeaning upper.now y → HasMeaning lower.now x → IsTrue answer ↔ Covers y x) }
    // Inside one sound log: it means a part that contains a part of the other meaning.
    ensures parts { IfOk result (CoversByParts upper.now lower.now) }
    // By what is stored, for arbitrary facts.
    ensures own { IfOk result (λ answer. (anchor base : ℕ) → HasAnchor upper.now anchor → HasAnchor lower.now base → IsTrue answer ↔ CoversState anchor upper.now base lower.now) }
{
    upper.opens_form();
    order_by_parts();
    same_meaning();
    covers_state(upper, lower)
}

fn covers_state(upper: &Segment, lower: &Segment) -> Result<bool, AllocError>
    ensures { IfOk result (λ answer. (anchor base : ℕ) → HasAnchor upper.now anchor → HasAnchor lower.now base → IsTrue answer ↔ CoversState anchor upper.now base lower.now) }
{
    if !covers_book(upper, lower) {
        return Ok(false);
    }
    let anchor = upper.anchor();
    let base = lower.anchor();
    if anchor < base {
        return Ok(false);
    }
    has_all(upper, anchor, lower, base)
}

/// Whether the meaning of a segment that another one covers also covers that one's.
///
/// It compares no records where the two keep the same keys. It fails only if memory runs out.
pub(crate) fn covers_back(upper: &Segment, lower: &Segment) -> Result<bool, AllocError>
    requires covered { (base anchor : ℕ) → HasAnchor lower.now base → HasAnchor upper.now anchor → CoversState base lower.now anchor upper.now }
    ensures { IfOk result (λ answer. (y x : Meaning) → HasMeaning upper.now y → HasMeaning lower.now x → IsTrue answer ↔ Covers y x) }
{
    upper.opens_form();
    covers_state_back(upper, lower)
}

fn covers_state_back(upper: &Segment, lower: &Segment) -> Result<bool, AllocError>
    requires covered { (base anchor : ℕ) → HasAnchor lower.now base → HasAnchor upper.now anchor → CoversState base lower.now anchor upper.now }
    ensures { IfOk result (λ answer. (anchor base : ℕ) → HasAnchor upper.now anchor → HasAnchor lower.now base → IsTrue answer ↔ CoversState anchor upper.now base lower.now) }
{
    if !covers_book(upper, lower) {
        return Ok(false);
    }
    let anchor = upper.anchor();
    let base = lower.anchor();
    if anchor < base {
        return Ok(false);
    }
    has_all_back(upper, anchor, lower, base)
}

/// The same as `has_all`, where the lower segment has all that the upper one keeps.
fn has_all_back(
    upper: &Segment,
    anchor: u64,
    lower: &Segment,
    base: u64,
) -> Result<bool, AllocError>
    requires { HasAllKept lower.now base upper.now anchor }
    ensures { IfOk result (λ answer. IsTrue answer ↔ HasAllKept upper.now anchor lower.now base) }
{
    let own = upper.kept_keys(anchor)?;
    let others = lower.kept_keys(base)?;
    // A key has at most one record, and that of the upper segment is stored in the lower one.
    if are_same_keys(&own, &others) {
        return Ok(true);
    }
    has_all(upper, anchor, lower, base)
}

fn are_same_keys(own: &[Key], others: &[Key]) -> bool
    ensures { IsTrue result → own.now ≡ others.now }
{
    *own == *others
}

/// Whether an upper segment keeps each record that a lower one keeps above a base, or needs it no more.
fn has_all(upper: &Segment, anchor: u64, lower: &Segment, base: u64) -> Result<bool, AllocError>
    ensures { IfOk result (λ answer. IsTrue answer ↔ HasAllKept upper.now anchor lower.now base) }
{
    let keys = lower.kept_keys(base)?;
    if prefers_lookup(keys.len(), lower) {
        return Ok(has_keys(upper, anchor, lower, &keys));
    }
    // One scan over the records of both, side by side, costs less than many look-ups.
    Ok(upper.stores_kept(anchor, lower, base))
}

/// Whether an upper segment keeps the record that a lower one stores under each of these keys, or needs it no more.
fn has_keys(upper: &Segment, anchor: u64, lower: &Segment, keys: &[Key]) -> bool
    ensures { IsTrue result ↔ All (HasAt upper.now anchor lower.now) keys.now }
{
    for key in keys {
        if !has_at(upper, anchor, lower, *key) {
            return false;
        }
    }
    true
}

fn has_at(upper: &Segment, anchor: u64, lower: &Segment, key: Key) -> bool
    ensures { IsTrue result ↔ HasAt upper.now anchor lower.now key }
{
    // A record that is needed no more is looked up in neither segment.
    if !upper.keeps(key, anchor) {
        return true;
    }
    holds_at(upper, lower, key)
}

/// Whether the record that a lower segment stores under a key, if any, is stored in an upper one.
fn holds_at(upper: &Segment, lower: &Segment, key: Key) -> bool
    ensures { IsTrue result ↔ IsHeldAt upper.now lower.now key }
{
    // A key has at most one record.
    upper.opens_form();
    lower.opens_form();
    let Some(redo) = lower.get(key) else {
        return true;
    };
    match upper.get(key) {
        Some(held) => held.is_same(redo),
        None => false,
    }
}

fn covers_book(upper: &Segment, lower: &Segment) -> bool
    ensures { IsTrue result ↔ CoversBook upper.now lower.now }
{
    if !has_cuts(upper, lower.cuts()) {
        return false;
    }
    if !are_at_most(lower.points(), upper.points()) {
        return false;
    }
    has_waits(upper, lower.waits())
}

fn has_cuts(upper: &Segment, cuts: &[Cut]) -> bool
    ensures { IsTrue result ↔ All (λ c. Contains upper.now.book.cuts c) cuts.now }
{
    for cut in cuts {
        if !upper.knows_cut(*cut) {
            return false;
        }
    }
    true
}

fn has_waits(upper: &Segment, waits: &[Advance]) -> bool
    ensures { IsTrue result ↔ All (λ a. IsKnown upper.now (OfAdvance a)) waits.now }
{
    for wait in waits {
        if !upper.knows_advance(*wait) {
            return false;
        }
    }
    true
}

fn are_at_most(lower: &[u64], upper: &[u64]) -> bool
    ensures { IsTrue result ↔ AllZip (λ p q. p ≤ q) lower.now upper.now }
{
    if lower.len() != upper.len() {
        return false;
    }
    for (place, low) in lower.iter().enumerate() {
        if upper[place] < *low {
            return false;
        }
    }
    true
}
