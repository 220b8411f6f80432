ghost use Rattle.std.specs.Prelude.{◌≡◌, ℕ, ◌↔◌, List, None, IsTrue};
ghost use Rattle.std.specs.List.{All, Contains};
ghost use Rattle.redo_core.specs.Order.{IsRising};
ghost use Rattle.redo_core.specs.Position.{Position};
ghost use Rattle.redo_core.specs.Sound.{IsSound};
ghost use Rattle.redo_core.specs.declared.facts.Fact.{Fact as AnyFact};
ghost use Rattle.redo_core.specs.Keys.{KeyBefore};
ghost use Rattle.segment_theorems.specs.Means.{MeansAt};
ghost use Rattle.segment_theorems.specs.HasMeaning.{HasAnchor};
ghost use Rattle.segment_theorems.specs.Gossip.{AnswersFor};
ghost use Rattle.gossip_core.specs.Answering.{IsCovered, IsFirstUncovered, IsUncovered, listing_of};

use messages::Summary;
use redo_core::Key;
use segment_core::{Segment, prefers_lookup};

/// What of a summary a segment does not answer for.
#[derive(Clone, Copy, Debug, PartialEq, Eq)]
pub enum Shown {
    /// The summary's anchor, which is above the segment's own.
    Anchor(u64),
    /// The least listed key that the segment cannot account for.
    Key(Key),
}

/// What of a summary a segment does not answer for, or None where it covers all of it: the anchor, where it is above the
/// segment's own; else the least listed key that is neither stored, nor dead, nor at or below the segment's anchor and not waiting.
pub fn uncovered(segment: &Segment, summary: &Summary) -> Option<Shown>
    // Inside one sound log: None exactly where the facts that the segment means answer for the summary.
    ensures facts { (roster : ℕ) (log facts : List AnyFact) (p : Position) → IsSound roster log → MeansAt roster log facts p segment.now → (result ≡ None) ↔ AnswersFor facts p (listing_of summary.now) }
    // For arbitrary facts.
    ensures own { (anchor : ℕ) → HasAnchor segment.now anchor → IsUncovered segment.now anchor summary.now result }
{
    uncovered_above(segment, segment.anchor(), summary)
}

/// What of a summary a segment with this anchor does not answer for.
fn uncovered_above(segment: &Segment, anchor: u64, summary: &Summary) -> Option<Shown>
    ensures { IsUncovered segment.now anchor summary.now result }
{
    if anchor < summary.anchor() {
        return Some(Shown::Anchor(summary.anchor()));
    }
    match first_uncovered(segment, anchor, summary.keys()) {
        Some(key) => Some(Shown::Key(key)),
        None => None,
    }
}

/// The first of rising keys that a segment with this anchor cannot account for.
fn first_uncovered(segment: &Segment, anchor: u64, keys: &[Key]) -> Option<Key>
    requires { IsRising KeyBefore keys.now }
    ensures { IsFirstUncovered segment.now anchor keys.now result }
{
    // A summary mostly returns to who made it, and lists what that still keeps.
    if keeps_all(segment, anchor, keys) {
        return None;
    }
    for key in keys {
        if !is_covered(segment, anchor, *key) {
            return Some(*key);
        }
    }
    None
}

/// Whether a segment is seen to keep a record of each key without a look-up; false where the keys are few, or memory runs out.
fn keeps_all(segment: &Segment, anchor: u64, keys: &[Key]) -> bool
    ensures { IsTrue result → All (IsCovered segment.now anchor) keys.now }
{
    if prefers_lookup(keys.len(), segment) {
        return false;
    }
    match segment.kept_keys(anchor) {
        Ok(kept) => are_among(keys, &kept),
        Err(_) => false,
    }
}

/// Whether each of rising keys is seen to be among kept ones, which rise too: one scan over both.
fn are_among(keys: &[Key], kept: &[Key]) -> bool
    ensures { IsTrue result → All (Contains kept.now) keys.now }
{
    let mut place = 0;
    for key in kept {
        if place < keys.len() && keys[place] == *key {
            place += 1;
        }
    }
    place == keys.len()
}

/// Whether a segment with this anchor accounts for a key.
fn is_covered(segment: &Segment, anchor: u64, key: Key) -> bool
    ensures { IsTrue result ↔ IsCovered segment.now anchor key }
{
    !segment.keeps(key, anchor) || segment.holds_key(key)
}
