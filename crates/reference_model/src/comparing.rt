ghost use Rattle.std.specs.Prelude.{◌≡◌, ℕ, ◌≤◌, ◌↔◌, List, IsTrue, IfOk};
ghost use Rattle.std.specs.List.{Contains, AllZip};
ghost use Rattle.redo_core.specs.Roster.{point_of};
ghost use Rattle.redo_core.specs.Sets.{IsPart};
ghost use Rattle.redo_core.specs.Sound.{IsSound};
ghost use Rattle.redo_core.specs.Meaning.{Meaning, IsMeaning};
ghost use Rattle.redo_core.specs.declared.facts.Fact.{Fact as TheFact};
ghost use Rattle.log_theorems.specs.OrderOfMeanings.{Covers};
ghost use Rattle.reference_model.specs.Comparing.{KeepsFact, Settles, CoversFact, CoversAll, IsCovering};
ghost use Rattle.reference_model.specs.Stands.{position_of};

use crate::positions::position;
use crate::standings::is_alive;
use crate::views::Position;
use redo_core::{Fact, Roster};
use std::alloc::{AllocError, Global};

/// Whether two parts of one sound log have one meaning. The only error is an allocation failure.
pub fn same(
    alloc: Global,
    facts: &[Fact],
    others: &[Fact],
    roster: Roster,
) -> Result<bool, AllocError>
    ensures { IfOk result (λ one. (log : List TheFact) (x y : Meaning) → IsSound roster log → IsPart facts.now log → IsPart others.now log
        → IsMeaning roster facts.now x → IsMeaning roster others.now y → IsTrue one ↔ (x ≡ y)) }
{
    if !covers(alloc, facts, others, roster)? {
        return Ok(false);
    }
    covers(alloc, others, facts, roster)
}

/// Whether the facts' meaning covers that of the others. The only error is an allocation failure.
pub fn covers(
    alloc: Global,
    facts: &[Fact],
    others: &[Fact],
    roster: Roster,
) -> Result<bool, AllocError>
    ensures { IfOk result (λ covers. (x y : Meaning) → IsMeaning roster others.now x → IsMeaning roster facts.now y → IsTrue covers ↔ Covers y x) }
{
    let above = position(alloc, facts, roster)?;
    let below = position(alloc, others, roster)?;
    Ok(covers_at(facts, &above, others, &below))
}

fn covers_at(facts: &[Fact], above: &Position, others: &[Fact], below: &Position) -> bool
    ensures { IsTrue result ↔ IsCovering facts.now (position_of above.now) others.now (position_of below.now) }
{
    if below.anchor > above.anchor {
        return false;
    }
    if !are_at_most(&below.points, &above.points) {
        return false;
    }
    covers_all(facts, above, others, below)
}

// Whether there are as many points, each at most the one at its index.
fn are_at_most(below: &[u64], above: &[u64]) -> bool
    ensures { IsTrue result ↔ AllZip (λ p q. p ≤ q) below.now above.now }
{
    if below.len() != above.len() {
        return false;
    }
    for place in 0..below.len() {
        if below[place] > above[place] {
            return false;
        }
    }
    true
}

// Whether each fact that the others' meaning keeps is covered.
fn covers_all(facts: &[Fact], above: &Position, others: &[Fact], below: &Position) -> bool
    ensures { IsTrue result ↔ CoversAll facts.now (position_of above.now) others.now (position_of below.now) }
{
    for fact in others {
        if keeps(others, below, fact) && !is_covered(facts, above, fact) {
            return false;
        }
    }
    true
}

fn is_covered(facts: &[Fact], above: &Position, fact: &Fact) -> bool
    ensures { IsTrue result ↔ CoversFact facts.now (position_of above.now) fact.now }
{
    settles(facts, above, fact) || (keeps(facts, above, fact) && is_among(facts, fact))
}

fn is_among(facts: &[Fact], fact: &Fact) -> bool
    ensures { IsTrue result ↔ Contains facts.now fact.now }
{
    for other in facts {
        if other.is_same(fact) {
            return true;
        }
    }
    false
}

// Whether the meaning of facts with this position keeps such a fact by itself.
fn keeps(facts: &[Fact], at: &Position, fact: &Fact) -> bool
    ensures { IsTrue result ↔ KeepsFact facts.now (position_of at.now) fact.now }
{
    match fact {
        Fact::Record(redo) => {
            redo.epoch() > at.epoch
                || (redo.number() > at.anchor
                    && is_alive(facts, at.epoch, redo.epoch(), redo.number()))
        }
        Fact::Cut(_) => true,
        Fact::Advance(advance) => advance.epoch() > at.epoch,
    }
}

// Whether such a fact adds nothing to the meaning of facts with this position: a record that is dead or not above the anchor, an
// advance up to its reader's point.
fn settles(facts: &[Fact], at: &Position, fact: &Fact) -> bool
    ensures { IsTrue result ↔ Settles facts.now (position_of at.now) fact.now }
{
    match fact {
        Fact::Record(redo) => {
            redo.epoch() <= at.epoch
                && (redo.number() <= at.anchor
                    || !is_alive(facts, at.epoch, redo.epoch(), redo.number()))
        }
        Fact::Cut(_) => false,
        Fact::Advance(advance) => {
            advance.epoch() <= at.epoch && advance.point() <= point_at(&at.points, advance.reader())
        }
    }
}

fn point_at(points: &[u64], reader: u8) -> u64
    ensures { result ≡ point_of points.now reader }
{
    let place = usize::from(reader).saturating_sub(1);
    if place < points.len() {
        points[place]
    } else {
        0
    }
}
