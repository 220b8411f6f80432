ghost use Rattle.std.specs.Prelude.{◌≡◌, ℕ, ◌+◌, ◌<◌, ◌≤◌, ◌↔◌, length, take, slice_get, slice_index, None, Some, IfOk, IfSome, IsSome, IsTrue, MatchBool, MatchOption};
ghost use Rattle.std.specs.List.{Contains};
ghost use Rattle.redo_core.specs.Data.{CutData};
ghost use Rattle.redo_core.specs.Fault.{KeepsLaw};
ghost use Rattle.redo_core.specs.Order.{IsGreatest};
ghost use Rattle.redo_core.specs.Past.{ArePast};
ghost use Rattle.redo_core.specs.Sets.{advances};
ghost use Rattle.redo_core.specs.Sound.{SameKey, Law1, Law2, Law3, Law4, Law5, IsAliveBelow, counted};
ghost use Rattle.redo_core.specs.declared.facts.Fact.{Fact};
ghost use Rattle.log_law.specs.Counted.{Describes};
ghost use Rattle.log_law.specs.Lows.{AreLeastPoints};
ghost use Rattle.log_law.specs.Report.{Reports};
ghost use Rattle.log_law.specs.Targets.{IsPlaced, IsOfPage};
ghost use Rattle.log_law.specs.Breach.{ReportsBreach, ReportsOf, ReportsKey, ReportsBegun, ReportsSegment, ReportsBlock, ReportsLink, ReportsAdvance, IsCutBelow};

use crate::counted::CountedCuts;
use crate::lows::lows_of;
use crate::targets::target_of;
use redo_core::{Advance, Cut, Fact, Law, LawFault, Record, Roster};
use std::alloc::{AllocError, Global};
use thiserror::Error;

/// The evidence of how a fact breaks its law. Indices count from 1.
#[derive(Clone, Copy, Debug, PartialEq, Eq, Error)]
pub enum Breach {
    /// The earlier fact of the same key (law 1).
    #[error("fact {place} has the same key and different content")]
    OtherFact { place: u64 },
    /// The least epoch that has no truncation, up to the fact's own (laws 2 and 5).
    #[error("epoch {epoch} has no truncation")]
    NotBegun { epoch: u16 },
    /// The truncation of the record's epoch, whose `hi` is not below its LSN (law 2).
    #[error("its LSN is not above the hi of fact {place}")]
    NotAbove { place: u64 },
    /// The record that the backlink should name, above the LSN that it names (laws 3 and 4).
    #[error("its backlink skips the record of fact {place}")]
    Passes { place: u64 },
    /// The LSN that the backlink names, above those of all records that it may name (laws 3 and 4).
    #[error("its backlink {number} is not the LSN of a record that it may name")]
    NoTarget { number: u64 },
    /// The reader, outside the roster (law 5).
    #[error("reader {reader} is not in the roster")]
    NoReader { reader: u8 },
    /// The later truncation that all readers are past, whose `lo` is below the advance's point (law 5).
    #[error("fact {place} truncates below its point, although all readers are past that truncation")]
    CutBelow { place: u64 },
}

/// The evidence of how a reported fact breaks its law. None only if the fault is not one; the only error is an allocation failure.
pub fn breach_of(
    alloc: Global,
    facts: &[Fact],
    roster: Roster,
    fault: LawFault,
) -> Result<Option<Breach>, AllocError>
    ensures tells { IfOk result (λ found. IfSome found (ReportsBreach roster facts.now fault)) }
    ensures found { Reports roster facts.now fault → IfOk result (λ found. IsSome found) }
{
    match fault.place {
        0 => Ok(None),
        place => breach_at(alloc, facts, roster, (place - 1) as usize, fault.law),
    }
}

/// The same for an index from 0.
fn breach_at(
    alloc: Global,
    facts: &[Fact],
    roster: Roster,
    place: usize,
    law: Law,
) -> Result<Option<Breach>, AllocError>
    ensures none { slice_get facts.now place ≡ None → IfOk result (λ found. found ≡ None) }
    ensures some { (fact : Fact) → slice_get facts.now place ≡ Some fact → IfOk result
        (λ found. MatchOption found (KeepsLaw roster facts.now place fact law) (ReportsOf roster facts.now (place + 1) fact law)) }
{
    let Some(fact) = facts.get(place) else {
        return Ok(None);
    };
    let cuts = CountedCuts::new(alloc, facts, roster)?;
    breach_among(alloc, facts, roster, &cuts, place, fact, law)
}

/// The same for a fact at its index (from 0), by the effective truncations.
fn breach_among(
    alloc: Global,
    facts: &[Fact],
    roster: Roster,
    cuts: &CountedCuts,
    place: usize,
    fact: &Fact,
    law: Law,
) -> Result<Option<Breach>, AllocError>
    requires at { slice_get facts.now place ≡ Some fact.now }
    requires cuts { Describes facts.now cuts.now }
    ensures { IfOk result (λ found. MatchOption found (KeepsLaw roster facts.now place fact.now law) (ReportsOf roster facts.now (place + 1) fact.now law)) }
{
    match law {
        Law::OneFactPerKey => Ok(key_breach(facts, place, fact)),
        Law::EpochBegun => Ok(begun_breach(facts, cuts, fact)),
        Law::SegmentBacklink => segment_breach(alloc, facts, cuts, fact),
        Law::BlockBacklink => block_breach(alloc, facts, cuts, fact),
        Law::AdvanceKept => advance_breach(alloc, facts, roster, cuts, fact),
    }
}

fn key_breach(facts: &[Fact], place: usize, fact: &Fact) -> Option<Breach>
    requires { slice_get facts.now place ≡ Some fact.now }
    ensures { MatchOption result (Law1 (take place facts.now) fact.now) (ReportsKey facts.now (place + 1) fact.now) }
{
    for earlier in 0..place {
        if is_other(&facts[earlier], fact) {
            return Some(Breach::OtherFact {
                place: earlier as u64 + 1,
            });
        }
    }
    None
}

/// Whether two facts have the same key and differ.
fn is_other(one: &Fact, two: &Fact) -> bool
    ensures { MatchBool result (SameKey one.now two.now × (one.now ≡ two.now → ⊥)) (SameKey one.now two.now → one.now ≡ two.now) }
{
    has_same_key(one, two) && !one.is_same(two)
}

fn has_same_key(one: &Fact, two: &Fact) -> bool
    ensures { IsTrue result ↔ SameKey one.now two.now }
{
    match (one, two) {
        (Fact::Record(one), Fact::Record(two)) => {
            one.epoch() == two.epoch() && one.number() == two.number()
        }
        (Fact::Cut(one), Fact::Cut(two)) => one.epoch() == two.epoch(),
        _ => false,
    }
}

fn begun_breach(facts: &[Fact], cuts: &CountedCuts, fact: &Fact) -> Option<Breach>
    requires { Describes facts.now cuts.now }
    ensures { MatchOption result (Law2 facts.now fact.now) (ReportsBegun facts.now fact.now) }
{
    let Fact::Record(redo) = fact else {
        return None;
    };
    if let Some(epoch) = cuts.first_missing(redo.epoch()) {
        return Some(Breach::NotBegun { epoch });
    }
    let cut = cuts.at(redo.epoch())?;
    if cut.hi() < redo.number() {
        return None;
    }
    let place = place_of_cut(facts, cut)?;
    Some(Breach::NotAbove { place })
}

/// The first index (from 1) of a truncation.
fn place_of_cut(facts: &[Fact], sought: Cut) -> Option<u64>
    ensures { MatchOption result (Contains facts.now (Fact.Cut sought) → ⊥) (λ place. IsPlaced facts.now place (Fact.Cut sought)) }
{
    for (place, fact) in facts.iter().enumerate() {
        if is_cut(fact, sought) {
            return Some(place as u64 + 1);
        }
    }
    None
}

fn is_cut(fact: &Fact, sought: Cut) -> bool
    ensures { IsTrue result ↔ (fact.now ≡ Fact.Cut sought) }
{
    match fact {
        Fact::Cut(cut) => *cut == sought,
        _ => false,
    }
}

fn segment_breach(
    alloc: Global,
    facts: &[Fact],
    cuts: &CountedCuts,
    fact: &Fact,
) -> Result<Option<Breach>, AllocError>
    requires { Describes facts.now cuts.now }
    ensures { IfOk result (λ found. MatchOption found (Law3 facts.now fact.now) (ReportsSegment facts.now fact.now)) }
{
    match fact {
        Fact::Record(redo) => link_breach(alloc, facts, cuts, redo, None, redo.back()),
        _ => Ok(None),
    }
}

fn block_breach(
    alloc: Global,
    facts: &[Fact],
    cuts: &CountedCuts,
    fact: &Fact,
) -> Result<Option<Breach>, AllocError>
    requires { Describes facts.now cuts.now }
    ensures { IfOk result (λ found. MatchOption found (Law4 facts.now fact.now) (ReportsBlock facts.now fact.now)) }
{
    match fact {
        Fact::Record(redo) => {
            let page = Some(redo.page());
            link_breach(alloc, facts, cuts, redo, page, redo.block_back())
        }
        _ => Ok(None),
    }
}

/// What is wrong with a backlink of a record, in the chain of a page or of all pages.
fn link_breach(
    alloc: Global,
    facts: &[Fact],
    cuts: &CountedCuts,
    redo: &Record,
    page: Option<u16>,
    back: u64,
) -> Result<Option<Breach>, AllocError>
    requires { Describes facts.now cuts.now }
    ensures { IfOk result (λ found. MatchOption found (IsGreatest (IsAliveBelow facts.now redo.now (λ s. IsOfPage page s)) back)
        (ReportsLink facts.now redo.now (λ s. IsOfPage page s) back)) }
{
    let target = target_of(alloc, facts, cuts, redo, page)?;
    if back < target.number {
        let place = target.place;
        return Ok(Some(Breach::Passes { place }));
    }
    if target.number < back {
        return Ok(Some(Breach::NoTarget { number: back }));
    }
    Ok(None)
}

fn advance_breach(
    alloc: Global,
    facts: &[Fact],
    roster: Roster,
    cuts: &CountedCuts,
    fact: &Fact,
) -> Result<Option<Breach>, AllocError>
    requires { Describes facts.now cuts.now }
    ensures { IfOk result (λ found. MatchOption found (Law5 roster facts.now fact.now) (ReportsAdvance roster facts.now fact.now)) }
{
    let Fact::Advance(advance) = fact else {
        return Ok(None);
    };
    let reader = advance.reader();
    if reader > roster.readers() {
        return Ok(Some(Breach::NoReader { reader }));
    }
    if let Some(epoch) = cuts.first_missing(advance.epoch()) {
        return Ok(Some(Breach::NotBegun { epoch }));
    }
    let lows = lows_of(alloc, facts, roster, cuts.epochs())?;
    match cut_below(facts, cuts, &lows, *advance) {
        Some(place) => Ok(Some(Breach::CutBelow { place })),
        None => Ok(None),
    }
}

/// The index (from 1) of an effective truncation of a later epoch that cuts below the advance's point and that all readers are past.
fn cut_below(facts: &[Fact], cuts: &CountedCuts, lows: &[u64], advance: Advance) -> Option<u64>
    requires { Describes facts.now cuts.now }
    ensures { (roster : ℕ) → AreLeastPoints roster facts.now (length cuts.now.by_epoch.items) lows.now
        → MatchOption result
        ((c : CutData) → Contains (counted facts.now) c → advance.epoch < c.epoch → ArePast roster (advances facts.now) c → advance.point ≤ c.lo)
        (IsCutBelow roster facts.now advance) }
{
    for (place, fact) in facts.iter().enumerate() {
        if let Fact::Cut(cut) = fact {
            if is_below(cut, lows, advance) && cuts.counts(cut) {
                return Some(place as u64 + 1);
            }
        }
    }
    None
}

fn is_below(cut: &Cut, lows: &[u64], advance: Advance) -> bool
    ensures { IsTrue result ↔ ((advance.epoch < cut.now.epoch) × (cut.now.lo < advance.point) × (cut.now.lo < slice_index lows.now cut.now.epoch)) }
{
    let low = lows.get(usize::from(cut.epoch())).copied().unwrap_or(0);
    advance.epoch() < cut.epoch() && cut.lo() < advance.point() && cut.lo() < low
}
