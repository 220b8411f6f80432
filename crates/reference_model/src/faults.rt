ghost use Rattle.std.specs.Prelude.{◌≡◌, ℕ, ◌-◌, ◌<◌, ◌≤◌, ◌↔◌, IsTrue, IsNone, IfSome, None, length, take};
ghost use Rattle.std.specs.List.{Contains};
ghost use Rattle.redo_core.specs.Data.{CutData};
ghost use Rattle.redo_core.specs.Sets.{advances};
ghost use Rattle.redo_core.specs.Past.{ArePast};
ghost use Rattle.redo_core.specs.Shape.{record_fault, cut_fault, advance_fault};
ghost use Rattle.redo_core.specs.CompleteEpoch.{HasCutsTo};
ghost use Rattle.redo_core.specs.Sound.{counted, IsSound, Law1, Law2, Law5};
ghost use Rattle.redo_core.specs.Fault.{IsFirstFault};
ghost use Rattle.redo_core.specs.declared.facts.Fact.TheVariants.{Record as TheRecord, Cut as TheCut, Advance as TheAdvance};
ghost use Rattle.reference_model.specs.FoundFault.{FindsFault};

use crate::chains::Chain;
use crate::counted::{are_same, greatest_below, is_alive_by_counted, is_counted};
use crate::epochs::complete_epoch;
use crate::past::are_past;
use redo_core::{Advance, Cut, Fact, Law, LawFault, Record, Roster};

/// The least index of a log (from 1) that breaks a law, with the least law that it breaks. There is none exactly where the
/// log is sound.
pub fn first_fault(log: &[Fact], roster: Roster) -> Option<LawFault>
    ensures sound { IsNone result ↔ IsSound roster log.now }
    ensures fault { IfSome result (λ f. (0 < f.place) × IsFirstFault roster log.now (f.place - 1) f.law) }
{
    let readers = roster.readers();
    for (place, fact) in log.iter().enumerate() {
        if let Some(law) = broken_law(log, readers, place, fact) {
            return Some(LawFault {
                law,
                place: place as u64 + 1,
            });
        }
    }
    None
}

// The least law that the fact at an index (from 0) breaks.
fn broken_law(log: &[Fact], readers: u8, place: usize, fact: &Fact) -> Option<Law>
    requires { place ≤ length log.now }
    ensures { FindsFault readers log.now place fact.now result }
{
    let (earlier, _) = log.split_at(place);
    match fact {
        Fact::Record(redo) => broken_by_record(log, earlier, redo),
        Fact::Cut(cut) if is_only_cut(earlier, cut) => None,
        Fact::Cut(_) => Some(Law::OneFactPerKey),
        Fact::Advance(advance) if is_kept(log, readers, advance) => None,
        Fact::Advance(_) => Some(Law::AdvanceKept),
    }
}

fn broken_by_record(log: &[Fact], earlier: &[Fact], redo: &Record) -> Option<Law>
    ensures { (roster place : ℕ) → earlier.now ≡ take place log.now → FindsFault roster log.now place (TheRecord redo.now) result }
{
    if !is_only_record(earlier, redo) {
        return Some(Law::OneFactPerKey);
    }
    if !has_begun(log, redo) {
        return Some(Law::EpochBegun);
    }
    if redo.back() != greatest_below(log, redo, Chain::Segment) {
        return Some(Law::SegmentBacklink);
    }
    if redo.block_back() != greatest_below(log, redo, Chain::Block) {
        return Some(Law::BlockBacklink);
    }
    None
}

// Whether each earlier record of its key is the record itself.
fn is_only_record(earlier: &[Fact], redo: &Record) -> bool
    ensures { IsTrue result ↔ Law1 earlier.now (TheRecord redo.now) }
{
    for fact in earlier {
        if let Fact::Record(other) = fact {
            if other.epoch() == redo.epoch()
                && other.number() == redo.number()
                && !other.is_same(redo)
            {
                return false;
            }
        }
    }
    true
}

// Whether each earlier truncation of its epoch is the truncation itself.
fn is_only_cut(earlier: &[Fact], cut: &Cut) -> bool
    ensures law { IsTrue result ↔ Law1 earlier.now (TheCut cut.now) }
    ensures shape { cut_fault cut.now ≡ None }
{
    let epoch = cut.epoch();
    for fact in earlier {
        if let Fact::Cut(other) = fact {
            if other.epoch() == epoch && !are_same(other, cut) {
                return false;
            }
        }
    }
    true
}

// Whether a record's epoch has begun, and its LSN is above the epoch's `hi`.
fn has_begun(log: &[Fact], redo: &Record) -> bool
    ensures law { IsTrue result ↔ Law2 log.now (TheRecord redo.now) }
    ensures shape { record_fault redo.now ≡ None }
{
    let epoch = redo.epoch();
    let number = redo.number();
    if !is_begun(log, epoch) {
        return false;
    }
    is_alive_by_counted(log, epoch, epoch, number)
}

// Whether an advance's reader is one of so many, its epoch has begun, and no later truncation that all readers are past cuts
// below its point.
fn is_kept(log: &[Fact], readers: u8, advance: &Advance) -> bool
    ensures law { IsTrue result ↔ Law5 readers log.now (TheAdvance advance.now) }
    ensures shape { advance_fault advance.now ≡ None }
{
    let epoch = advance.epoch();
    let point = advance.point();
    if advance.reader() > readers {
        return false;
    }
    if !is_begun(log, epoch) {
        return false;
    }
    is_spared(log, readers, epoch, point)
}

// Whether the log has a truncation of each epoch up to this one.
fn is_begun(log: &[Fact], epoch: u16) -> bool
    ensures { IsTrue result ↔ HasCutsTo (counted log.now) epoch }
{
    epoch <= complete_epoch(log)
}

// Whether no truncation after an epoch that all readers are past cuts below a point.
fn is_spared(log: &[Fact], readers: u8, epoch: u16, point: u64) -> bool
    ensures { IsTrue result ↔ ((c : CutData) → Contains (counted log.now) c → epoch < c.epoch → ArePast readers (advances log.now) c → point ≤ c.lo) }
{
    for fact in log {
        if let Fact::Cut(cut) = fact {
            if cut.epoch() > epoch
                && cut.lo() < point
                && is_counted(log, cut)
                && are_past(log, readers, cut)
            {
                return false;
            }
        }
    }
    true
}
