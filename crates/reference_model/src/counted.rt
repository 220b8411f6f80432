ghost use Rattle.std.specs.Prelude.{◌≡◌, ◌↔◌, IsTrue};
ghost use Rattle.std.specs.List.{Contains};
ghost use Rattle.redo_core.specs.Sound.{counted, IsAliveBelow};
ghost use Rattle.redo_core.specs.Order.{IsGreatest};
ghost use Rattle.redo_core.specs.Standing.{IsAlive};
ghost use Rattle.reference_model.specs.Chained.{Follows, IsBelowOn};

use crate::chains::Chain;
use crate::standings::spares;
use redo_core::{Cut, Fact, Record};

// Whether a truncation is the first of its epoch, which is the effective one.
pub(crate) fn is_counted(log: &[Fact], cut: &Cut) -> bool
    ensures { IsTrue result ↔ Contains (counted log.now) cut.now }
{
    for fact in log {
        if let Fact::Cut(first) = fact {
            if first.epoch() == cut.epoch() {
                return are_same(first, cut);
            }
        }
    }
    false
}

pub(crate) fn are_same(one: &Cut, other: &Cut) -> bool
    ensures { IsTrue result ↔ (one.now ≡ other.now) }
{
    *one == *other
}

// Whether a record of this epoch and LSN is alive in a view, by the effective truncations.
pub(crate) fn is_alive_by_counted(log: &[Fact], view: u16, epoch: u16, number: u64) -> bool
    ensures { IsTrue result ↔ IsAlive (counted log.now) view epoch number }
{
    if epoch > view {
        return false;
    }
    for fact in log {
        if let Fact::Cut(cut) = fact {
            if is_counted(log, cut) && !spares(cut, view, epoch, number) {
                return false;
            }
        }
    }
    true
}

// The greatest LSN below a record's own, on one of its chains, that is alive in the view of its epoch, or 0.
pub(crate) fn greatest_below(log: &[Fact], redo: &Record, chain: Chain) -> u64
    ensures { IsGreatest (IsAliveBelow log.now redo.now (Follows chain redo.now)) result }
{
    let mut greatest = 0;
    for fact in log {
        if let Fact::Record(other) = fact {
            let number = other.number();
            if number > greatest && is_below_on(log, redo, chain, other) {
                greatest = number;
            }
        }
    }
    greatest
}

fn is_below_on(log: &[Fact], redo: &Record, chain: Chain, other: &Record) -> bool
    ensures { IsTrue result ↔ IsBelowOn log.now redo.now chain other.now }
{
    let follows = match chain {
        Chain::Segment => true,
        Chain::Block => other.page() == redo.page(),
    };
    follows
        && other.number() < redo.number()
        && is_alive_by_counted(log, redo.epoch(), other.epoch(), other.number())
}
