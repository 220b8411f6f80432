ghost use Rattle.std.specs.Prelude.{◌≡◌, ◌≤◌, ◌↔◌, IsTrue};
ghost use Rattle.redo_core.specs.Order.{IsGreatest};
ghost use Rattle.redo_core.specs.Linked.{IsLinked};
ghost use Rattle.reference_model.specs.Helpers.{IsLinkedWithin};

use crate::standings::is_alive;
use redo_core::Fact;

/// Whether an LSN is linked in a view: 0, or the LSN of an alive record whose segment backlink is linked.
pub fn is_linked(facts: &[Fact], view: u16, number: u64) -> bool
    ensures { IsTrue result ↔ IsLinked facts.now view number }
{
    if number == 0 {
        return true;
    }
    for fact in facts {
        if let Fact::Record(redo) = fact {
            if redo.number() == number && is_alive(facts, view, redo.epoch(), number) {
                if is_linked(facts, view, redo.back()) {
                    return true;
                }
            }
        }
    }
    false
}

/// The greatest LSN linked in a view.
pub fn complete_point(facts: &[Fact], view: u16) -> u64
    ensures { IsGreatest (IsLinked facts.now view) result }
{
    greatest_linked(facts, view, None)
}

/// The greatest LSN linked in a view that is not above a minimum read point.
pub fn anchor(facts: &[Fact], view: u16, min: u64) -> u64
    ensures { IsGreatest (λ n. IsLinked facts.now view n × (n ≤ min)) result }
{
    greatest_linked(facts, view, Some(min))
}

fn greatest_linked(facts: &[Fact], view: u16, limit: Option<u64>) -> u64
    ensures { IsGreatest (IsLinkedWithin facts.now view limit) result }
{
    let mut greatest = 0;
    for fact in facts {
        if let Fact::Record(redo) = fact {
            let number = redo.number();
            if number > greatest && is_linked_within(facts, view, limit, number) {
                greatest = number;
            }
        }
    }
    greatest
}

fn is_linked_within(facts: &[Fact], view: u16, limit: Option<u64>, number: u64) -> bool
    ensures { IsTrue result ↔ IsLinkedWithin facts.now view limit number }
{
    let within = match limit {
        Some(limit) => number <= limit,
        None => true,
    };
    within && is_linked(facts, view, number)
}
