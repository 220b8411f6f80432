//! Facts that reach a node.
ghost use Rattle.redo_core.specs.declared.facts.Fact.TheVariants.{Record as RecordOf};
ghost use Rattle.fleet_core.specs.Calls.{Takes};

use crate::replies::Reply;
use crate::replying::taken_reply;
use redo_core::{Fact, Record};
use segment_core::{Refusal, Segment};

/// Takes a fact.
pub(crate) fn take_fact(segment: &mut Segment, fact: Fact) -> Reply
    ensures { Takes segment.old fact result segment.new }
{
    taken_reply(segment.take(fact))
}

/// Takes a copy of a fact.
pub(crate) fn take_copy(segment: &mut Segment, fact: &Fact) -> Reply
    ensures { Takes segment.old fact.now result segment.new }
{
    match fact {
        Fact::Record(redo) => match redo.copy() {
            Ok(copied) => take_fact(segment, Fact::Record(copied)),
            Err(_) => uncopied_reply(segment, redo),
        },
        Fact::Cut(cut) => take_fact(segment, Fact::Cut(*cut)),
        Fact::Advance(advance) => take_fact(segment, Fact::Advance(*advance)),
    }
}

/// The reply to a record that there is no memory to copy: one that is known or refused needs none.
fn uncopied_reply(segment: &Segment, redo: &Record) -> Reply
    ensures { Takes segment.now (RecordOf redo.now) result segment.now }
{
    if segment.is_stable(redo) {
        return Reply::Unchanged;
    }
    // At most one record is stored under a key.
    segment.opens_form();
    match segment.get(redo.key()) {
        Some(held) => {
            if held.is_same(redo) {
                Reply::Unchanged
            } else {
                Reply::Refused(Refusal::OtherRecord)
            }
        }
        None => Reply::Memory,
    }
}
