ghost use Rattle.std.specs.Prelude.{◌≡◌};

use crate::lock::Lock;
use crate::rule::Trailed;
use std::marker::Model;
use std::snapshot::Snapshot;

/// One critical section: the state as its holder found it, and as it gave it back. Only the calls that give a state back make one, so
/// a clause about a section is about the state of that lock. It has no bytes.
#[derive(Drop)]
pub struct Section<S: Trailed + Drop> {
    lock: Snapshot<Lock<S>>,
    before: Snapshot<S>,
    after: Snapshot<S>,
}

impl<S: Trailed + Drop> Model for Section<S> {
    ghost use Rattle.node_lock.specs.Section.{SectionData};

    ghost Value = { SectionData S };

    ghost view = { λ s. record { lock = s.lock.value.id; before = s.before.value; after = s.after.value } };
}

impl<S: Trailed + Drop> Section<S> {
    // The state is given back right after.
    pub(crate) fn of(lock: &Lock<S>, before: Snapshot<S>, state: &S) -> Section<S>
        ensures { result ≡ record { lock = lock.now.id; before = before.value; after = state.now } }
    {
        Section {
            lock: Snapshot::of(lock),
            before,
            after: Snapshot::of(state),
        }
    }
}
