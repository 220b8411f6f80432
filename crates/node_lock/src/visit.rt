ghost use Rattle.std.specs.Prelude.{◌≡◌};

use crate::held::Held;
use crate::lock::Lock;
use crate::rule::Trailed;
use crate::section::Section;
use std::snapshot::Snapshot;

/// A holder of the state without a pass. It is not `Drop`: only `leave` ends it, and gives the state back.
pub struct Visit<'l, S: Trailed + Drop> {
    pub state: S,
    pub(crate) found: Snapshot<S>,
    pub(crate) lock: &'l Lock<S>,
    pub(crate) held: Held<S>,
    ghost own: { held.seat.table_id ≡ lock.now.id },
}

impl<S: Trailed + Drop> Visit<'_, S> {
    ghost use Rattle.node_lock.specs.Visit.{taken_by, found_by_visit, lock_of_visit};

    /// Gives the state back, with the trail that it had and all that the type says is retained.
    pub fn leave(self) -> Section<S>
        requires trail { S.trail self.state ≡ taken_by self }
        requires state { S.keeps self.state }
        requires retained { S.retains (found_by_visit self) self.state }
        ensures { result ≡ record { lock = lock_of_visit self.entry; before = found_by_visit self.entry; after = self.entry.state } }
    {
        let Visit {
            state,
            found,
            lock,
            held,
        } = self;
        let section = Section::of(lock, found, &state);
        let _idle = held.give(&lock.table.shared, &lock.sleepers, state);
        section
    }
}
