ghost use Rattle.std.specs.Prelude.{◌≡◌, List, [], ◌∷◌, ◌++◌, length, Some, None};
ghost use Rattle.node_lock.specs.Trail.{Entry};

use crate::lock::Lock;
use crate::pass::Pass;
use crate::rule::Trailed;
use crate::section::Section;
use std::snapshot::Snapshot;

/// A pass that has the state. It is not `Drop`: only `give` and `post` end it, and both give the state back. Their clauses say what
/// becomes of the pass, the first field (`exit.0`).
pub struct Turn<'l, 'p, S: Trailed + Drop> {
    pub pass: &'p mut Pass<S>,
    pub state: S,
    pub(crate) found: Snapshot<S>,
    pub(crate) lock: &'l Lock<S>,
    ghost own: { pass.now.lock ≡ lock.now.id },
}

impl<S: Trailed + Drop> Turn<'_, '_, S> {
    ghost use Rattle.node_lock.specs.Turn.{found_by_turn};

    /// Gives the state back, with the trail that it had and all that its type says is retained.
    pub fn give(self) -> Section<S>
        requires trail { self.pass.now.out ≡ Some (S.trail self.state) }
        requires state { S.keeps self.state }
        requires retained { S.retains (found_by_turn self) self.state }
        ensures pass { self.exit.0.now ≡ record self.entry.pass.now { out = None } }
        ensures section { result ≡ record { lock = self.entry.pass.now.lock; before = found_by_turn self.entry; after = self.entry.state } }
    {
        let Turn {
            pass,
            state,
            found,
            lock,
        } = self;
        let section = Section::of(lock, found, &state);
        pass.give(&lock.table.shared, &lock.sleepers, state);
        section
    }

    /// Gives the state back, with one entry more in its trail: that of the pass, for this place in the log. The pass gets the receipt.
    /// All that the type says is retained.
    pub fn post(self, log_place: u64) -> Section<S>
        requires trail { (trail : List Entry) × (self.pass.now.out ≡ Some trail) × (S.trail self.state ≡ trail ++ (self.pass.now.number, log_place) ∷ []) }
        requires state { S.keeps self.state }
        requires retained { S.retains (found_by_turn self) self.state }
        ensures receipt { self.exit.0.now ≡ record self.entry.pass.now {
          list = self.entry.pass.now.list ++ (length (S.trail self.entry.state), log_place) ∷ [];
          out = None;
        } }
        ensures section { result ≡ record { lock = self.entry.pass.now.lock; before = found_by_turn self.entry; after = self.entry.state } }
    {
        let Turn {
            pass,
            state,
            found,
            lock,
        } = self;
        let section = Section::of(lock, found, &state);
        pass.post(&lock.table.shared, &lock.sleepers, state, log_place);
        section
    }
}
