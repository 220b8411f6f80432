ghost use Rattle.std.specs.Prelude.{◌≡◌};
ghost use Rattle.std.specs.Fn.{FnOnceReturnsAtMut};
ghost use Rattle.node_lock.specs.Trail.{HasReceipts};
ghost use Rattle.node_lock.specs.Passes.{IsIdlePass};
ghost use Rattle.node_lock.specs.Reading.{KeepsTrail};

use crate::lock::Lock;
use crate::pass::Pass;
use crate::rule::Trailed;
use crate::section::Section;
use std::snapshot::Snapshot;
use std::sync::Wait;

impl<S: Trailed + Drop> Lock<S> {
    /// Runs a call on the state that leaves the trail as it is and retains what the type says. The state has every receipt of the pass.
    pub fn read<R: Wait, X, F: FnOnce(&mut S) -> X>(
        &self,
        rt: &R,
        pass: &mut Pass<S>,
        call: F,
    ) -> (X, Section<S>)
        requires pass { IsIdlePass self.now.id pass.old }
        requires callable { F.IsAlwaysCallable call }
        requires keeps { KeepsTrail S.trail S.keeps S.retains (λ s x t. FnOnceReturnsAtMut F.FnOnce call s x t) }
        ensures pass { pass.new ≡ pass.old }
        ensures lock { result.1.lock ≡ self.now.id }
        ensures state { S.keeps result.1.before × S.retains result.1.before result.1.after }
        ensures has { HasReceipts (S.trail result.1.before) pass.old.number pass.old.list }
        ensures answer { FnOnceReturnsAtMut F.FnOnce call result.1.before result.0 result.1.after }
    {
        let mut state = pass.take(rt, &self.table.shared, &self.sleepers);
        let found = Snapshot::of(&state);
        let answer = call(&mut state);
        let section = Section::of(self, found, &state);
        pass.give(&self.table.shared, &self.sleepers, state);
        (answer, section)
    }
}
