ghost use Rattle.std.specs.Prelude.{◌≡◌};

use crate::lock::Lock;
use crate::rule::Trailed;
use std::marker::Model;
use std::snapshot::Snapshot;

/// The state that a lock had when it was closed. Only `Lock::close` makes one, so what holds one has the state of that lock.
#[derive(Drop)]
pub struct FinalState<S: Trailed + Drop> {
    lock: Snapshot<Lock<S>>,
    state: S,
}

impl<S: Trailed + Drop> Model for FinalState<S> {
    ghost use Rattle.node_lock.specs.Section.{FinalData};

    ghost Value = { FinalData S };

    ghost view = { λ f. record { lock = f.lock.value.id; state = f.state } };
}

impl<S: Trailed + Drop> FinalState<S> {
    pub(crate) fn new(lock: Snapshot<Lock<S>>, state: S) -> FinalState<S>
        ensures { result ≡ record { lock = lock.value.id; state = state } }
    {
        FinalState { lock, state }
    }

    pub fn state(&self) -> &S
        ensures { result.now ≡ self.now.state }
    {
        &self.state
    }

    pub fn into_state(self) -> S
        ensures { result ≡ self.state }
    {
        self.state
    }
}
