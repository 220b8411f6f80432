//! A list of advances whose first ones are removed without moving the others.
ghost use Rattle.std.specs.Prelude.{◌≡◌, ◌≤◌, length, drop, IfOk, OnOk, OnErr};
ghost use Rattle.std.specs.List.{insert};

use redo_core::Advance;
use sorted_runs::put_in;
use std::alloc::{AllocError, AllocFailed};
use std::marker::Model;

/// The advances that wait for their epoch.
///
/// Removed ones stay in memory until they are more than half of the list; then the others move to its front. So a removal takes
/// constant time on average.
#[derive(Drop)]
pub(crate) struct WaitList {
    all: Vec<Advance>,
    // How many of them are removed: the first ones.
    removed: usize,
}

impl Model for WaitList {
    ghost use Rattle.std.specs.Prelude.{List, ◌≤◌, length, drop};
    ghost use Rattle.redo_core.specs.Data.{AdvanceData};

    ghost Value = { List AdvanceData };

    ghost view = { λ w. drop w.removed w.all.items };

    ghost invariant = { λ w. w.removed ≤ length w.all.items };
}

impl WaitList {
    pub(crate) fn new(all: Vec<Advance>) -> Self
        ensures { result ≡ all.items }
    {
        WaitList { all, removed: 0 }
    }

    /// An equal list with memory of its own. The only error is an allocation failure.
    pub(crate) fn copy(&self) -> Result<Self, AllocError>
        ensures { IfOk result (λ w. w ≡ self.now) }
    {
        Ok(WaitList {
            all: self.all.clone()?,
            removed: self.removed,
        })
    }

    pub(crate) fn as_slice(&self) -> &[Advance]
        ensures { result.now ≡ self.now }
    {
        &self.all[self.removed..]
    }

    /// Inserts an advance at an index. The only error is an allocation failure, which leaves the list unchanged.
    pub(crate) fn insert(
        &mut self,
        place: usize,
        advance: Advance,
    ) -> Result<(), AllocFailed<Advance>>
        requires { place ≤ length self.old }
        ensures ok { OnOk result (self.new ≡ insert self.old place advance) }
        ensures err { OnErr result (self.new ≡ self.old) }
    {
        put_in(&mut self.all, self.removed + place, advance)
    }

    /// Removes so many of the first ones.
    pub(crate) fn remove_first(&mut self, count: usize)
        requires { count ≤ length self.old }
        ensures { self.new ≡ drop count self.old }
    {
        self.removed += count;
        if self.removed > self.all.len() / 2 {
            self.close_up();
        }
    }

    fn close_up(&mut self)
        ensures { self.new ≡ self.old }
    {
        self.all.rotate_left(self.removed);
        let left = self.all.len() - self.removed;
        self.all.truncate(left);
        self.removed = 0;
    }
}
