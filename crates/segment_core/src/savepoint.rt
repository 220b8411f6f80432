//! What a segment is rolled back to, where facts are taken and records inserted in place and one of them is refused.
ghost use Rattle.std.specs.Prelude.{◌≡◌, ◌↔◌, IfOk, OnOk, OnErr};
ghost use Rattle.std.specs.List.{Contains};
ghost use Rattle.redo_core.specs.Data.{RecordData};
ghost use Rattle.redo_core.specs.Keys.{key_of};
ghost use Rattle.redo_core.specs.declared.keys.Key.{Key};
ghost use Rattle.hot_log.specs.Held.{IsHeld};
ghost use Rattle.segment_core.specs.Savepoint.{SavepointData, IsFormOf, IsSavepointOf, NotesKey, brought_back};

use crate::pending::PendingPages;
use crate::points::Points;
use crate::segment::Segment;
use epoch_book::EpochBook;
use hot_log::HotLog;
use redo_core::Key;
use std::alloc::AllocError;
use std::marker::Model;
use std::mem;

/// The book, the points and the pending pages as they were, and the keys of the records that have come in after that.
#[derive(Drop)]
pub struct Savepoint {
    book: EpochBook,
    points: Points,
    due: PendingPages,
    came: Vec<Key>,
}

impl Model for Savepoint {
    ghost use Rattle.segment_core.specs.Savepoint.{SavepointData};

    ghost Value = { SavepointData };

    ghost view = { λ s. record { book = s.book; points = s.points; due = s.due; came = s.came.items } };
}

impl Savepoint {
    /// Notes a key. It fails only if memory runs out; the notes are then as they were.
    pub(crate) fn note(&mut self, key: Key) -> Result<(), AllocError>
        ensures notes { OnOk result (NotesKey self.old key self.new) }
        ensures unchanged { OnErr result (self.new ≡ self.old) }
    {
        match self.came.push(key) {
            Ok(()) => Ok(()),
            Err(_) => Err(AllocError),
        }
    }

    /// Removes the note of the last key.
    pub(crate) fn forget_last(&mut self)
        ensures { (before : SavepointData) (key : Key) → NotesKey before key self.old → self.new ≡ before }
    {
        let _ = self.came.pop();
    }
}

impl Segment {
    /// The savepoint that a merge transaction on the segment begins with. It fails only if memory runs out.
    pub fn savepoint(&self) -> Result<Savepoint, AllocError>
        ensures { IfOk result (IsSavepointOf self.now) }
    {
        Ok(Savepoint {
            book: self.book.copy()?,
            points: self.points,
            due: self.due.copy()?,
            came: Vec::new(self.alloc),
        })
    }

    /// Rolls the segment back. The savepoint is of no use afterwards.
    pub(crate) fn roll_back(&mut self, saved: &mut Savepoint)
        requires { IsFormOf (brought_back saved.old self.old) saved.old.points saved.old.due }
        ensures { self.new ≡ brought_back saved.old self.old }
    {
        take_out(&mut self.hot, &saved.came);
        mem::swap(&mut self.book, &mut saved.book);
        mem::swap(&mut self.points, &mut saved.points);
        mem::swap(&mut self.due, &mut saved.due);
    }
}

/// Removes the records of these keys.
fn take_out(hot: &mut HotLog, keys: &[Key])
    ensures removes { (r : RecordData) → Contains hot.new r ↔ (Contains hot.old r × (Contains keys.now (key_of r) → ⊥)) }
    ensures form { IsHeld hot.new }
{
    for key in keys {
        hot.remove(*key);
    }
    hot.opens_form();
}
