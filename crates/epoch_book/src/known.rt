ghost use Rattle.std.specs.Prelude.{◌↔◌, IsTrue};
ghost use Rattle.std.specs.List.{Contains};
ghost use Rattle.epoch_book.specs.Learning.{KnowsAdvance};

use crate::book::EpochBook;
use crate::{advances, cuts};
use redo_core::{Advance, Cut};

impl EpochBook {
    /// Whether this truncation is stored.
    pub fn has_cut(&self, cut: Cut) -> bool
        ensures { IsTrue result ↔ Contains self.now.cuts cut }
    {
        match cuts::place_of_epoch(&self.cuts, cut.epoch()) {
            Ok(place) => self.cuts[place] == cut,
            Err(_) => false,
        }
    }

    /// Whether an advance adds nothing: its reader's point is not below it, or it waits already.
    pub fn has_advance(&self, advance: Advance) -> bool
        ensures { IsTrue result ↔ KnowsAdvance self.now advance }
    {
        if self.complete < advance.epoch() {
            return advances::place_of_advance(self.waits.as_slice(), advance).is_ok();
        }
        match self
            .points
            .as_slice()
            .get(usize::from(advance.reader()) - 1)
        {
            Some(point) => advance.point() <= *point,
            None => false,
        }
    }
}
