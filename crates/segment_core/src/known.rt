ghost use Rattle.std.specs.Prelude.{◌↔◌, ℕ, IsTrue};
ghost use Rattle.std.specs.List.{Contains};
ghost use Rattle.redo_core.specs.declared.facts.Fact.TheVariants.{Advance as OfAdvance};
ghost use Rattle.segment_theorems.specs.Known.{IsKnown};

use crate::segment::Segment;
use redo_core::{Advance, Cut};

impl Segment {
    /// Whether this truncation is known.
    pub fn knows_cut(&self, cut: Cut) -> bool
        ensures { IsTrue result ↔ Contains self.now.book.cuts cut }
    {
        self.book.has_cut(cut)
    }

    /// Whether an advance adds nothing new: its reader's point is not below it, or it waits already.
    pub fn knows_advance(&self, advance: Advance) -> bool
        ensures { IsTrue result ↔ IsKnown self.now (OfAdvance advance) }
    {
        self.book.has_advance(advance)
    }
}
