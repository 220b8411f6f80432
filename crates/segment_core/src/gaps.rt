ghost use Rattle.std.specs.Prelude.{ℕ, List};
ghost use Rattle.redo_core.specs.Position.{Position};
ghost use Rattle.redo_core.specs.Sound.{IsSound};
ghost use Rattle.redo_core.specs.declared.facts.Fact.{Fact as AnyFact};
ghost use Rattle.segment_theorems.specs.Means.{MeansAt};
ghost use Rattle.segment_core.specs.Gaps.{IsGapAt, IsGapOf};
ghost use Rattle.segment_core.specs.Form.{IsSegment};

use crate::answers::Gap;
use crate::segment::Segment;
use hot_log::BookView;

impl Segment {
    /// What the complete point waits for: the record that blocks the first alive record above it, or else the truncation of the next
    /// epoch, where stored records wait for that. None where no stored record waits or is alive above the complete point.
    pub fn gap(&self) -> Option<Gap>
        ensures gap { (roster : ℕ) (log facts : List AnyFact) (p : Position) → IsSound roster log → MeansAt roster log facts p self.now → IsGapAt log facts p result }
        // For arbitrary facts.
        ensures own { IsGapOf self.now result }
        ensures form { IsSegment self.now }
    {
        let front = self.front();
        let (book, held) = (&self.book, &self.hot);
        let view = BookView { book, held };
        match view.gap_above(front.complete) {
            Some(number) => Some(Gap::Record { number }),
            None => {
                let epoch = view.awaited()?;
                Some(Gap::Truncation { epoch })
            }
        }
    }
}
