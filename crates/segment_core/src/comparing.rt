ghost use Rattle.std.specs.Prelude.{◌≡◌, ℕ, ◌↔◌, IsTrue, IfOk};
ghost use Rattle.segment_theorems.specs.State.{image_of};
ghost use Rattle.segment_theorems.specs.Shows.{Shows};
ghost use Rattle.segment_core.specs.Comparing.{ReportsSamePage};

use crate::segment::Segment;
use hot_log::BookView;
use redo_core::Page;
use std::alloc::AllocError;

impl Segment {
    /// Whether a page at a point is that of another segment at a point of its own. Where the base images show both, they are
    /// compared in place. It fails only if memory runs out.
    pub fn is_same_page(
        &self,
        page: u16,
        point: u64,
        other: &Segment,
        other_point: u64,
    ) -> Result<bool, AllocError>
        ensures { IfOk result (ReportsSamePage self.now point other.now other_point page) }
    {
        if self.shows_its_image(page, point) && other.shows_its_image(page, other_point) {
            return Ok(self.has_same_image(page, other));
        }
        let own = self.page_at(page, point)?;
        let others = other.page_at(page, other_point)?;
        Ok(is_equal(&own, &others))
    }

    /// Whether the page at a point is its base image: no stored record is applied to that.
    pub(crate) fn shows_its_image(&self, page: u16, point: u64) -> bool
        ensures { IsTrue result → Shows self.now page point (image_of self.now.store page) }
    {
        let (book, held) = (&self.book, &self.hot);
        let view = BookView { book, held };
        match view.next_of(page, self.store.version(page), point) {
            Some(_) => false,
            None => true,
        }
    }

    /// Whether the base images of a page are equal.
    fn has_same_image(&self, page: u16, other: &Segment) -> bool
        ensures { IsTrue result ↔ (image_of self.now.store page ≡ image_of other.now.store page) }
    {
        match (
            self.store.stored_image(page),
            other.store.stored_image(page),
        ) {
            (Some(own), Some(others)) => is_equal(own.image().page(), others.image().page()),
            (Some(own), None) => own.image().is_zero(),
            (None, Some(others)) => others.image().is_zero(),
            (None, None) => true,
        }
    }
}

fn is_equal(one: &Page, other: &Page) -> bool
    ensures { IsTrue result ↔ (one.now ≡ other.now) }
{
    one.bytes() == other.bytes()
}
