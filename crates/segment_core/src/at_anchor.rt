ghost use Rattle.std.specs.Prelude.{ℕ, IfOk, IfSome};
ghost use Rattle.segment_theorems.specs.HasMeaning.{HasAnchor};
ghost use Rattle.segment_theorems.specs.Shows.{Shows};

use crate::segment::Segment;
use redo_core::SharedPage;
use std::alloc::AllocError;

impl Segment {
    /// The page at the anchor: its image with the stored records up to there applied. Where none is applied, the image itself is shared.
    /// The call does not walk the block chain. It fails only if memory runs out.
    pub fn page_at_anchor(&self, page: u16) -> Result<SharedPage, AllocError>
        ensures { (anchor : ℕ) → HasAnchor self.now anchor → IfOk result (λ image. Shows self.now page anchor image) }
    {
        let anchor = self.anchor();
        if let Some(image) = self.unwritten_image(page, anchor) {
            return image.share();
        }
        let made = self.page_at(page, anchor)?;
        Ok(SharedPage::new(self.alloc, made)?)
    }

    /// The base image of a page, where it is the page at the point.
    fn unwritten_image(&self, page: u16, point: u64) -> Option<&SharedPage>
        ensures { IfSome result (λ image. Shows self.now page point image.now) }
    {
        if !self.shows_its_image(page, point) {
            return None;
        }
        match self.store.stored_image(page) {
            Some(stored) => Some(stored.image()),
            None => None,
        }
    }
}
