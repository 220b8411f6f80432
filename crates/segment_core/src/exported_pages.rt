//! The pages that a segment shows at its anchor.
ghost use Rattle.std.specs.Prelude.{◌≡◌, ◌⊎◌, nat_le, IfOk, Some};
ghost use Rattle.redo_core.specs.Order.{IsRising};
ghost use Rattle.redo_core.specs.Store.{PageBefore};
ghost use Rattle.hot_log.specs.Found.{IsLeast, IsPageAbove};
ghost use Rattle.segment_core.specs.StoredPages.{AreShown, CountsShown, BeginsAbove, IsStoredPage, IsImageOf, IsImageAtAnchor};

use crate::segment::Segment;
use messages::PageImage;
use page_base::BaseImage;
use std::alloc::AllocError;

/// The pages at a segment's anchor that are not zeros, rising. No block chain is walked. It fails only if memory runs out.
pub fn pages_at_anchor(segment: &Segment) -> Result<Vec<PageImage>, AllocError>
    ensures { IfOk result (λ v. AreShown segment.now v.items) }
{
    // The images rise by page.
    segment.opens_form();
    let mut pages = Vec::new(segment.allocator());
    let mut next = stored_page_after(segment, None);
    while let Some(page) = next {
        if let Some(image) = image_at_anchor(segment, page)? {
            pages.push(image)?;
        }
        next = stored_page_after(segment, Some(page));
    }
    Ok(pages)
}

/// How many pages at a segment's anchor are not zeros. They are made one at a time, and none is kept. It fails only if memory runs out.
pub fn count_at_anchor(segment: &Segment) -> Result<usize, AllocError>
    ensures { IfOk result (CountsShown segment.now) }
{
    // The images rise by page.
    segment.opens_form();
    let mut count = 0;
    let mut next = stored_page_after(segment, None);
    while let Some(page) = next {
        if let Some(image) = image_at_anchor(segment, page)? {
            // Called only for its postcondition: the length of a page.
            let _bytes = image.page().bytes();
            count += 1;
        }
        next = stored_page_after(segment, Some(page));
    }
    Ok(count)
}

/// A page at the anchor, where it is not zeros.
fn image_at_anchor(segment: &Segment, page: u16) -> Result<Option<PageImage>, AllocError>
    ensures { IfOk result (IsImageAtAnchor segment.now page) }
{
    let image = segment.page_at_anchor(page)?;
    if image.is_zero() {
        return Ok(None);
    }
    Ok(Some(PageImage::new(page, image)))
}

/// The least page above the one given that has an image, or that a stored record writes.
pub fn stored_page_after(segment: &Segment, after: Option<u16>) -> Option<u16>
    ensures { IsLeast (λ g. IsStoredPage segment.now g × IsPageAbove after g) result }
{
    lesser(
        image_after(segment.pages(), after),
        segment.page_after(after),
    )
}

/// The least page above the one given that has an image.
fn image_after(images: &[BaseImage], after: Option<u16>) -> Option<u16>
    requires { IsRising PageBefore images.now }
    ensures { IsLeast (λ g. IsImageOf images.now g × IsPageAbove after g) result }
{
    let place = place_after(images, after);
    if place == images.len() {
        return None;
    }
    Some(images[place].page())
}

/// Where the images of pages above the one given begin.
fn place_after(images: &[BaseImage], after: Option<u16>) -> usize
    requires { IsRising PageBefore images.now }
    ensures { BeginsAbove after images.now result }
{
    match after {
        None => 0,
        Some(page) => place_above(images, page),
    }
}

fn place_above(images: &[BaseImage], page: u16) -> usize
    requires { IsRising PageBefore images.now }
    ensures { BeginsAbove (Some page) images.now result }
{
    images.partition_point(
        |image: &BaseImage| -> bool
            ensures { result ≡ nat_le image.now.page page }
        { image.page() <= page },
    )
}

/// The lesser of two pages, where there are two.
fn lesser(one: Option<u16>, other: Option<u16>) -> Option<u16>
    ensures { IsLeast (λ g. (one ≡ Some g) ⊎ (other ≡ Some g)) result }
{
    match (one, other) {
        (Some(a), Some(b)) => Some(a.min(b)),
        (Some(a), None) => Some(a),
        (None, b) => b,
    }
}
