ghost use Rattle.std.specs.Prelude.{◌≡◌, ℕ, ◌++◌, false, IsTrue, IfOk, IfErr};
ghost use Rattle.std.specs.List.{All, Contains};
ghost use Rattle.redo_core.specs.Data.{RecordData};
ghost use Rattle.hot_log.specs.Found.{IsPageAfter};
ghost use Rattle.segment_theorems.specs.HasMeaning.{HasAnchor};
ghost use Rattle.segment_core.specs.declared.answers.ReadFault.TheVariants.{Memory as MemoryOf};
ghost use Rattle.segment_join.specs.Sameness.{ReportsSame, SameByParts, ReportsPages, IsUnwritten};

use crate::covering::{covers, covers_back};
use segment_core::{BaseImage, ReadFault, Segment};
use segment_theorems::same_meaning;
use std::alloc::AllocError;

/// Whether two segments mean the same, whatever each has folded and dropped. The two rosters may differ.
///
/// Its only error is `Memory`.
pub fn same(one: &Segment, other: &Segment) -> Result<bool, ReadFault>
    // By the two meanings, for arbitrary facts.
    ensures meanings { IfOk result (ReportsSame one.now other.now) }
    // Inside one sound log: the parts that the two mean have one meaning.
    ensures parts { IfOk result (SameByParts one.now other.now) }
    ensures memory { IfErr result (λ e. e ≡ MemoryOf) }
{
    same_meaning();
    match has_same_meaning(one, other) {
        Ok(answer) => Ok(answer),
        Err(_) => Err(ReadFault::Memory),
    }
}

/// Two meanings are one where each covers the other and their pages at the anchors are the same.
fn has_same_meaning(one: &Segment, other: &Segment) -> Result<bool, AllocError>
    ensures { IfOk result (ReportsSame one.now other.now) }
{
    one.opens_form();
    other.opens_form();
    if !covers(one, other)? {
        return Ok(false);
    }
    if !covers_back(other, one)? {
        return Ok(false);
    }
    has_same_pages(one, one.anchor(), other, other.anchor())
}

/// Whether each page is the same. A page that has neither an image nor a stored record is zeros.
fn has_same_pages(
    one: &Segment,
    point: u64,
    other: &Segment,
    other_point: u64,
) -> Result<bool, AllocError>
    ensures { IfOk result (ReportsPages one.now point other.now other_point (λ P. (page : ℕ) → P page)) }
{
    one.opens_form();
    other.opens_form();
    if !has_same_written(one, point, other, other_point)? {
        return Ok(false);
    }
    if !has_same_images(one, point, other, other_point, one.pages())? {
        return Ok(false);
    }
    has_same_images(one, point, other, other_point, other.pages())
}

/// Whether the page of each of these images is the same, where no stored record writes it.
fn has_same_images(
    one: &Segment,
    point: u64,
    other: &Segment,
    other_point: u64,
    images: &[BaseImage],
) -> Result<bool, AllocError>
    ensures { IfOk result (ReportsPages one.now point other.now other_point (λ P. All (λ i. IsUnwritten one.now other.now i.page → P i.page) images.now)) }
{
    for image in images {
        if !has_same_unwritten(one, point, other, other_point, image.page())? {
            return Ok(false);
        }
    }
    Ok(true)
}

/// Whether a page is the same, where no stored record writes it.
fn has_same_unwritten(
    one: &Segment,
    point: u64,
    other: &Segment,
    other_point: u64,
    page: u16,
) -> Result<bool, AllocError>
    ensures { IfOk result (ReportsPages one.now point other.now other_point (λ P. IsUnwritten one.now other.now page → P page)) }
{
    if is_written(one, other, page) {
        return Ok(true);
    }
    has_same_page(one, point, other, other_point, page)
}

/// Whether each page that a stored record of either segment writes is the same.
fn has_same_written(
    one: &Segment,
    point: u64,
    other: &Segment,
    other_point: u64,
) -> Result<bool, AllocError>
    ensures { IfOk result (ReportsPages one.now point other.now other_point (λ P. (r : RecordData) → Contains (one.now.held ++ other.now.held) r → P r.page)) }
{
    let mut next = written_after(one, other, None);
    while let Some(page) = next {
        if !has_same_page(one, point, other, other_point, page)? {
            return Ok(false);
        }
        next = written_after(one, other, Some(page));
    }
    Ok(true)
}

/// The least page above the one given that a stored record of either segment writes; the least of all for None.
fn written_after(one: &Segment, other: &Segment, after: Option<u16>) -> Option<u16>
    ensures { IsPageAfter (one.now.held ++ other.now.held) after result }
{
    match (one.page_after(after), other.page_after(after)) {
        (Some(own), Some(others)) => Some(own.min(others)),
        (Some(own), None) => Some(own),
        (None, others) => others,
    }
}

/// Whether a stored record of either segment writes a page.
fn is_written(one: &Segment, other: &Segment, page: u16) -> bool
    ensures written { IsTrue result → IsUnwritten one.now other.now page → ⊥ }
    ensures unwritten { result ≡ false → IsUnwritten one.now other.now page }
{
    match written_after(one, other, page.checked_sub(1)) {
        Some(next) => next == page,
        None => false,
    }
}

/// Whether a page is the same, each segment at its point.
fn has_same_page(
    one: &Segment,
    point: u64,
    other: &Segment,
    other_point: u64,
    page: u16,
) -> Result<bool, AllocError>
    ensures { IfOk result (ReportsPages one.now point other.now other_point (λ P. P page)) }
{
    one.opens_form();
    other.opens_form();
    one.is_same_page(page, point, other, other_point)
}
