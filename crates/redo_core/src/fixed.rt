//! What the contracts determine, so that no other body meets them: a value by its parts, and a call by its one result.
//! Each function states a theorem and is called by nobody.

ghost use Rattle.std.specs.Prelude.{◌≡◌, ◌↔◌, IsTrue, IfOk, Ok};

use crate::advances::Advance;
use crate::cuts::Cut;
use crate::facts::Fact;
use crate::pages::{Page, apply};
use crate::patches::Patch;
use crate::read_points::ReadPoints;
use crate::records::Record;
use crate::rosters::Roster;
use crate::shapes::ShapeFault;
use crate::shared_page::SharedPage;
use crate::writes::Write;
use std::alloc::{AllocError, Global};

fn cut_is_its_parts(cut: &Cut) -> Result<Cut, ShapeFault>
    ensures { result ≡ Ok cut.now }
{
    Cut::new(cut.epoch(), cut.lo(), cut.hi())
}

fn advance_is_its_parts(advance: &Advance) -> Result<Advance, ShapeFault>
    ensures { result ≡ Ok advance.now }
{
    Advance::of_reader(advance.reader(), advance.epoch(), advance.point())
}

fn advance_names_reader_1(
    epoch: u16,
    point: u64,
) -> (Result<Advance, ShapeFault>, Result<Advance, ShapeFault>)
    ensures { result.0 ≡ result.1 }
{
    (
        Advance::new(epoch, point),
        Advance::of_reader(1, epoch, point),
    )
}

fn roster_is_its_readers(roster: Roster) -> Result<Roster, ShapeFault>
    ensures { result ≡ Ok roster }
{
    Roster::new(roster.readers())
}

fn write_is_its_parts(alloc: Global, w: &Write) -> Result<Write, AllocError>
    ensures { IfOk result (λ made. made ≡ w.now) }
{
    Ok(Write::new(w.offset(), w.bytes().to_vec(alloc)?))
}

fn page_is_its_bytes(alloc: Global, page: &Page) -> Result<Page, AllocError>
    ensures { IfOk result (λ made. made ≡ page.now) }
{
    Ok(Page::new(page.bytes().to_vec(alloc)?))
}

fn record_is_its_parts(one: &Record, other: &Record) -> bool
    ensures { IsTrue result ↔ (one.now ≡ other.now) }
{
    one.epoch() == other.epoch()
        && one.number() == other.number()
        && one.back() == other.back()
        && one.page() == other.page()
        && one.block_back() == other.block_back()
        && one.init() == other.init()
        && one.body().is_same(&other.body())
}

fn shape_has_one_fault(
    number: u64,
    back: u64,
    block_back: u64,
    writes: &[Write],
) -> (Option<ShapeFault>, Option<ShapeFault>)
    ensures { result.0 ≡ result.1 }
{
    (
        Record::shape_fault(number, back, block_back, writes),
        Record::shape_fault(number, back, block_back, writes),
    )
}

fn fact_is_its_copy(fact: &Fact) -> Result<bool, AllocError>
    ensures { IfOk result (λ same. IsTrue same) }
{
    Ok(fact.copy()?.is_same(fact))
}

fn patch_is_its_copy(patch: &Patch) -> Result<bool, AllocError>
    ensures { IfOk result (λ same. IsTrue same) }
{
    Ok(patch.copy()?.is_same(patch))
}

fn page_is_its_copy(page: &Page) -> Result<(Page, Page), AllocError>
    ensures { IfOk result (λ both. both.0 ≡ both.1) }
{
    Ok((page.copy()?, page.copy()?))
}

fn shared_page_is_its_page(alloc: Global, page: Page) -> Result<(SharedPage, Page), AllocError>
    ensures { IfOk result (λ both. both.0 ≡ both.1) }
{
    let shared = SharedPage::new(alloc, page)?;
    let copied = shared.share()?.page().copy()?;
    Ok((shared, copied))
}

fn zero_is_told_as_of_the_page(page: &SharedPage) -> bool
    ensures { IsTrue result }
{
    page.is_zero() == page.page().is_zero()
}

fn record_is_applied_one_way(redo: &Record, page: &Page) -> Result<(Page, Page), AllocError>
    ensures { IfOk result (λ both. both.0 ≡ both.1) }
{
    let mut one = page.copy()?;
    let mut other = page.copy()?;
    apply(redo, &mut one);
    apply(redo, &mut other);
    Ok((one, other))
}

fn points_begin_one_way(
    alloc: Global,
    roster: Roster,
) -> Result<(ReadPoints, ReadPoints), AllocError>
    ensures { IfOk result (λ both. both.0 ≡ both.1) }
{
    Ok((
        ReadPoints::new(alloc, roster)?,
        ReadPoints::new(alloc, roster)?,
    ))
}

fn points_are_read_one_way(points: &ReadPoints) -> ((u8, u64), (u8, u64))
    ensures { result.0 ≡ result.1 }
{
    (
        (points.readers(), points.least()),
        (points.readers(), points.least()),
    )
}
