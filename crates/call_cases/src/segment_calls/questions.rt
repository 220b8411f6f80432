use crate::answer::Answer;
use crate::given::key;
use crate::outcomes::{numbers, page, unread};
use case_io::Row;
use redo_core::Key;
use segment_core::{Front, Segment};
use std::alloc::AllocError;

/// What a segment has: its front and base point, how many records it stores, the least key of a stored record, how many images it
/// stores, and the versions of the pages 7 and 8.
pub type ShownSegment = (Front, u64, usize, Option<Key>, usize, (u64, u64));

/// What the segment has.
pub fn show(segment: &Segment) -> Result<ShownSegment, AllocError> {
    let held = segment.stored()?.len();
    let (least, images) = (segment.key_after(None), segment.pages().len());
    let versions = (segment.version(7), segment.version(8));
    Ok((
        segment.front(),
        segment.base_point(),
        held,
        least,
        images,
        versions,
    ))
}

fn plan(segment: &Segment, row: &Row) -> Result<Answer, AllocError> {
    match segment.plan_fold(row.short(0)) {
        Ok(plan) => Ok(Answer::Number(plan.fold().version)),
        Err(fault) => unread(row, fault),
    }
}

fn backlink(segment: &Segment, row: &Row) -> Answer {
    match segment.get(key(row)) {
        Some(redo) => Answer::Found(Some(redo.block_back())),
        None => Answer::Found(None),
    }
}

fn told(segment: &Segment, row: &Row) -> Result<Answer, AllocError> {
    Answer::parts(row.alloc, "Shown", &show(segment)?)
}

/// The answer of a query of the segment.
pub fn answer(segment: &Segment, row: &Row) -> Result<Answer, AllocError> {
    match row.name {
        "read" => page(row, segment.read(row.short(0), row.number(1))),
        "plan" => plan(segment, row),
        "stored" => segment.stored().map(Answer::Keys),
        "kept_keys" => segment.kept_keys(row.number(0)).map(Answer::Keys),
        "records_of" => {
            let (page, from, to) = (row.short(0), row.number(1), row.number(2));
            numbers(row, segment.records_of(page, from, to))
        }
        _ => shown(segment, row),
    }
}

/// What the segment has, as a text, or a number of it.
fn shown(segment: &Segment, row: &Row) -> Result<Answer, AllocError> {
    match row.name {
        "front" => Answer::one(row.alloc, "Front", &segment.front()),
        "stands" => Answer::one(
            row.alloc,
            "Stands",
            &segment.stands(row.short(0), row.number(1)),
        ),
        "points" => Answer::one(row.alloc, "Numbers", &segment.points()),
        "cuts" => Answer::one(row.alloc, "Cuts", &segment.cuts()),
        "waits" => Answer::one(row.alloc, "Waits", &segment.waits()),
        "shown" => told(segment, row),
        _ => Ok(number(segment, row)),
    }
}

/// One number of the segment, or what is found by a key or a page.
fn number(segment: &Segment, row: &Row) -> Answer {
    match row.name {
        "base_point" => Answer::Number(segment.base_point()),
        "anchor" => Answer::Number(segment.anchor()),
        "floor" => Answer::Number(segment.floor()),
        "version" => Answer::Number(segment.version(row.short(0))),
        "holds_key" => Answer::Flag(segment.holds_key(key(row))),
        "get" => backlink(segment, row),
        "first_key" => Answer::Key(segment.key_after(None)),
        "key_after" => Answer::Key(segment.key_after(Some(key(row)))),
        "first_page" => Answer::Page(segment.page_after(None)),
        "page_after" => Answer::Page(segment.page_after(Some(row.short(0)))),
        _ => Answer::Unknown,
    }
}
