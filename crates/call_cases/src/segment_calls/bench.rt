use crate::answer::Answer;
use crate::keeping::{boxed, or_fault, renew};
use crate::segment_calls::{cache_calls, changes};
use case_io::Row;
use read_cache::CachedSegment;
use redo_core::{Fact, Roster};
use segment_core::Segment;
use std::alloc::{AllocError, Global};
use std::mem;

/// What the calls are made on. The segments are in boxes: made by value, each beside the `?` of the next, they take minutes to prove.
#[derive(Drop)]
pub struct Fixture {
    pub segment: Box<Segment>,
    /// The segment that is joined into `segment`, or compared with it.
    pub other: Box<Segment>,
    /// A copy of `segment` as it was.
    pub before: Box<Segment>,
    pub cached: Box<CachedSegment>,
    /// Page, version and byte of the images that `adopt` and `unite` are given.
    pub given: Vec<(u16, u64, u8)>,
    /// The facts that `roll_back` takes.
    pub noted: Vec<Fact>,
}

/// A copy of a segment with a cache of so many pages.
fn cached(copied: &Segment, pages: usize) -> Result<CachedSegment, AllocError> {
    or_fault(CachedSegment::new(copied.copy()?, pages))
}

/// New segments of the roster, and nothing noted.
pub fn new_bench(alloc: Global, roster: Roster) -> Result<Fixture, AllocError> {
    let segment = boxed(alloc, Segment::new(alloc, roster))?;
    let cached = boxed(alloc, cached(&segment, 0))?;
    Ok(Fixture {
        segment,
        other: boxed(alloc, Segment::new(alloc, roster))?,
        before: boxed(alloc, Segment::new(alloc, roster))?,
        cached,
        given: Vec::new(alloc),
        noted: Vec::new(alloc),
    })
}

fn begin_anew(bench: &mut Fixture, row: &Row) -> Result<Answer, AllocError> {
    let Ok(roster) = Roster::new(row.byte(0)) else {
        return Ok(Answer::Word("Unfit"));
    };
    bench.given.clear();
    bench.noted.clear();
    renew(&mut *bench.segment, Segment::new(row.alloc, roster))
}

/// Takes the segment out of its cache.
fn uncover(bench: &mut Fixture) -> Result<Answer, AllocError> {
    let emptied = cached(&bench.other, 0)?;
    let full = mem::replace(&mut *bench.cached, emptied);
    renew(&mut *bench.segment, Ok(full.into_segment()))
}

fn swap(bench: &mut Fixture) -> Answer {
    mem::swap(&mut bench.segment, &mut bench.other);
    Answer::Word("Done")
}

/// The answer of a call. The calls here change which segment is which.
pub fn answer(bench: &mut Fixture, row: &Row) -> Result<Answer, AllocError> {
    match row.name {
        "fresh" => begin_anew(bench, row),
        "swap" => Ok(swap(bench)),
        "copy" => renew(&mut *bench.other, bench.segment.copy()),
        "remember" => renew(&mut *bench.before, bench.segment.copy()),
        "cache" => {
            let pages = usize::from(row.byte(0));
            renew(&mut *bench.cached, cached(&bench.segment, pages))
        }
        "into_segment" => uncover(bench),
        "lent_discard" => Ok(cache_calls::discard_lent(&mut bench.cached)),
        "read_past" => cache_calls::read_past(&bench.cached, row),
        _ => match row.name.strip_prefix("cached_") {
            Some(name) => cache_calls::answer(&mut bench.cached, row, name),
            None => changes::answer(bench, row),
        },
    }
}
