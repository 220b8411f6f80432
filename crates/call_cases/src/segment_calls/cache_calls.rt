use crate::answer::Answer;
use crate::given::fact;
use crate::outcomes::{committed, discard, page, taken, tidied, unread};
use case_io::Row;
use read_cache::CachedSegment;
use std::alloc::AllocError;

fn fold(cached: &mut CachedSegment, row: &Row) -> Result<Answer, AllocError> {
    match cached.plan_fold(row.short(0)) {
        Ok(plan) => committed(row, cached.commit_fold(plan.fold())),
        Err(fault) => unread(row, fault),
    }
}

fn discard_behind(cached: &mut CachedSegment) -> Answer {
    cached.discard();
    Answer::Word("Done")
}

fn take(cached: &mut CachedSegment, row: &Row, name: &str) -> Result<Answer, AllocError> {
    match fact(row, name)? {
        Some(fact) => taken(row, cached.take(fact)),
        None => Ok(Answer::Unknown),
    }
}

/// Discards from the segment, borrowed from its cache.
pub fn discard_lent(cached: &mut CachedSegment) -> Answer {
    discard(cached.segment_mut())
}

/// Reads from the segment, past its cache.
pub fn read_past(cached: &CachedSegment, row: &Row) -> Result<Answer, AllocError> {
    page(row, cached.segment().read(row.short(0), row.number(1)))
}

/// The answer of a call of the segment with a cache, by its name after `cached_`.
pub fn answer(cached: &mut CachedSegment, row: &Row, name: &str) -> Result<Answer, AllocError> {
    match name {
        "read" => page(row, cached.read(row.short(0), row.number(1))),
        "fold" => fold(cached, row),
        "tidy" => tidied(row, cached.tidy()),
        "discard" => Ok(discard_behind(cached)),
        "kept" => Ok(Answer::Numbered("Count", cached.kept() as u64)),
        "base_point" => Ok(Answer::Number(cached.segment().base_point())),
        "version" => Ok(Answer::Number(cached.segment().version(row.short(0)))),
        _ => take(cached, row, name),
    }
}
