use crate::joining::Joined;
use crate::rounds::PAGES;
use named_log::LogName;
use redo_core::Page;
use segment_core::{ReadFault, Segment};
use segment_join::same;
use std::alloc::{AllocError, Global};
use std::fmt::Write;

/// How many bytes of a page are shown.
const SHOWN: usize = 8;

/// The report of a drill: the number of facts, the front of each segment, the beginning of each page at the complete point of the
/// first, and whether all mean the same. Where that point is below the first one's minimum read point, its page lines say so.
/// The only error is lack of memory.
pub fn tell<L: LogName>(
    alloc: Global,
    facts: usize,
    joined: &[Joined<L>],
) -> Result<String, AllocError> {
    let mut text = String::new(alloc);
    put_all(alloc, &mut text, facts, joined)?;
    Ok(text)
}

// Appends the whole report: no error path has a text to drop.
fn put_all<L: LogName>(
    alloc: Global,
    text: &mut String,
    facts: usize,
    joined: &[Joined<L>],
) -> Result<(), AllocError> {
    writeln!(text, "facts {facts}")?;
    for (before, one) in joined.iter().enumerate() {
        put_front(text, before, one.segment())?;
    }
    let Some((first, others)) = joined.split_first() else {
        return Ok(());
    };
    for page in 0..PAGES {
        put_page(alloc, text, page, first)?;
    }
    let answer = if are_same(first, others)? {
        "same yes\n"
    } else {
        "same no\n"
    };
    text.push_str(answer)
}

fn put_front(text: &mut String, before: usize, segment: &Segment) -> Result<(), AllocError> {
    let node = before.saturating_add(1);
    let front = segment.front();
    let epoch = front.epoch;
    let complete = front.complete;
    let min = front.min;
    writeln!(text, "node {node} front {epoch} {complete} {min}")
}

fn put_image(alloc: Global, text: &mut String, page: u16, image: &Page) -> Result<(), AllocError> {
    let bytes = image.bytes();
    let digits = hex::encode(alloc, &bytes[..SHOWN])?;
    writeln!(text, "page {page} {digits}")
}

// A segment that means a part of a log answers a read of its complete point, but for lack of memory, or says that it is too low.
fn put_page<L: LogName>(
    alloc: Global,
    text: &mut String,
    page: u16,
    joined: &Joined<L>,
) -> Result<(), AllocError> {
    let segment = joined.segment();
    match segment.read(page, segment.front().complete) {
        Ok(image) => put_image(alloc, text, page, &image),
        Err(fault) => match fault {
            ReadFault::Below { min } => writeln!(text, "page {page} below {min}"),
            ReadFault::Memory => Err(AllocError),
            ReadFault::Above { .. } => unreachable!(),
            ReadFault::BrokenBlockChain { .. } => unreachable!(),
        },
    }
}

fn are_same<L: LogName>(first: &Joined<L>, others: &[Joined<L>]) -> Result<bool, AllocError> {
    for other in others {
        match same(first.segment(), other.segment()) {
            Ok(true) => {}
            Ok(false) => return Ok(false),
            Err(_) => return Err(AllocError),
        }
    }
    Ok(true)
}
