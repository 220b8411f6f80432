//! What the words of test cases encode: facts, bytes, and pages and images whose every byte is one.

use crate::answer::Answer;
use crate::keeping::add;
use bytes::BytesMut;
use case_io::Row;
use page_base::BaseImage;
use redo_core::{Advance, Cut, Fact, Key, Page, Patch, Record, RecordHead, SharedPage, Write};
use script_text::{FactError, read_fact};
use std::alloc::{AllocError, Global};

/// Stores the fact that a line encodes, and returns its number.
pub fn keep_fact(alloc: Global, facts: &mut Vec<Fact>, line: &str) -> Result<Answer, AllocError> {
    match read_fact(alloc, line.as_bytes()) {
        Ok(fact) => add("Fact", facts, fact),
        Err(FactError::Bad(_)) => Ok(Answer::Unknown),
        Err(FactError::Memory) => Err(AllocError),
    }
}

/// A patch that writes a byte `times` times, from an offset on.
pub fn patch(alloc: Global, offset: u16, byte: u8, times: u8) -> Result<Patch, AllocError> {
    let bytes = vec![in alloc; byte; usize::from(times)]?;
    Ok(Patch::Bytes(Write::new(offset, bytes)))
}

/// A record of one write: epoch, LSN, segment backlink, page, block backlink, offset, byte, and how many times the byte is written.
fn record(row: &Row, init: bool) -> Result<Option<Fact>, AllocError> {
    let patch = patch(row.alloc, row.short(5), row.byte(6), row.byte(7))?;
    let head = RecordHead {
        epoch: row.short(0),
        number: row.number(1),
        back: row.number(2),
        page: row.short(3),
        block_back: row.number(4),
    };
    let made = Record::with_one(row.alloc, head, init, patch)?;
    Ok(made.map(Fact::Record))
}

/// The key that the test case names first: epoch and LSN.
pub fn key(row: &Row) -> Key {
    Key {
        epoch: row.short(0),
        number: row.number(1),
    }
}

/// The truncation of the first three numbers: epoch, `lo` and `hi`. None where it is malformed.
pub fn cut(row: &Row) -> Option<Cut> {
    Cut::new(row.short(0), row.number(1), row.number(2)).ok()
}

/// The advance of the first three numbers: reader, epoch and point. None where it is malformed.
pub fn advance(row: &Row) -> Option<Advance> {
    Advance::of_reader(row.byte(0), row.short(1), row.number(2)).ok()
}

/// The fact that a name and the test case's numbers encode, or None where they encode none.
pub fn fact(row: &Row, name: &str) -> Result<Option<Fact>, AllocError> {
    match name {
        "record" => record(row, false),
        "record_init" => record(row, true),
        "cut" => Ok(cut(row).map(Fact::Cut)),
        "advance" => Ok(advance(row).map(Fact::Advance)),
        _ => Ok(None),
    }
}

/// A page whose every byte is `byte`.
pub fn page_of(alloc: Global, byte: u8) -> Result<Page, AllocError> {
    vec![in alloc; byte; 4096].map(Page::new)
}

fn shared_page_of(alloc: Global, byte: u8) -> Result<SharedPage, AllocError> {
    Ok(SharedPage::new(alloc, page_of(alloc, byte)?)?)
}

/// Notes an image of a test case: its page, its version and its byte.
pub fn give(given: &mut Vec<(u16, u64, u8)>, row: &Row) -> Result<Answer, AllocError> {
    given.push((row.short(0), row.number(1), row.byte(2)))?;
    Ok(Answer::Word("Done"))
}

/// The pages of the noted images, without their versions.
pub fn pages(
    alloc: Global,
    given: &[(u16, u64, u8)],
) -> Result<Vec<(u16, SharedPage)>, AllocError> {
    let mut pages = Vec::new(alloc);
    for image in given {
        pages.push((image.0, shared_page_of(alloc, image.2)?))?;
    }
    Ok(pages)
}

/// The noted images.
pub fn images(alloc: Global, given: &[(u16, u64, u8)]) -> Result<Vec<BaseImage>, AllocError> {
    let mut images = Vec::new(alloc);
    for image in given {
        images.push(BaseImage::new(image.0, image.1, shared_page_of(alloc, image.2)?))?;
    }
    Ok(images)
}

fn put_times(out: &mut BytesMut, bytes: &[u8], times: u16) -> Result<(), AllocError> {
    for _ in 0..times {
        out.extend_from_slice(bytes)?;
    }
    Ok(())
}

/// Appends what a word encodes: hexadecimal digits, as many times as the number after a star says. False where it encodes nothing.
fn put_word(alloc: Global, out: &mut BytesMut, word: &str) -> Result<bool, AllocError> {
    let (digits, times) = word.split_once('*').unwrap_or((word, "1"));
    match hex::decode(alloc, digits) {
        Ok(bytes) => {
            put_times(out, &bytes, times.parse::<u16>().unwrap_or(0))?;
            Ok(true)
        }
        Err(_) => Ok(false),
    }
}

/// The bytes that words encode, one after the other, or None where one encodes nothing.
pub fn bytes(alloc: Global, words: &str) -> Result<Option<BytesMut>, AllocError> {
    let mut bytes = BytesMut::new(alloc);
    for word in words.split(' ') {
        if !put_word(alloc, &mut bytes, word)? {
            return Ok(None);
        }
    }
    Ok(Some(bytes))
}
