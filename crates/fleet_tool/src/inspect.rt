//! The description of a capture: one line for each line of hexadecimal digits.

ghost use Rattle.std.specs.Prelude.{◌≡◌, ◌++◌, IfOk, OnOk, codes, string_bytes};
ghost use Rattle.std.specs.Fmt.{decimal};
ghost use Rattle.std.specs.Thread.{IsSync};
ghost use Rattle.redo_wire.specs.Faults.{fault_number};
ghost use Rattle.redo_wire.specs.Values.{decoded_value};
ghost use Rattle.fleet_tool.specs.Inspect.{summary_text, delta_text, content_text, piece_text, told, value_text, line_text, inspected, texts_bytes};

use rayon::{current_num_threads, join};
use redo_wire::{
    Delta, Piece, PieceContent, Summary, WireError, WireFault, WireValue, decode_value,
};
use script_text::fact_text;
use std::alloc::{AllocError, Global};
use std::thread::Threads;
use text::{decoded, first_part, labelled, split_after, worded};

/// How many bytes of a capture are a thread's at least: fewer are described sooner than a thread is started.
const LEAST_BLOCK: usize = 65536;

/// How many blocks there are for each thread, so that one that has ended begins another.
const BLOCKS: usize = 2;

fn fault_text(alloc: Global, fault: WireFault) -> Result<String, AllocError>
    ensures { IfOk result (λ s. string_bytes s ≡ codes "wire " ++ decimal (fault_number fault)) }
{
    worded(alloc, "wire", &[u64::from(fault.number())])
}

fn summary_text(alloc: Global, summary: &Summary) -> Result<String, AllocError>
    ensures { IfOk result (λ s. string_bytes s ≡ summary_text summary.now) }
{
    let book = summary.book();
    let numbers = [
        ("summary cuts ", book.cuts().len() as u64),
        (" min ", book.min()),
        (" waits ", book.waits().len() as u64),
        (" anchor ", summary.anchor()),
        (" keys ", summary.keys().len() as u64),
    ];
    labelled(alloc, &numbers)
}

fn delta_text(alloc: Global, delta: &Delta) -> Result<String, AllocError>
    ensures { IfOk result (λ s. string_bytes s ≡ delta_text delta.now) }
{
    let book = delta.book();
    let numbers = [
        ("delta cuts ", book.cuts().len() as u64),
        (" min ", book.min()),
        (" waits ", book.waits().len() as u64),
        (" base ", delta.base()),
        (" pages ", delta.pages().len() as u64),
        (" records ", delta.records().len() as u64),
    ];
    labelled(alloc, &numbers)
}

fn content_text(alloc: Global, content: &PieceContent) -> Result<String, AllocError>
    ensures { IfOk result (λ s. string_bytes s ≡ content_text content.now) }
{
    match content {
        PieceContent::Head { book: _, anchor: _ } => String::from_str(alloc, "head"),
        PieceContent::Page(image) => worded(alloc, "page", &[u64::from(image.number())]),
        PieceContent::Records(batch) => {
            worded(alloc, "records", &[batch.records().len() as u64])
        }
    }
}

fn piece_text(alloc: Global, piece: &Piece) -> Result<String, AllocError>
    ensures { IfOk result (λ s. string_bytes s ≡ piece_text piece.now) }
{
    let index = piece.index();
    let total = piece.total();
    let content = content_text(alloc, piece.content())?;
    format!(in alloc; "piece {index} of {total} {content}")
}

/// The description of a value.
fn told(alloc: Global, value: &WireValue) -> Result<String, AllocError>
    ensures { IfOk result (λ s. string_bytes s ≡ told value.now) }
{
    match value {
        WireValue::Fact(fact) => fact_text(alloc, fact),
        WireValue::Summary(summary) => summary_text(alloc, summary),
        WireValue::Delta(delta) => delta_text(alloc, delta),
        WireValue::Piece(piece) => piece_text(alloc, piece),
    }
}

/// The description of the bytes of a line.
fn value_text(alloc: Global, bytes: &[u8]) -> Result<String, AllocError>
    ensures { IfOk result (λ s. string_bytes s ≡ value_text (decoded_value bytes.now)) }
{
    match decode_value(alloc, bytes) {
        Ok(value) => told(alloc, &value),
        Err(WireError::Memory) => Err(AllocError),
        Err(WireError::Fault(fault)) => fault_text(alloc, fault),
    }
}

/// Appends the description of a line of digits, and an LF.
fn put_line(alloc: Global, text: &mut String, digits: &[u8]) -> Result<(), AllocError>
    ensures { OnOk result (string_bytes text.new ≡ string_bytes text.old ++ line_text digits.now) }
{
    match decoded(alloc, digits)? {
        Some(bytes) => {
            let value = value_text(alloc, &bytes)?;
            text.push_str(&value)?;
        }
        None => text.push_str("bad hex")?,
    }
    text.push_str("\n")
}

// The description of lines, one after another.
fn lines_text(alloc: Global, input: &[u8]) -> Result<String, AllocError>
    ensures { IfOk result (λ s. string_bytes s ≡ inspected input.now) }
{
    let mut text = String::with_capacity(alloc, input.len() / 3)?;
    let mut rest = input;
    while let Some((line, after)) = first_part(rest, b'\n') {
        put_line(alloc, &mut text, line)?;
        rest = after;
    }
    if !rest.is_empty() {
        put_line(alloc, &mut text, rest)?;
    }
    Ok(text)
}

// The description of lines as the only text of a list.
fn one_text(alloc: Global, input: &[u8]) -> Result<Vec<String>, AllocError>
    ensures { IfOk result (λ v. texts_bytes v.items ≡ inspected input.now) }
{
    let text = lines_text(alloc, input)?;
    let mut texts = Vec::new(alloc);
    texts.push(text)?;
    Ok(texts)
}

// The descriptions of so many blocks of whole lines, in their order, which threads describe.
#[cycle(blocks)]
fn block_texts<R: Threads + Sync>(
    rt: &R,
    alloc: Global,
    input: &[u8],
    blocks: usize,
) -> Result<Vec<String>, AllocError>
    ensures { IfOk result (λ v. texts_bytes v.items ≡ inspected input.now) }
{
    if blocks < 2 {
        return one_text(alloc, input);
    }
    let others = blocks - 1;
    let Some((first, second)) = split_after(input, b'\n', input.len() / blocks * others) else {
        return one_text(alloc, input);
    };
    let front = || -> Result<Vec<String>, AllocError>
        requires { IsSync R.row }
        ensures { IfOk result (λ v. texts_bytes v.items ≡ inspected first.entry.now) }
    { block_texts(rt, alloc, first, others) };
    let back = || -> Result<String, AllocError>
        ensures { IfOk result (λ s. string_bytes s ≡ inspected second.entry.now) }
    { lines_text(alloc, second) };
    let (texts, last) = join(rt, front, back);
    let mut texts = texts?;
    texts.push(last?)?;
    Ok(texts)
}

/// The description of a capture in texts, a line for each of its lines, by as many threads as there are processors where it is long.
/// Fails only if memory runs out.
pub fn described<R: Threads + Sync>(
    rt: &R,
    alloc: Global,
    input: &[u8],
) -> Result<Vec<String>, AllocError>
    ensures { IfOk result (λ v. texts_bytes v.items ≡ inspected input.now) }
{
    let threads = current_num_threads(rt).min(input.len() / LEAST_BLOCK);
    if threads < 2 {
        return one_text(alloc, input);
    }
    block_texts(rt, alloc, input, BLOCKS * threads)
}

/// Texts one after another. Fails only if memory runs out.
#[tactic(auto, using(crate::proofs::Captures::one_more))]
pub fn joined(alloc: Global, texts: Vec<String>) -> Result<String, AllocError>
    ensures { IfOk result (λ s. string_bytes s ≡ texts_bytes texts.items) }
{
    let mut all = String::new(alloc);
    for text in texts {
        all.push_str(&text)?;
    }
    Ok(all)
}
