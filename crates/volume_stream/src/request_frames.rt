//! From a request of an engine to the bytes of its frame.

ghost use Rattle.std.specs.Prelude.{◌≡◌, ◌++◌, IfOk, OnOk, option_map};
ghost use Rattle.volume_stream.specs.RequestFrames.{request_frame, admission_frame, segment_frame, answer_frame, absorb_frame, absorb_bytes};
ghost use Rattle.volume_stream.specs.RequestFrames.{summary_in_bytes, delta_in_bytes};

use crate::words::{numbered, put_numbered};
use bytes::BytesMut;
use guard::{Admission, Request};
use messages::{Delta, Summary};
use redo_wire::{WireError, encode_delta, encode_fact, encode_summary};
use replica::Request as SegmentRequest;
use std::alloc::{AllocError, Global};

/// What a node answers `bad request`. It is sent in place of a request that no engine makes, and of a value that has no bytes.
const NO_REQUEST: &[u8] = b"no request";

/// The bytes of a request's frame. It fails only if memory runs out.
pub fn request_frame(alloc: Global, request: &Request) -> Result<BytesMut, AllocError>
    ensures { IfOk result (λ b. b.items ≡ request_frame request.now) }
{
    match request {
        Request::Status => numbered(alloc, "status", &[]),
        Request::Fence { generation } => numbered(alloc, "fence", &[*generation]),
        Request::Propose {
            generation,
            birth,
            cut,
        } => {
            let numbers = [
                *generation,
                *birth,
                u64::from(cut.epoch()),
                cut.lo(),
                cut.hi(),
            ];
            numbered(alloc, "propose", &numbers)
        }
        Request::Admit(admission) => admission_frame(alloc, admission),
        Request::As {
            generation,
            birth,
            request,
        } => {
            let mut out = numbered(alloc, "as", &[*generation, *birth])?;
            out.extend_from_slice(b" ".as_slice())?;
            put_segment_request(&mut out, request)?;
            Ok(out)
        }
        Request::Plain(request) => {
            let mut out = BytesMut::new(alloc);
            put_segment_request(&mut out, request)?;
            Ok(out)
        }
    }
}

fn admission_frame(alloc: Global, admission: &Admission) -> Result<BytesMut, AllocError>
    ensures { IfOk result (λ b. b.items ≡ admission_frame admission.now) }
{
    let numbers = [
        admission.generation,
        admission.birth,
        u64::from(admission.epoch),
        admission.complete,
    ];
    let mut out = numbered(alloc, "admit", &numbers)?;
    if let Some(pair) = admission.accepted {
        let cut = pair.cut;
        let numbers = [pair.generation, u64::from(cut.epoch()), cut.lo(), cut.hi()];
        put_numbered(&mut out, &numbers)?;
    }
    Ok(out)
}

/// Appends the frame of a request of a segment; of one that no engine makes, `no request`. It fails only if memory runs out.
fn put_segment_request(out: &mut BytesMut, request: &SegmentRequest) -> Result<(), AllocError>
    ensures { OnOk result (out.new.items ≡ out.old.items ++ segment_frame request.now) }
{
    match request {
        SegmentRequest::Take { fact } => {
            out.extend_from_slice(b"take ".as_slice())?;
            encode_fact(out, fact)
        }
        SegmentRequest::Front => out.extend_from_slice(b"front".as_slice()),
        SegmentRequest::Ask => out.extend_from_slice(b"ask".as_slice()),
        SegmentRequest::Answer { summary } => put_answer(out, summary.value()),
        SegmentRequest::Absorb { summary, delta } => {
            put_absorb(out, summary.value(), delta.value())
        }
        _ => out.extend_from_slice(NO_REQUEST),
    }
}

/// The bytes of a summary; None where a list is longer than its count field holds.
fn summary_bytes(alloc: Global, summary: &Summary) -> Result<Option<BytesMut>, AllocError>
    ensures { IfOk result (λ o. option_map (λ b. b.items) o ≡ summary_in_bytes summary.now) }
{
    let mut bytes = BytesMut::new(alloc);
    match encode_summary(&mut bytes, summary) {
        Ok(()) => Ok(Some(bytes)),
        Err(WireError::Memory) => Err(AllocError),
        Err(WireError::Fault(_)) => Ok(None),
    }
}

/// The bytes of a delta; None where a list is longer than its count field holds.
fn delta_bytes(alloc: Global, delta: &Delta) -> Result<Option<BytesMut>, AllocError>
    ensures { IfOk result (λ o. option_map (λ b. b.items) o ≡ delta_in_bytes delta.now) }
{
    let mut bytes = BytesMut::new(alloc);
    match encode_delta(&mut bytes, delta) {
        Ok(()) => Ok(Some(bytes)),
        Err(WireError::Memory) => Err(AllocError),
        Err(WireError::Fault(_)) => Ok(None),
    }
}

fn put_answer(out: &mut BytesMut, summary: &Summary) -> Result<(), AllocError>
    ensures { OnOk result (out.new.items ≡ out.old.items ++ answer_frame (summary_in_bytes summary.now)) }
{
    let Some(bytes) = summary_bytes(*out.allocator(), summary)? else {
        return out.extend_from_slice(NO_REQUEST);
    };
    out.extend_from_slice(b"answer ".as_slice())?;
    out.extend_from_slice(bytes.as_slice())
}

fn put_absorb(out: &mut BytesMut, summary: &Summary, delta: &Delta) -> Result<(), AllocError>
    ensures { OnOk result (out.new.items ≡ out.old.items ++ absorb_frame (summary_in_bytes summary.now) (delta_in_bytes delta.now)) }
{
    let alloc = *out.allocator();
    let Some(shown) = summary_bytes(alloc, summary)? else {
        return out.extend_from_slice(NO_REQUEST);
    };
    let Some(answered) = delta_bytes(alloc, delta)? else {
        return out.extend_from_slice(NO_REQUEST);
    };
    put_both(out, shown.as_slice(), answered.as_slice())
}

/// Appends a request to absorb, of the bytes of the summary and the delta.
fn put_both(out: &mut BytesMut, shown: &[u8], answered: &[u8]) -> Result<(), AllocError>
    ensures { OnOk result (out.new.items ≡ out.old.items ++ absorb_bytes shown.now answered.now) }
{
    out.extend_from_slice(b"absorb".as_slice())?;
    put_numbered(out, &[shown.len() as u64])?;
    out.extend_from_slice(b" ".as_slice())?;
    out.extend_from_slice(shown)?;
    out.extend_from_slice(answered)
}
