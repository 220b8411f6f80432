//! Replies of a guard that are a word and numbers.

ghost use Rattle.std.specs.Prelude.{◌≡◌, ◌==◌, ◌≤◌, IfOk};
ghost use Rattle.redo_core.specs.Data.{cut_of};
ghost use Rattle.redo_core.specs.Shape.{cut_fault};
ghost use Rattle.node_stream.specs.GuardReading.{faultless};
ghost use Rattle.volume_stream.specs.Words.{made_of};
ghost use Rattle.volume_stream.specs.ReplyFrames.{pair_of, front_of, status_form, status_with_form, fenced_form, fenced_with_form};
ghost use Rattle.volume_stream.specs.ReplyFrames.{stale_form, fresh_form, stranger_form, admitted_form, behind_form, accepted_form};
ghost use Rattle.volume_stream.specs.ReplyFrames.{status_reply, fenced_reply, short_reply, numbered_reply};

use crate::words::read_numbers;
use guard::{AcceptedCut, Reply};
use node_stream::WIDE;
use redo_core::{Cut, MAX_NUMBER};
use segment_core::Front;
use std::alloc::{AllocError, Global};
use text::is_word;
use text::limits::SHORT;

/// An accepted truncation by its numbers; None where its shape has a fault.
fn pair_of(generation: u64, epoch: u64, lo: u64, hi: u64) -> Option<AcceptedCut>
    requires { epoch ≤ 65535 }
    ensures { result ≡ pair_of generation epoch lo hi }
{
    match Cut::new(epoch as u16, lo, hi) {
        Ok(cut) => Some(AcceptedCut { generation, cut }),
        Err(_) => None,
    }
}

fn front_of(epoch: u64, complete: u64, min: u64) -> Front
    requires { epoch ≤ 65535 }
    ensures { result ≡ front_of epoch complete min }
{
    Front {
        epoch: epoch as u16,
        complete,
        min,
    }
}

fn status_alone(alloc: Global, rest: &[u8]) -> Result<Option<Reply>, AllocError>
    ensures { IfOk result (λ o. o ≡ made_of status_form rest.now) }
{
    let limits = [WIDE, WIDE, 1, SHORT, MAX_NUMBER, MAX_NUMBER];
    let Some(numbers) = read_numbers(alloc, limits, rest)? else {
        return Ok(None);
    };
    let [generation, birth, member, epoch, complete, min] = numbers;
    Ok(Some(Reply::Status {
        generation,
        birth,
        is_member: member == 1,
        front: front_of(epoch, complete, min),
        accepted: None,
    }))
}

fn status_with(alloc: Global, rest: &[u8]) -> Result<Option<Reply>, AllocError>
    ensures { IfOk result (λ o. o ≡ made_of status_with_form rest.now) }
{
    let limits = [
        WIDE, WIDE, 1, SHORT, MAX_NUMBER, MAX_NUMBER, WIDE, SHORT, MAX_NUMBER, MAX_NUMBER,
    ];
    let Some(numbers) = read_numbers(alloc, limits, rest)? else {
        return Ok(None);
    };
    let [
        generation,
        birth,
        member,
        epoch,
        complete,
        min,
        by,
        next,
        lo,
        hi,
    ] = numbers;
    let Some(pair) = pair_of(by, next, lo, hi) else {
        return Ok(None);
    };
    Ok(Some(Reply::Status {
        generation,
        birth,
        is_member: member == 1,
        front: front_of(epoch, complete, min),
        accepted: Some(pair),
    }))
}

/// The numbers after `status`: six, or ten.
#[tactic(auto, unfolding(crate::specs::ReplyFrames::status_reply))]
fn status(alloc: Global, rest: &[u8]) -> Result<Option<Reply>, AllocError>
    ensures { IfOk result (λ o. o ≡ status_reply rest.now) }
{
    match status_alone(alloc, rest)? {
        Some(reply) => Ok(Some(reply)),
        None => status_with(alloc, rest),
    }
}

fn fenced_alone(alloc: Global, rest: &[u8]) -> Result<Option<Reply>, AllocError>
    ensures { IfOk result (λ o. o ≡ made_of fenced_form rest.now) }
{
    let Some(numbers) = read_numbers(alloc, [WIDE, WIDE], rest)? else {
        return Ok(None);
    };
    let [generation, birth] = numbers;
    Ok(Some(Reply::Fenced {
        generation,
        birth,
        accepted: None,
    }))
}

fn fenced_with(alloc: Global, rest: &[u8]) -> Result<Option<Reply>, AllocError>
    ensures { IfOk result (λ o. o ≡ made_of fenced_with_form rest.now) }
{
    let limits = [WIDE, WIDE, WIDE, SHORT, MAX_NUMBER, MAX_NUMBER];
    let Some(numbers) = read_numbers(alloc, limits, rest)? else {
        return Ok(None);
    };
    let [generation, birth, by, epoch, lo, hi] = numbers;
    let Some(pair) = pair_of(by, epoch, lo, hi) else {
        return Ok(None);
    };
    Ok(Some(Reply::Fenced {
        generation,
        birth,
        accepted: Some(pair),
    }))
}

/// The numbers after `fenced`: two, or six.
#[tactic(auto, unfolding(crate::specs::ReplyFrames::fenced_reply))]
fn fenced(alloc: Global, rest: &[u8]) -> Result<Option<Reply>, AllocError>
    ensures { IfOk result (λ o. o ≡ fenced_reply rest.now) }
{
    match fenced_alone(alloc, rest)? {
        Some(reply) => Ok(Some(reply)),
        None => fenced_with(alloc, rest),
    }
}

fn stale(alloc: Global, rest: &[u8]) -> Result<Option<Reply>, AllocError>
    ensures { IfOk result (λ o. o ≡ made_of stale_form rest.now) }
{
    let Some(numbers) = read_numbers(alloc, [WIDE], rest)? else {
        return Ok(None);
    };
    let [generation] = numbers;
    Ok(Some(Reply::Stale(generation)))
}

fn fresh(alloc: Global, rest: &[u8]) -> Result<Option<Reply>, AllocError>
    ensures { IfOk result (λ o. o ≡ made_of fresh_form rest.now) }
{
    let Some(numbers) = read_numbers(alloc, [WIDE], rest)? else {
        return Ok(None);
    };
    let [birth] = numbers;
    Ok(Some(Reply::Fresh(birth)))
}

fn stranger(alloc: Global, rest: &[u8]) -> Result<Option<Reply>, AllocError>
    ensures { IfOk result (λ o. o ≡ made_of stranger_form rest.now) }
{
    let Some(numbers) = read_numbers(alloc, [WIDE], rest)? else {
        return Ok(None);
    };
    let [birth] = numbers;
    Ok(Some(Reply::Stranger(birth)))
}

fn admitted(alloc: Global, rest: &[u8]) -> Result<Option<Reply>, AllocError>
    ensures { IfOk result (λ o. o ≡ made_of admitted_form rest.now) }
{
    let Some(numbers) = read_numbers(alloc, [WIDE, WIDE], rest)? else {
        return Ok(None);
    };
    let [generation, birth] = numbers;
    Ok(Some(Reply::Admitted { generation, birth }))
}

fn behind(alloc: Global, rest: &[u8]) -> Result<Option<Reply>, AllocError>
    ensures { IfOk result (λ o. o ≡ made_of behind_form rest.now) }
{
    let Some(numbers) = read_numbers(alloc, [SHORT, MAX_NUMBER], rest)? else {
        return Ok(None);
    };
    let [epoch, complete] = numbers;
    let epoch = epoch as u16;
    Ok(Some(Reply::Behind { epoch, complete }))
}

fn accepted(alloc: Global, rest: &[u8]) -> Result<Option<Reply>, AllocError>
    ensures { IfOk result (λ o. o ≡ made_of accepted_form rest.now) }
{
    let Some(numbers) = read_numbers(alloc, [WIDE, WIDE, SHORT], rest)? else {
        return Ok(None);
    };
    let [generation, birth, epoch] = numbers;
    Ok(Some(Reply::Accepted {
        generation,
        birth,
        epoch: epoch as u16,
    }))
}

/// One to three numbers.
#[tactic(auto, unfolding(crate::specs::ReplyFrames::short_reply))]
fn short(alloc: Global, word: &[u8], rest: &[u8]) -> Result<Option<Reply>, AllocError>
    ensures { IfOk result (λ o. o ≡ short_reply word.now rest.now) }
{
    if is_word(word, b"stale".as_slice()) {
        stale(alloc, rest)
    } else if is_word(word, b"fresh".as_slice()) {
        fresh(alloc, rest)
    } else if is_word(word, b"stranger".as_slice()) {
        stranger(alloc, rest)
    } else if is_word(word, b"admitted".as_slice()) {
        admitted(alloc, rest)
    } else if is_word(word, b"behind".as_slice()) {
        behind(alloc, rest)
    } else if is_word(word, b"accepted".as_slice()) {
        accepted(alloc, rest)
    } else {
        Ok(None)
    }
}

/// The reply of a word and numbers. It fails only if memory runs out.
#[tactic(auto, unfolding(crate::specs::ReplyFrames::numbered_reply))]
pub(crate) fn numbered_reply(
    alloc: Global,
    word: &[u8],
    rest: &[u8],
) -> Result<Option<Reply>, AllocError>
    ensures { IfOk result (λ o. o ≡ numbered_reply word.now rest.now) }
{
    if is_word(word, b"status".as_slice()) {
        status(alloc, rest)
    } else if is_word(word, b"fenced".as_slice()) {
        fenced(alloc, rest)
    } else {
        short(alloc, word, rest)
    }
}
