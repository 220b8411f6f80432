//! A guarded replica that answers the frames that one frame holds.

ghost use Rattle.std.specs.Prelude.{◌≡◌, ◌++◌, ◌+◌, ◌*◌, ◌≤◌, ◌^◌, ℕ, List, [], Ok, length, option_map};
ghost use Rattle.framing.specs.AnswerBytes.{bytes_of};
ghost use Rattle.framing.specs.AnswerText.{text_of};
ghost use Rattle.framing.specs.Frames.{IsShort, framed};
ghost use Rattle.framing.specs.Inside.{AreInside};
ghost use Rattle.node_stream.specs.Answering.{AnswersAll, AnswersMany, AnswersOneOf, IsFrameAnswer, by_frames};
ghost use Rattle.node_stream.specs.Asking.{IsInside};
ghost use Rattle.node_stream.specs.FrameReading.{many_in};
ghost use Rattle.node_stream.specs.Gathering.{HasPlaceFor, gathered_bytes};
ghost use Rattle.node_stream.specs.GuardReading.{guard_request};
ghost use Rattle.node_stream.specs.GuardTelling.{sure_for};
ghost use Rattle.node_stream.specs.declared.job.Form.TheVariants as stream;

use crate::answering::{answer_one, answer_request, memory, read_asked};
use crate::asked::GuardAsked;
use crate::frame_requests::halves;
use crate::gathered::Gathered;
use crate::job::Form;
use framing::frames::{FrameAnswer, count_frames, split_frame};
use framing::lines::Answer;
use guard::{Guard, Request};
use std::alloc::Global;
use text::is_word;

/// The most requests in a frame: so many answers of 17 bytes, with their lengths, are within 64 MiB.
const MOST: usize = 3_195_660;

/// The bytes of the frames that a frame has after the word `many`; None where it is of no such kind.
#[tactic(auto, unfolding(crate::specs::FrameReading::behind_many))]
fn frames_in(frame: &[u8]) -> Option<&[u8]>
    ensures { option_map (λ r. r.now) result ≡ many_in frame.now }
{
    let (word, rest) = halves(frame)?;
    if is_word(word, b"many".as_slice()) {
        Some(rest)
    } else {
        None
    }
}

/// The most bytes of the answer to a request that changes something.
fn sure_for(request: &Request) -> usize
    ensures { result ≡ sure_for request.now }
{
    match request {
        Request::Plain(_) => 17,
        _ => 220,
    }
}

/// Carries out a request, and appends the answer to the others. It is not carried out where the longest answer that reports a change
/// exceeds the limit, which is answered `long`, or lacks memory.
fn put_reply(
    alloc: Global,
    guard: &mut Guard,
    asked: GuardAsked,
    answers: &mut Gathered,
    others: usize,
)
    requires place { HasPlaceFor answers.old (others + 1) }
    requires inside { IsInside asked.window }
    ensures answers { (frame : List ℕ) → guard_request stream.Frames frame ≡ Ok asked → (told : List ℕ)
        × AnswersOneOf by_frames (length (gathered_bytes answers.old)) others guard.old frame told guard.new
        × (gathered_bytes answers.new ≡ gathered_bytes answers.old ++ framed told) × IsShort told }
    ensures room { HasPlaceFor answers.new others }
{
    let sure = sure_for(&asked.request);
    if !answers.fits(sure, others) {
        answers.put_short("long".as_bytes(), others);
    } else if !answers.make_room(sure, others) {
        answers.put_short("memory".as_bytes(), others);
    } else {
        let answer = answer_request(alloc, Form::Frames, guard, asked);
        answers.put(answer.as_bytes(), others);
    }
}

/// Answers the frame of one request, and appends the answer to the others; where it exceeds the limit, `long`.
fn put_answer(alloc: Global, guard: &mut Guard, frame: &[u8], answers: &mut Gathered, others: usize)
    requires { HasPlaceFor answers.old (others + 1) }
    ensures answers { (told : List ℕ) × AnswersOneOf by_frames (length (gathered_bytes answers.old)) others guard.old frame.now told guard.new
        × (gathered_bytes answers.new ≡ gathered_bytes answers.old ++ framed told) × IsShort told }
    ensures room { HasPlaceFor answers.new others }
{
    match read_asked(alloc, Form::Frames, frame) {
        Ok(asked) => put_reply(alloc, guard, asked, answers, others),
        Err(answer) => answers.put_short(answer.as_bytes(), others),
    }
}

/// Answers so many frames, one after another.
fn answer_each(
    alloc: Global,
    guard: &mut Guard,
    frames: &[u8],
    count: usize,
    mut answers: Gathered,
) -> Gathered
    requires frames { (inside : List (List ℕ)) × AreInside frames.now inside × (length inside ≡ count) }
    requires none { gathered_bytes answers ≡ [] }
    requires room { HasPlaceFor answers count }
    ensures answers { AnswersAll by_frames guard.old frames.now (gathered_bytes result) guard.new }
    ensures short { length (gathered_bytes result) ≤ 2 ^ 26 }
{
    let mut rest = frames;
    let mut left = count;
    while let Some((frame, behind)) = split_frame(rest) {
        left -= 1;
        put_answer(alloc, guard, frame, &mut answers, left);
        rest = behind;
    }
    answers
}

/// The bytes of an answer, as those of a frame.
fn frame_of(answer: Answer) -> FrameAnswer
    ensures { bytes_of result ≡ text_of answer }
{
    match answer {
        Answer::Fixed(text) => FrameAnswer::Fixed(text.as_bytes()),
        Answer::Short(text) => FrameAnswer::Short(text),
        Answer::Made(text) => FrameAnswer::Made(text),
    }
}

/// Answers the frames in the bytes, by frames; where they are no frames or too many, or there is no room for as many short answers, by one
/// that says so, and then none is carried out.
fn answer_many(alloc: Global, guard: &mut Guard, bytes: &[u8]) -> FrameAnswer
    ensures answers { AnswersMany by_frames guard.old bytes.now (bytes_of result) guard.new }
    ensures short { length (bytes_of result) ≤ 2 ^ 26 }
{
    let Some(count) = count_frames(bytes) else {
        return FrameAnswer::Fixed("bad request".as_bytes());
    };
    if count > MOST {
        return FrameAnswer::Fixed("long".as_bytes());
    }
    match Gathered::new(alloc, count) {
        Ok(answers) => {
            let answers = answer_each(alloc, guard, bytes, count, answers);
            FrameAnswer::Made(answers.into_bytes())
        }
        Err(_) => frame_of(memory(Form::Frames)),
    }
}

/// Answers the bytes of a request frame by those of a frame: with the reply where they encode a request, else with why they encode none, and
/// then nothing has changed. After the word `many` follow whole frames of requests, and the answer is the frames of their answers, of up to
/// 64 MiB together.
///
/// The bytes `memory` say that memory ran out, and `long` that an answer would exceed the limit of that to many. Then, and where the reply
/// is a refusal, a read may have changed which images the cache keeps, and any other request has changed nothing.
pub fn answer_frame(alloc: Global, guard: &mut Guard, frame: &[u8]) -> FrameAnswer
    ensures answers { IsFrameAnswer guard.old frame.now (bytes_of result) guard.new }
    ensures short { IsShort (bytes_of result) }
{
    match frames_in(frame) {
        Some(frames) => answer_many(alloc, guard, frames),
        None => frame_of(answer_one(alloc, Form::Frames, guard, frame)),
    }
}
