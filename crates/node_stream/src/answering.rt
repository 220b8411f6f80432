//! A guarded replica that answers one request, in a line or in a frame.

ghost use Rattle.std.specs.Prelude.{◌≡◌, ◌<◌, ◌≤◌, Ok, length, IfOk, IfErr};
ghost use Rattle.framing.specs.AnswerText.{text_of};
ghost use Rattle.framing.specs.Frames.{IsShort};
ghost use Rattle.node_stream.specs.Answering.{AnswersAsked, AnswersRequest, ReadsAsked, TellsFault, protocol};
ghost use Rattle.node_stream.specs.Asking.{IsInside};
ghost use Rattle.node_stream.specs.GuardReading.{guard_request};
ghost use Rattle.node_stream.specs.GuardTelling.{sure_for};
ghost use Rattle.node_stream.specs.declared.job.Form.TheVariants as stream;

use crate::asked::GuardAsked;
use crate::bodies::ended;
use crate::faults::{LineError, LineFault};
use crate::guard_answers::answer;
use crate::guard_requests::read_request;
use crate::job::Form;
use crate::short::{counted, worded};
use framing::lines::Answer;
use guard::Guard;
use std::alloc::Global;

/// The answer where memory ran out.
pub fn memory(form: Form) -> Answer
    ensures text { text_of result ≡ (protocol form).memory }
    ensures few { length (text_of result) ≤ 17 }
{
    ended(form, worded("memory", &[]))
}

/// Why a line or a frame encodes no request.
fn fault_answer(form: Form, fault: LineFault) -> Answer
    ensures text { text_of result ≡ (protocol form).fault fault }
    ensures few { length (text_of result) ≤ 17 }
{
    match (form, fault) {
        (_, LineFault::Wire(why)) => ended(form, counted("wire", u32::from(why.number()))),
        (Form::Lines, LineFault::Form) => Answer::Fixed("bad line\n"),
        (Form::Lines, LineFault::Hex) => Answer::Fixed("bad hex\n"),
        (Form::Frames, _) => Answer::Fixed("bad request"),
    }
}

/// Carries out a request, and answers with the reply, or where there is no memory for that, says so. A frame of more bytes than are sure to have room only reads.
pub fn answer_request(alloc: Global, form: Form, guard: &mut Guard, asked: GuardAsked) -> Answer
    requires { IsInside asked.window }
    ensures answers { AnswersAsked (protocol form) (Ok asked) guard.old (text_of result) guard.new }
    ensures long { form ≡ stream.Frames → sure_for asked.request < length (text_of result) → ReadsAsked (protocol form) (Ok asked) guard.old (text_of result) guard.new }
    ensures short { form ≡ stream.Frames → IsShort (text_of result) }
{
    let window = asked.window;
    let reply = guard.step(asked.request);
    match answer(alloc, form, window, &reply) {
        Ok(answer) => answer,
        Err(_) => memory(form),
    }
}

/// What a line or a frame asks; or the answer where it encodes no request, or where memory ran out.
pub fn read_asked(alloc: Global, form: Form, text: &[u8]) -> Result<GuardAsked, Answer>
    ensures asks { IfOk result (λ a. guard_request form text.now ≡ Ok a) }
    ensures inside { IfOk result (λ a. IsInside a.window) }
    ensures fault { IfErr result (λ a. TellsFault (protocol form) text.now (text_of a)) }
    ensures few { IfErr result (λ a. length (text_of a) ≤ 17) }
{
    match read_request(alloc, form, text) {
        Ok(asked) => Ok(asked),
        Err(LineError::Fault(fault)) => Err(fault_answer(form, fault)),
        Err(LineError::Memory) => Err(memory(form)),
    }
}

/// Answers the line or the frame of one request: with the reply where it encodes one, else with why it encodes none, and then nothing
/// has changed.
///
/// `memory` says that memory ran out. Then, and where the reply is a refusal, a read may have changed which images the cache keeps, and
/// any other request has changed nothing.
pub fn answer_one(alloc: Global, form: Form, guard: &mut Guard, text: &[u8]) -> Answer
    ensures answers { AnswersRequest (protocol form) guard.old text.now (text_of result) guard.new }
    ensures short { form ≡ stream.Frames → IsShort (text_of result) }
{
    match read_asked(alloc, form, text) {
        Ok(asked) => answer_request(alloc, form, guard, asked),
        Err(answer) => answer,
    }
}
