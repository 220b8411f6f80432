//! The line or the frame that answers a guard's reply.

ghost use Rattle.std.specs.Prelude.{◌≡◌, ◌+◌, ◌*◌, ◌≤◌, ◌<◌, [], IfOk, OnErr, length};
ghost use Rattle.framing.specs.AnswerText.{text_of};
ghost use Rattle.framing.specs.Frames.{IsShort};
ghost use Rattle.node_stream.specs.Asking.{IsInside};
ghost use Rattle.node_stream.specs.GuardTelling.{guard_numbers, status_numbers, heading, guard_text, NeedsMemory, sure_of};
ghost use Rattle.node_stream.specs.Telling.{numbered, body_of, rendered, TakesMemory};
ghost use Rattle.node_stream.specs.Telling.BodyData.{Text};
ghost use Rattle.node_stream.specs.declared.job.Form.TheVariants as stream;

use crate::answers::body;
use crate::asked::Window;
use crate::bodies::{ended, render};
use crate::job::Form;
use crate::short::{put, put_numbers, worded};
use framing::Short;
use framing::lines::Answer;
use guard::{AcceptedCut, Reply};
use segment_core::Front;
use std::alloc::{AllocError, Global};

/// What precedes the reply of a replica that was asked under a generation.
fn head(generation: u64, birth: u64) -> Short
    ensures bytes { result.items ≡ heading generation birth }
    ensures few { length result.items ≤ 45 }
{
    let mut text = worded("as", &[generation, birth]);
    put(&mut text, " ".as_bytes());
    text
}

/// A word and numbers, with those of an accepted truncation.
fn paired(form: Form, word: &str, numbers: &[u64], pair: Option<AcceptedCut>) -> Answer
    requires { length word.now + 21 * length numbers.now ≤ 132 }
    ensures text { text_of result ≡ rendered form [] (guard_numbers word.now numbers.now pair) }
    ensures few { length (text_of result) ≤ 220 }
{
    let mut text = worded(word, numbers);
    if let Some(pair) = pair {
        let cut = pair.cut;
        put_numbers(
            &mut text,
            &[pair.generation, u64::from(cut.epoch()), cut.lo(), cut.hi()],
        );
    }
    ended(form, text)
}

/// A word and numbers.
fn numbered(form: Form, word: &str, numbers: &[u64]) -> Answer
    requires { length word.now + 21 * length numbers.now ≤ 132 }
    ensures text { text_of result ≡ rendered form [] (Text (numbered word.now numbers.now)) }
    ensures few { length (text_of result) ≤ 220 }
{
    ended(form, worded(word, numbers))
}

/// The reply of the replica, behind a head.
fn headed(
    alloc: Global,
    form: Form,
    window: Window,
    head: Short,
    reply: &replica::Reply,
) -> Result<Answer, AllocError>
    requires inside { IsInside window }
    requires few { length head.items ≤ 45 }
    ensures text { IfOk result (λ a. text_of a ≡ rendered form head.items (body_of window reply.now)) }
    ensures short { form ≡ stream.Frames → IfOk result (λ a. IsShort (text_of a)) }
    ensures long { form ≡ stream.Frames → IfOk result (λ a. length head.items + 17 < length (text_of a) → TakesMemory reply.now) }
    ensures memory { OnErr result (TakesMemory reply.now) }
{
    render(alloc, form, head.as_slice(), body(alloc, window, reply)?)
}

/// The numbers of a node's status; its membership is 1 for a member.
fn status_numbers(generation: u64, birth: u64, is_member: bool, front: Front) -> [u64; 6]
    ensures { result ≡ status_numbers generation birth is_member front }
{
    let member = if is_member { 1 } else { 0 };
    let epoch = u64::from(front.epoch);
    [generation, birth, member, epoch, front.complete, front.min]
}

/// The answer to a guard's reply. It fails only if memory runs out, and not for a reply to a request that has changed something.
pub fn answer(
    alloc: Global,
    form: Form,
    window: Window,
    reply: &Reply,
) -> Result<Answer, AllocError>
    requires { IsInside window }
    ensures text { IfOk result (λ a. text_of a ≡ guard_text form window reply.now) }
    ensures short { form ≡ stream.Frames → IfOk result (λ a. IsShort (text_of a)) }
    ensures long { form ≡ stream.Frames → IfOk result (λ a. sure_of reply.now < length (text_of a) → NeedsMemory reply.now) }
    ensures memory { OnErr result (NeedsMemory reply.now) }
{
    match reply {
        Reply::Status {
            generation,
            birth,
            is_member,
            front,
            accepted,
        } => {
            let numbers = status_numbers(*generation, *birth, *is_member, *front);
            Ok(paired(form, "status", &numbers, *accepted))
        }
        Reply::Fenced {
            generation,
            birth,
            accepted,
        } => Ok(paired(form, "fenced", &[*generation, *birth], *accepted)),
        Reply::Stale(generation) => Ok(numbered(form, "stale", &[*generation])),
        Reply::Fresh(birth) => Ok(numbered(form, "fresh", &[*birth])),
        Reply::Headed {
            generation,
            birth,
            reply: own,
        } => headed(alloc, form, window, head(*generation, *birth), own),
        Reply::Accepted {
            generation,
            birth,
            epoch,
        } => Ok(numbered(form, "accepted", &[*generation, *birth, u64::from(*epoch)])),
        Reply::Admitted { generation, birth } => {
            Ok(numbered(form, "admitted", &[*generation, *birth]))
        }
        Reply::Member => Ok(numbered(form, "member", &[])),
        Reply::Stranger(birth) => Ok(numbered(form, "stranger", &[*birth])),
        Reply::Behind { epoch, complete } => {
            Ok(numbered(form, "behind", &[u64::from(*epoch), *complete]))
        }
        Reply::Unguarded => Ok(numbered(form, "unguarded", &[])),
        Reply::Plain(own) => headed(alloc, form, window, Short::new(), own),
    }
}
