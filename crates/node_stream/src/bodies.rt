//! The body of a reply, and its two renderings: in a line and in a frame.

ghost use Rattle.std.specs.Prelude.{◌≡◌, ◌++◌, ◌+◌, ◌≤◌, ◌<◌, [], IfOk, OnErr, codes, length, drop};
ghost use Rattle.hex.specs.Hex.{encode_lower};
ghost use Rattle.framing.specs.AnswerText.{text_of};
ghost use Rattle.framing.specs.Frames.{IsShort};
ghost use Rattle.node_stream.specs.Telling.{rendered};
ghost use Rattle.node_stream.specs.Telling.BodyData.{Text};
ghost use Rattle.node_stream.specs.Bodies.{body_data, IsBody, IsLong};
ghost use Rattle.node_stream.specs.declared.job.Form.TheVariants as stream;

use crate::job::Form;
use crate::short::put;
use framing::Short;
use framing::lines::Answer;
use std::alloc::{AllocError, Global};

/// The most bytes of a frame.
const LONGEST: usize = 4294967295;

/// What a reply says: a text without an LF, or a word, a space and bytes.
#[derive(Drop)]
pub enum ReplyBody {
    Fixed(&'static str),
    Short(Short),
    Made(Vec<u8>),
    Bytes(&'static str, Vec<u8>),
}

/// The text in place of bytes that are too many, or that have no encoding.
pub fn too_long(word: &str) -> Short
    requires { length word.now ≤ 100 }
    ensures text { result.items ≡ word.now ++ codes " too long" }
    ensures few { length result.items ≤ 109 }
{
    let mut text = Short::new();
    put(&mut text, word.as_bytes());
    put(&mut text, " too long".as_bytes());
    text
}

/// A text as it ends in its form: a line has its LF.
pub fn ended(form: Form, mut text: Short) -> Answer
    requires { length text.items < 256 }
    ensures text { text_of result ≡ rendered form [] (Text text.items) }
    ensures few { length (text_of result) ≤ length text.items + 1 }
    ensures frame { form ≡ stream.Frames → length (text_of result) ≡ length text.items }
{
    match form {
        Form::Lines => {
            put(&mut text, "\n".as_bytes());
            Answer::Short(text)
        }
        Form::Frames => Answer::Short(text),
    }
}

/// A text behind a head that has room for it.
#[tactic(auto, using(crate::proofs::Rendered::short_behind))]
fn joined(form: Form, head: &[u8], text: &[u8]) -> Answer
    requires { length head.now + length text.now < 256 }
    ensures text { text_of result ≡ rendered form head.now (Text text.now) }
    ensures few { length (text_of result) ≤ 256 }
    ensures frame { form ≡ stream.Frames → length (text_of result) ≡ length head.now + length text.now }
{
    let mut all = Short::new();
    put(&mut all, head);
    put(&mut all, text);
    ended(form, all)
}

/// The same, of a fixed text: a frame without a head is the text itself.
fn fixed(form: Form, head: &[u8], text: &'static str) -> Answer
    requires { length head.now + length text.now < 256 }
    ensures text { text_of result ≡ rendered form head.now (Text text.now) }
    ensures few { length (text_of result) ≤ 256 }
    ensures frame { form ≡ stream.Frames → length (text_of result) ≡ length head.now + length text.now }
{
    match form {
        Form::Frames if head.is_empty() => Answer::Fixed(text),
        _ => joined(form, head, text.as_bytes()),
    }
}

/// The same, of a short text.
fn short(form: Form, head: &[u8], text: Short) -> Answer
    requires { length head.now + length text.items < 256 }
    ensures text { text_of result ≡ rendered form head.now (Text text.items) }
    ensures few { length (text_of result) ≤ 256 }
    ensures frame { form ≡ stream.Frames → length (text_of result) ≡ length head.now + length text.items }
{
    if head.is_empty() {
        return ended(form, text);
    }
    joined(form, head, text.as_slice())
}

/// A text that was made, behind a head.
fn glued(alloc: Global, head: &[u8], text: Vec<u8>) -> Result<Vec<u8>, AllocError>
    ensures { IfOk result (λ v. v.items ≡ head.now ++ text.items) }
{
    if head.is_empty() {
        return Ok(text);
    }
    let mut both = Vec::new(alloc);
    both.extend_from_slice(head)?;
    both.extend_from_slice(&text)?;
    Ok(both)
}

/// The answer of a text that was made, behind a head. Its only errors are lack of memory, and that it has no room in a frame.
#[tactic(auto, using(crate::proofs::Rendered::frames))]
fn made(alloc: Global, form: Form, head: &[u8], text: Vec<u8>) -> Result<Answer, AllocError>
    ensures text { IfOk result (λ a. text_of a ≡ rendered form head.now (Text text.items)) }
    ensures short { form ≡ stream.Frames → IfOk result (λ a. IsShort (text_of a)) }
{
    let is_headed = !head.is_empty();
    let mut all = glued(alloc, head, text)?;
    match form {
        Form::Lines => {
            all.push(b'\n')?;
            Ok(Answer::Made(all))
        }
        Form::Frames if all.len() <= LONGEST => Ok(Answer::Made(all)),
        Form::Frames if is_headed => Ok(Answer::Fixed("too long")),
        Form::Frames => Err(AllocError),
    }
}

/// A word, and the digits of the bytes after it.
fn digits(alloc: Global, word: &str, bytes: &[u8]) -> Result<Vec<u8>, AllocError>
    ensures { IfOk result (λ v. v.items ≡ word.now ++ (codes " " ++ encode_lower bytes.now)) }
{
    let digits = hex::encode(alloc, bytes)?;
    let text = format!(in alloc; "{word} {digits}")?;
    Ok(text.into_bytes())
}

/// The answer of bytes behind their word: their digits in a line; in a frame as they are, unless they are too many.
#[tactic(auto, using(crate::proofs::Rendered::values))]
fn valued(
    alloc: Global,
    form: Form,
    head: &[u8],
    word: &'static str,
    bytes: Vec<u8>,
) -> Result<Answer, AllocError>
    requires head { length head.now ≤ 45 }
    requires body { IsBody (ReplyBody.Bytes word bytes) }
    ensures text { IfOk result (λ a. text_of a ≡ rendered form head.now (body_data (ReplyBody.Bytes word.entry bytes))) }
    ensures short { form ≡ stream.Frames → IfOk result (λ a. IsShort (text_of a)) }
{
    match form {
        Form::Lines => {
            let text = digits(alloc, word, &bytes[word.len() + 1..])?;
            made(alloc, form, head, text)
        }
        Form::Frames if bytes.len() > LONGEST => Ok(short(form, head, too_long(word))),
        Form::Frames => made(alloc, form, head, bytes),
    }
}

/// The line or the frame of a body, behind a head. It fails where memory runs out, or a text that was made is
/// longer than a frame may be; never for a body of at most 17 bytes that is fixed or short.
pub fn render(alloc: Global, form: Form, head: &[u8], body: ReplyBody) -> Result<Answer, AllocError>
    requires head { length head.now ≤ 45 }
    requires body { IsBody body }
    ensures text { IfOk result (λ a. text_of a ≡ rendered form head.now (body_data body)) }
    ensures short { form ≡ stream.Frames → IfOk result (λ a. IsShort (text_of a)) }
    ensures long { form ≡ stream.Frames → IfOk result (λ a. length head.now + 17 < length (text_of a) → IsLong body) }
    ensures memory { OnErr result (IsLong body) }
{
    match body {
        ReplyBody::Fixed(text) => Ok(fixed(form, head, text)),
        ReplyBody::Short(text) => Ok(short(form, head, text)),
        ReplyBody::Made(text) => made(alloc, form, head, text),
        ReplyBody::Bytes(word, bytes) => valued(alloc, form, head, word, bytes),
    }
}
