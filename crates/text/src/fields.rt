//! The parts of a text between separators: lines, fields, patches.

ghost use Rattle.std.specs.Prelude.{bytes_eq, ◌≡◌, ◌<◌, ◌≤◌, ◌==◌, [], ◌∷◌, IfOk, IfSome, IfNone, drop, length, map, position};
ghost use Rattle.text.specs.Parts.{parts_at, first_parts, IsCutBehind};

use memchr::memchr;
use std::alloc::{AllocError, Global};

/// How many parts of a text are looked at: more than any line has.
const MOST_PARTS: usize = 66;

/// The first parts of the text between separators: 66 of them, or all where there are fewer. Fails only if memory runs out.
pub fn first_parts(alloc: Global, text: &[u8], separator: u8) -> Result<Vec<&[u8]>, AllocError>
    ensures { IfOk result (λ v. map (λ x. x.now) v.items ≡ first_parts separator text.now) }
{
    let mut list = Vec::new(alloc);
    list.extend(text.split(|b| *b == separator).take(MOST_PARTS))?;
    Ok(list)
}

/// The place of the first separator.
fn first_at(text: &[u8], separator: u8) -> Option<usize>
    ensures { result ≡ position (λ b. b == separator) text.now }
{
    memchr(separator, text)
}

/// The part before the first separator, and the text after it; None if the text has no separator.
pub fn first_part(text: &[u8], separator: u8) -> Option<(&[u8], &[u8])>
    ensures some { IfSome result (λ p. parts_at separator text.now ≡ p.0.now ∷ parts_at separator p.1.now) }
    ensures shorter { IfSome result (λ p. length p.1.now < length text.now) }
    ensures none { IfNone result (parts_at separator text.now ≡ text.now ∷ []) }
{
    match first_at(text, separator) {
        None => None,
        Some(at) => {
            let (front, _) = text.split_at(at);
            let (_, behind) = text.split_at(at + 1);
            Some((front, behind))
        }
    }
}

/// The text up to the first separator after its first `from` bytes, with that separator, and the text after it; None if it has no
/// separator there.
pub fn split_after(text: &[u8], separator: u8, from: usize) -> Option<(&[u8], &[u8])>
    requires { from ≤ length text.now }
    ensures cut { IfSome result (λ p. IsCutBehind separator text.now p.0.now p.1.now) }
    ensures longer { IfSome result (λ p. from < length p.0.now) }
    ensures none { IfNone result (parts_at separator (drop from text.now) ≡ drop from text.now ∷ []) }
{
    let (_, rest) = text.split_at(from);
    match first_at(rest, separator) {
        None => None,
        Some(at) => Some(text.split_at(from + at + 1)),
    }
}

/// Whether the text is that word.
pub fn is_word(text: &[u8], word: &[u8]) -> bool
    ensures { result ≡ bytes_eq text.now word.now }
{
    text == word
}
