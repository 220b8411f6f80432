//! Words and numbers, as the texts have them.

ghost use Rattle.std.specs.Prelude.{◌≡◌, IfOk, string_bytes};
ghost use Rattle.text.specs.Wording.{worded, worded_line, labelled};

use std::alloc::{AllocError, Global};
use std::fmt::Write;

/// The word, then the numbers in decimal, between single spaces. Fails only if memory runs out.
pub fn worded(alloc: Global, word: &str, numbers: &[u64]) -> Result<String, AllocError>
    ensures { IfOk result (λ s. string_bytes s ≡ worded word.now numbers.now) }
{
    let mut text = String::from_str(alloc, word)?;
    for number in numbers {
        write!(text, " {number}")?;
    }
    Ok(text)
}

/// The same as a line, with its LF. Fails only if memory runs out.
pub fn worded_line(alloc: Global, word: &str, numbers: &[u64]) -> Result<String, AllocError>
    ensures { IfOk result (λ s. string_bytes s ≡ worded_line word.now numbers.now) }
{
    let mut text = worded(alloc, word, numbers)?;
    text.push_str("\n")?;
    Ok(text)
}

/// Each label, followed by its number in decimal. Fails only if memory runs out.
pub fn labelled(alloc: Global, numbers: &[(&str, u64)]) -> Result<String, AllocError>
    ensures { IfOk result (λ s. string_bytes s ≡ labelled numbers.now) }
{
    let mut text = String::new(alloc);
    for (label, number) in numbers {
        write!(text, "{label}{number}")?;
    }
    Ok(text)
}
