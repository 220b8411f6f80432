//! Words and numbers in frames.

ghost use Rattle.std.specs.Prelude.{◌≡◌, ◌≤◌, ◌++◌, IfOk, IfSome, OnOk};
ghost use Rattle.std.specs.List.{AllZip};
ghost use Rattle.text.specs.Fields.{numbers_of};
ghost use Rattle.text.specs.Parts.{first_parts};
ghost use Rattle.node_stream.specs.Telling.{numbers_behind, numbered};

use bytes::BytesMut;
use itoa::Buffer;
use node_stream::wide_numbers;
use std::alloc::{AllocError, Global};
use text::first_parts;

/// A word and numbers, each after a space. It fails only if memory runs out.
pub(crate) fn numbered(alloc: Global, word: &str, numbers: &[u64]) -> Result<BytesMut, AllocError>
    ensures { IfOk result (λ b. b.items ≡ numbered word.now numbers.now) }
{
    let mut out = BytesMut::new(alloc);
    out.extend_from_slice(word.as_bytes())?;
    put_numbered(&mut out, numbers)?;
    Ok(out)
}

/// Appends numbers, each after a space. It fails only if memory runs out.
pub(crate) fn put_numbered(out: &mut BytesMut, numbers: &[u64]) -> Result<(), AllocError>
    ensures { OnOk result (out.new.items ≡ out.old.items ++ numbers_behind numbers.now) }
{
    for number in numbers {
        let mut buffer = Buffer::new();
        out.extend_from_slice(b" ".as_slice())?;
        out.extend_from_slice(buffer.format(*number).as_bytes())?;
    }
    Ok(())
}

/// The numbers between single spaces: as many as there are limits, each at most its limit. It fails only if memory runs out.
pub(crate) fn read_numbers<const N: usize>(
    alloc: Global,
    limits: [u64; N],
    text: &[u8],
) -> Result<Option<[u64; N]>, AllocError>
    ensures value { IfOk result (λ o. o ≡ numbers_of limits.entry (first_parts 32 text.now)) }
    ensures bound { IfOk result (λ o. IfSome o (λ ns. AllZip (λ n limit. n ≤ limit) ns limits.entry)) }
{
    let fields = first_parts(alloc, text, b' ')?;
    Ok(wide_numbers(limits, &fields))
}
