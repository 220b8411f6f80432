//! Reading and writing fields: single bytes, runs of bytes, and numbers of 16, 32, 48 and 64 bits, most significant byte first.

ghost use Rattle.std.specs.Prelude.{◌≡◌, ◌<◌, ◌^◌, ◌++◌, length, IfOk, OnOk};
ghost use Rattle.redo_wire.specs.Fields.{byte_at, bytes_at, u16_at, u32_at, u48_at, u64_at, u16, u32, u48, u64};
ghost use Rattle.redo_wire.specs.Outcomes.{Gives};

use crate::faults::{WireError, WireFault};
use bytes::{BufMut, BytesMut};
use std::alloc::AllocError;

/// Reads one byte; returns it and the bytes after it. Error: `Short` where there is none.
pub(crate) fn read_byte(bytes: &[u8]) -> Result<(u8, &[u8]), WireError>
    ensures { Gives (λ x. (x.0, x.1.now)) result (byte_at bytes.now) }
{
    match bytes {
        [] => Err(WireError::Fault(WireFault::Short)),
        [b, rest @ ..] => Ok((*b, rest)),
    }
}

/// Reads `len` bytes; returns them and the bytes after them. Error: `Short` where there are fewer.
pub(crate) fn read_bytes(len: usize, bytes: &[u8]) -> Result<(&[u8], &[u8]), WireError>
    ensures value { Gives (λ x. (x.0.now, x.1.now)) result (bytes_at len bytes.now) }
    ensures len { IfOk result (λ x. length x.0.now ≡ len) }
{
    if bytes.len() < len {
        return Err(WireError::Fault(WireFault::Short));
    }
    Ok(bytes.split_at(len))
}

/// Reads a number of 16 bits; returns it and the bytes after it. Error: `Short` where there are fewer than 2 bytes.
#[tactic(auto, unfolding(crate::specs::Fields::number_at))]
pub(crate) fn read_u16(bytes: &[u8]) -> Result<(u16, &[u8]), WireError>
    ensures { Gives (λ x. (x.0, x.1.now)) result (u16_at bytes.now) }
{
    let (text, rest) = read_bytes(2, bytes)?;
    Ok((u16::from_be_bytes([text[0], text[1]]), rest))
}

/// Reads a number of 32 bits; returns it and the bytes after it. Error: `Short` where there are fewer than 4 bytes.
#[tactic(auto, unfolding(crate::specs::Fields::number_at))]
pub(crate) fn read_u32(bytes: &[u8]) -> Result<(u32, &[u8]), WireError>
    ensures { Gives (λ x. (x.0, x.1.now)) result (u32_at bytes.now) }
{
    let (text, rest) = read_bytes(4, bytes)?;
    Ok((
        u32::from_be_bytes([text[0], text[1], text[2], text[3]]),
        rest,
    ))
}

/// Reads a number of 64 bits; returns it and the bytes after it. Error: `Short` where there are fewer than 8 bytes.
#[tactic(auto, unfolding(crate::specs::Fields::number_at))]
pub(crate) fn read_u64(bytes: &[u8]) -> Result<(u64, &[u8]), WireError>
    ensures { Gives (λ x. (x.0, x.1.now)) result (u64_at bytes.now) }
{
    let (text, rest) = read_bytes(8, bytes)?;
    let number = u64::from_be_bytes([
        text[0], text[1], text[2], text[3], text[4], text[5], text[6], text[7],
    ]);
    Ok((number, rest))
}

/// Reads a number of 48 bits; returns it and the bytes after it. Error: `Short` where there are fewer than 6 bytes.
#[tactic(auto, unfolding(crate::specs::Fields::u48_at))]
pub(crate) fn read_u48(bytes: &[u8]) -> Result<(u64, &[u8]), WireError>
    ensures value { Gives (λ x. (x.0, x.1.now)) result (u48_at bytes.now) }
    ensures limit { IfOk result (λ x. x.0 < 2 ^ 48) }
{
    let (text, rest) = read_bytes(6, bytes)?;
    let number = u64::from_be_bytes([0, 0, text[0], text[1], text[2], text[3], text[4], text[5]]);
    Ok((number, rest))
}

/// Appends a number of 16 bits. It fails only if memory runs out.
#[tactic(auto, unfolding(crate::specs::Fields::number))]
pub(crate) fn put_u16(out: &mut BytesMut, n: u16) -> Result<(), AllocError>
    ensures { OnOk result (out.new.items ≡ out.old.items ++ u16 n) }
{
    out.put_u16(n)
}

/// Appends a number of 32 bits. It fails only if memory runs out.
#[tactic(auto, unfolding(crate::specs::Fields::number))]
pub(crate) fn put_u32(out: &mut BytesMut, n: u32) -> Result<(), AllocError>
    ensures { OnOk result (out.new.items ≡ out.old.items ++ u32 n) }
{
    out.put_u32(n)
}

/// Appends a number of 64 bits. It fails only if memory runs out.
#[tactic(auto, unfolding(crate::specs::Fields::number))]
pub(crate) fn put_u64(out: &mut BytesMut, n: u64) -> Result<(), AllocError>
    ensures { OnOk result (out.new.items ≡ out.old.items ++ u64 n) }
{
    out.put_u64(n)
}

/// Appends the low 48 bits of a number. It fails only if memory runs out.
#[tactic(auto, unfolding(crate::specs::Fields::u48))]
pub(crate) fn put_u48(out: &mut BytesMut, n: u64) -> Result<(), AllocError>
    ensures { OnOk result (out.new.items ≡ out.old.items ++ u48 n) }
{
    out.put_slice(&n.to_be_bytes()[2..])
}
