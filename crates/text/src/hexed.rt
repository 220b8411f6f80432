//! Hexadecimal digits of either case.

ghost use Rattle.std.specs.Prelude.{◌≡◌, ◌/◌, length, Some, None, if◌then◌else◌, IfOk, option_map};
ghost use Rattle.hex.specs.Hex.{decode_of};
ghost use Rattle.text.specs.HexDigits.{decoded};

use hex::FromHexError;
use std::alloc::{AllocError, Global};

/// Writes the bytes that the digits encode, and returns whether they encode any: they are even in number, and each is a digit.
pub fn put_bytes(digits: &[u8], out: &mut [u8]) -> bool
    requires { length digits.now / 2 ≡ length out.old }
    ensures { decoded (decode_of digits.now) ≡ (if result then Some out.new else None) }
{
    hex::decode_to_slice(digits, out).is_ok()
}

/// The bytes that the digits encode; None where they encode none. Fails only if memory runs out.
pub fn decoded(alloc: Global, digits: &[u8]) -> Result<Option<Vec<u8>>, AllocError>
    ensures { IfOk result (λ o. option_map (λ v. v.items) o ≡ decoded (decode_of digits.now)) }
{
    match hex::decode(alloc, digits) {
        Ok(bytes) => Ok(Some(bytes)),
        Err(FromHexError::OutOfMemory) => Err(AllocError),
        Err(_) => Ok(None),
    }
}
