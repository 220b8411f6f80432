//! What a volume writes into pages besides its user: the number of the page's last record at the end of each page, and in page 0 the
//! engine's generation, its epoch and its header.
ghost use Rattle.std.specs.Prelude.{◌≡◌, ◌↔◌, ◌≤◌, ◌+◌, ◌∷◌, [], length, IsTrue, IfOk};
ghost use Rattle.std.specs.List.{AllByRecursion};
ghost use Rattle.redo_writer.specs.Layout.{number_of, number_patch, commit_patch};
ghost use Rattle.volume.specs.Layout.{IsUsers, IsHeaderOf};

use redo_core::{Page, Patch, Write};
use std::alloc::{AllocError, Global};

/// Where a page has the number of its last record, in 8 bytes, big-endian. The bytes below are its user's.
pub const NUMBER_OFFSET: u16 = 4088;

/// The most bytes of a header.
pub const MAX_HEADER: usize = 1024;

/// Where page 0 has the header. Below are the generation, in 8 bytes, the epoch, in 2, and the header's length, in 2, all big-endian.
const HEADER_OFFSET: usize = 12;

/// The number of the page's last record; 0 if it has none.
pub(crate) fn number_of(page: &Page) -> u64
    ensures { result ≡ number_of page.now }
{
    let bytes = page.bytes();
    u64::from_be_bytes([
        bytes[4088],
        bytes[4089],
        bytes[4090],
        bytes[4091],
        bytes[4092],
        bytes[4093],
        bytes[4094],
        bytes[4095],
    ])
}

/// The patch that puts a number at the end of its page. It fails only if memory runs out.
pub(crate) fn number_patch(alloc: Global, number: u64) -> Result<Patch, AllocError>
    ensures { IfOk result (λ p. p ≡ number_patch number) }
{
    Ok(Patch::Bytes(Write::of_slice(alloc, NUMBER_OFFSET, &number.to_be_bytes())?))
}

/// Whether each patch is within its user's part of a page.
pub(crate) fn are_users(patches: &[Patch]) -> bool
    ensures { IsTrue result ↔ AllByRecursion IsUsers patches.now }
{
    for patch in patches {
        if !is_users(patch) {
            return false;
        }
    }
    true
}

fn is_users(patch: &Patch) -> bool
    ensures { IsTrue result ↔ IsUsers patch.now }
{
    match patch {
        Patch::Bytes(write) => ends_below(write.offset(), write.bytes().len()),
        Patch::Fill { offset, len, .. } => ends_below(*offset, usize::from(*len)),
    }
}

fn ends_below(offset: u16, len: usize) -> bool
    ensures { IsTrue result ↔ (offset + len ≤ 4088) }
{
    len <= usize::from(NUMBER_OFFSET) && usize::from(offset) + len <= usize::from(NUMBER_OFFSET)
}

/// The patches of a record of page 0, but for its number. The header has up to 1,024 bytes. It fails only if memory runs out.
pub(crate) fn commit_patches(
    alloc: Global,
    generation: u64,
    epoch: u16,
    header: &[u8],
) -> Result<Vec<Patch>, AllocError>
    requires { length header.now ≤ 1024 }
    ensures { IfOk result (λ v. v.items ≡ commit_patch generation epoch header.now ∷ []) }
{
    let mut bytes = Vec::new(alloc);
    bytes.extend_from_slice(&generation.to_be_bytes())?;
    bytes.extend_from_slice(&epoch.to_be_bytes())?;
    bytes.extend_from_slice(&(header.len() as u16).to_be_bytes())?;
    bytes.extend_from_slice(header)?;
    let mut patches = Vec::new(alloc);
    patches.push(Patch::Bytes(Write::new(0, bytes)))?;
    Ok(patches)
}

/// The header in page 0. It fails only if memory runs out.
pub(crate) fn header_of(alloc: Global, page: &Page) -> Result<Vec<u8>, AllocError>
    ensures { IfOk result (λ v. IsHeaderOf page.now v.items) }
{
    let bytes = page.bytes();
    let len = usize::from(u16::from_be_bytes([bytes[10], bytes[11]])).min(MAX_HEADER);
    Vec::from_slice(alloc, &bytes[HEADER_OFFSET..HEADER_OFFSET + len])
}
