//! Reading and writing page images.

ghost use Rattle.std.specs.Prelude.{◌≡◌, ◌++◌, length, IfOk, OnOk};
ghost use Rattle.redo_core.specs.Shape.{page_len};
ghost use Rattle.redo_wire.specs.Outcomes.{Gives};
ghost use Rattle.redo_wire.specs.DeltaReading.{is_nonzero, image_at, next_image_at};

use crate::faults::{WireError, WireFault};
use crate::fields::{put_u16, read_bytes, read_u16};
use crate::lists::{ListReader, ListWriter};
use bytes::{BufMut, BytesMut};
use messages::PageImage;
use redo_core::{PAGE_LEN, Page, SharedPage};
use std::alloc::{AllocError, Global};

/// Pages by page number, none of zeros.
#[derive(Clone, Copy)]
pub struct ImageList;

impl ListReader for ImageList {
    ghost use Rattle.redo_wire.specs.DeltaReading.{next_image_at, page_after};

    type Item = PageImage;

    /// The least page number that the page may have.
    type State = u32;

    ghost step = { λ _. next_image_at };

    ghost next = { page_after };

    fn read_next(
        self,
        least: u32,
        alloc: Global,
        bytes: &[u8],
    ) -> Result<(PageImage, &[u8]), WireError> {
        read_next_image(alloc, least, bytes)
    }

    fn state_after(self, _least: u32, image: &PageImage) -> u32 {
        image.number() as u32 + 1
    }
}

impl ListWriter for ImageList {
    ghost use Rattle.redo_wire.specs.Deltas.{IsWireImage, image_bytes};

    type Item = PageImage;

    ghost encode = { λ _. image_bytes };

    ghost fits = { λ _. IsWireImage };

    fn put(self, out: &mut BytesMut, image: &PageImage) -> Result<(), AllocError> {
        put_u16(out, image.number())?;
        out.put_slice(image.page().bytes())?;
        Ok(())
    }
}

fn has_nonzero(bytes: &[u8]) -> bool
    ensures { result ≡ is_nonzero bytes.now }
{
    bytes.iter().any(|b| *b != 0)
}

/// The page of these bytes. It fails only if memory runs out.
fn page_of(alloc: Global, bytes: &[u8]) -> Result<SharedPage, AllocError>
    requires { length bytes.now ≡ page_len }
    ensures { IfOk result (λ page. page ≡ bytes.now) }
{
    let page = Page::new(Vec::from_slice(alloc, bytes)?);
    Ok(SharedPage::new(alloc, page)?)
}

/// Reads a page with its page number; returns it and the bytes after it.
///
/// Errors: `Short`; `Shape` where the page is zeros; `Memory`.
#[tactic(auto, unfolding(crate::specs::DeltaReading::image_at))]
pub(crate) fn read_image(alloc: Global, bytes: &[u8]) -> Result<(PageImage, &[u8]), WireError>
    ensures { Gives (λ x. (x.0, x.1.now)) result (image_at bytes.now) }
{
    let (number, rest) = read_u16(bytes)?;
    let (text, rest) = read_bytes(PAGE_LEN, rest)?;
    if !has_nonzero(text) {
        return Err(WireError::Fault(WireFault::Shape));
    }
    let page = page_of(alloc, text)?;
    Ok((PageImage::new(number, page), rest))
}

fn read_next_image(alloc: Global, least: u32, bytes: &[u8]) -> Result<(PageImage, &[u8]), WireError>
    ensures { Gives (λ x. (x.0, x.1.now)) result (next_image_at least bytes.now) }
{
    let (image, rest) = read_image(alloc, bytes)?;
    if (image.number() as u32) < least {
        return Err(WireError::Fault(WireFault::Order));
    }
    Ok((image, rest))
}
