// Images that rise by page: the index of one, and how one changes.
ghost use Rattle.std.specs.Prelude.{◌≡◌, ℕ, ◌+◌, ◌<◌, ◌≤◌, nat_lt, vec_len, vec_capacity, IsOk, IfOk, OnOk, IfErr, OnErr};
ghost use Rattle.std.specs.Option.{option_copied};
ghost use Rattle.redo_core.specs.Order.{IsRising};
ghost use Rattle.redo_core.specs.Store.{version_of, image_of, PageBefore, PutsImage};
ghost use Rattle.page_base.specs.Stored.{store_of, IsBase, IsStoredImage};
ghost use Rattle.page_base.specs.Placing.{SplitsAt, IsPlace};
ghost use Rattle.page_base.specs.Raising.{Raises};

use crate::images::BaseImage;
use redo_core::{Page, Refused, SharedPage};
use std::alloc::{AllocError, Global};

// How many images are of lower pages.
fn split_at(images: &[BaseImage], page: u16) -> usize
    requires { IsRising PageBefore images.now }
    ensures { SplitsAt page images.now result }
{
    images.partition_point(
        |image: &BaseImage| -> bool
            ensures { result ≡ nat_lt image.now.page page }
        { image.page() < page },
    )
}

/// The index of a page's image, or where it would be inserted.
pub(crate) fn place_of(images: &[BaseImage], page: u16) -> Result<usize, usize>
    requires { IsRising PageBefore images.now }
    ensures { IsPlace page images.now result }
{
    let place = split_at(images, page);
    if place == images.len() {
        return Err(place);
    }
    if images[place].page() == page {
        Ok(place)
    } else {
        Err(place)
    }
}

/// The stored image of a page, whatever the default version; None where it has none.
pub(crate) fn stored_in(images: &[BaseImage], page: u16) -> Option<&BaseImage>
    requires { IsRising PageBefore images.now }
    ensures { (floor : ℕ) → IsStoredImage (store_of images.now floor) page (option_copied result) }
{
    match place_of(images, page) {
        Ok(place) => Some(&images[place]),
        Err(_) => None,
    }
}

/// The version of a page: that of its image, or the default version `floor`.
pub(crate) fn version_in(images: &[BaseImage], floor: u64, page: u16) -> u64
    requires { IsRising PageBefore images.now }
    ensures { result ≡ version_of (store_of images.now floor) page }
{
    match place_of(images, page) {
        Ok(place) => images[place].version(),
        Err(_) => floor,
    }
}

/// A copy of the image of a page, or zeros. The only error is an allocation failure.
pub(crate) fn image_in(
    images: &[BaseImage],
    floor: u64,
    alloc: Global,
    page: u16,
) -> Result<Page, AllocError>
    requires { IsRising PageBefore images.now }
    ensures { IfOk result (λ image. image ≡ image_of (store_of images.now floor) page) }
{
    match place_of(images, page) {
        Ok(place) => images[place].image().page().copy(),
        Err(_) => Page::zeros(alloc),
    }
}

// Inserts or replaces the image of a page; with room for one more it cannot fail.
fn put(images: &mut Vec<BaseImage>, image: BaseImage) -> Result<(), Refused<BaseImage, AllocError>>
    requires { IsRising PageBefore images.old.items }
    ensures puts { OnOk result (PutsImage images.old.items image images.new.items) }
    ensures refused { IfErr result (λ e. e.value ≡ image) }
    ensures unchanged { OnErr result (images.new.items ≡ images.old.items) }
    ensures room { vec_len images.old < vec_capacity images.old → IsOk result }
    ensures size { (vec_len images.new ≤ vec_len images.old + 1) × (vec_capacity images.old ≤ vec_capacity images.new) }
{
    match place_of(images, image.page()) {
        Ok(place) => {
            images[place] = image;
            Ok(())
        }
        Err(place) => match images.insert(place, image) {
            Ok(()) => Ok(()),
            Err(failed) => Err(Refused {
                value: failed.value,
                fault: AllocError,
            }),
        },
    }
}

/// Raises the image of a page; with room for one more it cannot fail.
pub(crate) fn raise(
    images: &mut Vec<BaseImage>,
    floor: u64,
    page: u16,
    version: u64,
    image: SharedPage,
) -> Result<(), Refused<SharedPage, AllocError>>
    requires { IsBase images.old.items floor }
    ensures raises { OnOk result (Raises (store_of images.old.items floor) page version image (store_of images.new.items floor)) }
    ensures refused { IfErr result (λ e. (e.value ≡ image) × (version_of (store_of images.old.items floor) page < version)) }
    ensures unchanged { OnErr result (images.new.items ≡ images.old.items) }
    ensures form { IsBase images.new.items floor }
    ensures room { vec_len images.old < vec_capacity images.old → IsOk result }
    ensures size { (vec_len images.new ≤ vec_len images.old + 1) × (vec_capacity images.old ≤ vec_capacity images.new) }
{
    if version <= version_in(images, floor, page) {
        return Ok(());
    }
    match put(images, BaseImage::new(page, version, image)) {
        Ok(()) => Ok(()),
        Err(refused) => Err(Refused {
            value: refused.value.into_image(),
            fault: refused.fault,
        }),
    }
}

/// Raises the image of a page to one that is not shared yet. The only error is an allocation failure; it returns the page.
pub(crate) fn raise_page(
    images: &mut Vec<BaseImage>,
    floor: u64,
    page: u16,
    version: u64,
    image: Page,
) -> Result<(), Refused<Page, AllocError>>
    requires { IsBase images.old.items floor }
    ensures raises { OnOk result (Raises (store_of images.old.items floor) page version image (store_of images.new.items floor)) }
    ensures refused { IfErr result (λ e. (e.value ≡ image) × (version_of (store_of images.old.items floor) page < version)) }
    ensures unchanged { OnErr result (images.new.items ≡ images.old.items) }
    ensures form { IsBase images.new.items floor }
{
    if version <= version_in(images, floor, page) {
        return Ok(());
    }
    // Reserves first: a page that is shared cannot be returned as one that is not.
    if images.reserve(1).is_err() {
        return Err(Refused {
            value: image,
            fault: AllocError,
        });
    }
    match SharedPage::new(*images.allocator(), image) {
        Ok(shared) => {
            if raise(images, floor, page, version, shared).is_err() {
                unreachable!()
            }
            Ok(())
        }
        Err(failed) => Err(Refused {
            value: failed.value,
            fault: AllocError,
        }),
    }
}
