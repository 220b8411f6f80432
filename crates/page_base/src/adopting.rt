// How images adopt those of another store at one version.
ghost use Rattle.std.specs.Prelude.{◌≡◌, ◌+◌, ◌≤◌, [], nat_le, vec_len, vec_capacity, IfOk, IfErr, OnErr};
ghost use Rattle.page_base.specs.Stored.{store_of, IsBase};
ghost use Rattle.page_base.specs.Adopting.{Adopts, StoresJust, ComesTo, RaisesEachTo};

use crate::images::BaseImage;
use crate::places::raise;
use redo_core::{Refused, SharedPage};
use std::alloc::AllocError;

// Raises each page given to the base, in order; there is room for all of them.
fn raise_each(images: &mut Vec<BaseImage>, floor: u64, base: u64, pages: Vec<(u16, SharedPage)>)
    requires stored { IsBase images.old.items floor }
    requires room { vec_len images.old + vec_len pages ≤ vec_capacity images.old }
    ensures raises { ComesTo base (store_of images.old.items floor) pages.items (store_of images.new.items floor) [] }
    ensures each { RaisesEachTo base (store_of images.old.items floor) pages.items (store_of images.new.items floor) }
    ensures form { IsBase images.new.items floor }
{
    for (page, image) in pages {
        if raise(images, floor, page, base, image).is_err() {
            unreachable!()
        }
    }
}

/// Drops the images below the base, and returns the default version that replaces theirs.
pub(crate) fn raise_floor(images: &mut Vec<BaseImage>, floor: u64, base: u64) -> u64
    requires { IsBase images.old.items floor }
    ensures adopts { Adopts (store_of images.old.items floor) base [] (store_of images.new.items result) }
    ensures listed { StoresJust (store_of images.old.items floor) base [] (store_of images.new.items result) }
    ensures form { IsBase images.new.items result }
{
    images.retain(
        |image: &BaseImage| -> bool
            ensures { result ≡ nat_le base image.now.version }
        { base <= image.version() },
    );
    floor.max(base)
}

/// Adopts the pages given at the base, and returns the new default version.
pub(crate) fn adopt(
    images: &mut Vec<BaseImage>,
    floor: u64,
    base: u64,
    pages: Vec<(u16, SharedPage)>,
) -> Result<u64, Refused<Vec<(u16, SharedPage)>, AllocError>>
    requires { IsBase images.old.items floor }
    ensures adopts { IfOk result (λ raised. Adopts (store_of images.old.items floor) base pages.items (store_of images.new.items raised)) }
    ensures listed { IfOk result (λ raised. StoresJust (store_of images.old.items floor) base pages.items (store_of images.new.items raised)) }
    ensures form { IfOk result (λ raised. IsBase images.new.items raised) }
    ensures refused { IfErr result (λ e. e.value ≡ pages) }
    ensures unchanged { OnErr result (images.new.items ≡ images.old.items) }
{
    if images.reserve(pages.len()).is_err() {
        return Err(Refused {
            value: pages,
            fault: AllocError,
        });
    }
    raise_each(images, floor, base, pages);
    Ok(raise_floor(images, floor, base))
}
