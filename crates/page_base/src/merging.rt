// How images take in others, each at a version of its own.
ghost use Rattle.std.specs.Prelude.{◌≡◌, ◌+◌, ◌≤◌, vec_len, vec_capacity, IfOk, IfErr, OnErr};
ghost use Rattle.page_base.specs.Stored.{store_of, IsBase};
ghost use Rattle.page_base.specs.Merging.{Merges, RaisesEach};

use crate::adopting::raise_floor;
use crate::images::BaseImage;
use crate::places::raise;
use redo_core::Refused;
use std::alloc::AllocError;

// Raises each image given, in order; there is room for all of them.
fn raise_all(images: &mut Vec<BaseImage>, floor: u64, given: Vec<BaseImage>)
    requires stored { IsBase images.old.items floor }
    requires room { vec_len images.old + vec_len given ≤ vec_capacity images.old }
    ensures raises { RaisesEach (store_of images.old.items floor) given.items (store_of images.new.items floor) }
    ensures form { IsBase images.new.items floor }
{
    for image in given {
        let page = image.page();
        let version = image.version();
        if raise(images, floor, page, version, image.into_image()).is_err() {
            unreachable!()
        }
    }
}

/// Merges the images given and a default version, and returns the new default version.
pub(crate) fn merge(
    images: &mut Vec<BaseImage>,
    own: u64,
    floor: u64,
    given: Vec<BaseImage>,
) -> Result<u64, Refused<Vec<BaseImage>, AllocError>>
    requires { IsBase images.old.items own }
    ensures merges { IfOk result (λ raised. Merges (store_of images.old.items own) floor given.items (store_of images.new.items raised)) }
    ensures form { IfOk result (λ raised. IsBase images.new.items raised) }
    ensures refused { IfErr result (λ e. e.value ≡ given) }
    ensures unchanged { OnErr result (images.new.items ≡ images.old.items) }
{
    if images.reserve(given.len()).is_err() {
        return Err(Refused {
            value: given,
            fault: AllocError,
        });
    }
    raise_all(images, own, given);
    Ok(raise_floor(images, own, floor))
}
