//! What the contracts determine, so that no other body meets them: a borrowed image is the page's own, a stored one reads in one way,
//! and nothing else is stored.
//! Each function states a theorem and is called by nobody.

ghost use Rattle.std.specs.Prelude.{◌≡◌, ℕ, [], IfSome, IsTrue};
ghost use Rattle.redo_core.specs.Store.{version_of, image_of};

use crate::images::BaseImage;
use crate::store::BaseStore;
use redo_core::{Page, SharedPage};

fn image_is_lent_one_way(store: &BaseStore, page: u16) -> Option<(&BaseImage, &BaseImage)>
    ensures { IfSome result (λ both. both.0.now ≡ both.1.now) }
{
    Some((store.stored_image(page)?, store.stored_image(page)?))
}

// Whether both stores took the image.
fn image_is_raised_one_way(
    one: &mut BaseStore,
    other: &mut BaseStore,
    image: (u16, u64, Page),
    same: Page,
) -> bool
    requires stores { one.old ≡ other.old }
    requires images { image.2 ≡ same }
    ensures versions { IsTrue result → (p : ℕ) → version_of one.new p ≡ version_of other.new p }
    ensures images { IsTrue result → (p : ℕ) → image_of one.new p ≡ image_of other.new p }
    ensures stored { IsTrue result → one.new.images ≡ other.new.images }
{
    let (page, version, image) = image;
    let first = one.raise(page, version, image).is_ok();
    let second = other.raise(page, version, same).is_ok();
    first && second
}

// Whether both stores took the pages.
fn pages_are_adopted_one_way(
    one: &mut BaseStore,
    other: &mut BaseStore,
    base: u64,
    pages: Vec<(u16, SharedPage)>,
    same: Vec<(u16, SharedPage)>,
) -> bool
    requires stores { one.old ≡ other.old }
    requires pages { pages.items ≡ same.items }
    ensures floors { IsTrue result → one.new.floor ≡ other.new.floor }
    ensures versions { IsTrue result → (p : ℕ) → version_of one.new p ≡ version_of other.new p }
    ensures images { IsTrue result → (p : ℕ) → image_of one.new p ≡ image_of other.new p }
{
    let first = one.adopt(base, pages).is_ok();
    let second = other.adopt(base, same).is_ok();
    first && second
}

// Whether both stores took the images.
fn floor_is_merged_one_way(
    one: &mut BaseStore,
    other: &mut BaseStore,
    floor: u64,
    images: (Vec<BaseImage>, Vec<BaseImage>),
) -> bool
    requires { one.old ≡ other.old }
    ensures { IsTrue result → one.new.floor ≡ other.new.floor }
{
    let (own, others) = images;
    let first = one.merge(floor, own).is_ok();
    let second = other.merge(floor, others).is_ok();
    first && second
}

// Whether a store without images took an empty list of pages.
fn no_page_is_adopted_of_none(
    store: &mut BaseStore,
    base: u64,
    pages: Vec<(u16, SharedPage)>,
) -> bool
    requires images { store.old.images ≡ [] }
    requires pages { pages.items ≡ [] }
    ensures { IsTrue result → store.new.images ≡ [] }
{
    store.adopt(base, pages).is_ok()
}

// Whether a store without images took an empty list of images.
fn no_image_is_merged_of_none(store: &mut BaseStore, floor: u64, images: Vec<BaseImage>) -> bool
    requires store { store.old.images ≡ [] }
    requires images { images.items ≡ [] }
    ensures { IsTrue result → store.new.images ≡ [] }
{
    store.merge(floor, images).is_ok()
}
