use crate::answer::Answer;
use crate::given::{give, images, page_of, pages};
use crate::keeping::{done, renew};
use crate::store_calls::bench::Fixture;
use crate::store_calls::log_answers;
use case_io::Row;
use page_base::BaseStore;
use std::alloc::AllocError;
use std::mem;

fn raise(store: &mut BaseStore, row: &Row) -> Result<Answer, AllocError> {
    let image = page_of(row.alloc, row.byte(2))?;
    done(store.raise(row.short(0), row.number(1), image))
}

// Adopts the given images, at one version.
fn adopt(bench: &mut Fixture, row: &Row) -> Result<Answer, AllocError> {
    let pages = pages(row.alloc, &bench.given)?;
    bench.given.clear();
    done(bench.store.adopt(row.number(0), pages))
}

// Merges the given images, with a default version.
fn merge(bench: &mut Fixture, row: &Row) -> Result<Answer, AllocError> {
    let images = images(row.alloc, &bench.given)?;
    bench.given.clear();
    done(bench.store.merge(row.number(0), images))
}

fn swap_stores(bench: &mut Fixture) -> Answer {
    mem::swap(&mut bench.store, &mut bench.spare);
    Answer::Word("Done")
}

/// The answer of a change of a store, or of another call.
pub fn answer(bench: &mut Fixture, row: &Row) -> Result<Answer, AllocError> {
    match row.name {
        "raise" => raise(&mut bench.store, row),
        "give" => give(&mut bench.given, row),
        "adopt" => adopt(bench, row),
        "merge" => merge(bench, row),
        "copy_store" => renew(&mut bench.spare, bench.store.copy()),
        "swap_stores" => Ok(swap_stores(bench)),
        _ => shown(bench, row),
    }
}

// The page, the version and the first byte of each stored image.
fn show_images(store: &BaseStore, row: &Row) -> Result<Answer, AllocError> {
    let mut shown = Vec::new(row.alloc);
    for image in store.pages() {
        let first = image.image().page().bytes()[0];
        shown.push((image.page(), image.version(), first))?;
    }
    Answer::one(row.alloc, "Images", &shown)
}

// The version of a page, and the last byte of its image.
fn show_image(store: &BaseStore, row: &Row) -> Result<Answer, AllocError> {
    let page = row.short(0);
    Answer::parts(
        row.alloc,
        "Image",
        &(store.version(page), store.image(page)?.bytes()[4095]),
    )
}

fn stored_version(store: &BaseStore, page: u16) -> Answer {
    match store.stored_image(page) {
        Some(image) => Answer::Found(Some(image.version())),
        None => Answer::Found(None),
    }
}

// The answer of a query of the store, or another answer.
fn shown(bench: &Fixture, row: &Row) -> Result<Answer, AllocError> {
    let store = &bench.store;
    match row.name {
        "images" => show_images(store, row),
        "image" => show_image(store, row),
        "is_zero" => Ok(Answer::Flag(store.image(row.short(0))?.is_zero())),
        "floor" => Ok(Answer::Number(store.floor())),
        "stored_image" => Ok(stored_version(store, row.short(0))),
        _ => log_answers::answer(bench, row),
    }
}
