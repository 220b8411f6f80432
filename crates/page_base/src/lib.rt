//! The base images of a segment's pages: for each page an image, and its version, the LSN whose state it is.
//!
//! A stored page is immutable: a copy of a store, or of one of its images, shares the page.
//! A page that was never raised is zeros at version 0, or at the greatest base or default version taken from elsewhere. Versions only
//! rise: a raise replaces an older image, an adoption brings every page at least to the base, and a merge takes what is newer. Each
//! error is an allocation failure; it returns what was given and leaves the images unchanged.
#![tactic(auto)]

mod adopting;
mod fixed;
mod images;
mod merging;
mod places;
mod store;

pub use images::BaseImage;
pub use store::BaseStore;
