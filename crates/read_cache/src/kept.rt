use redo_core::Page;

/// An image that was read of a page, and the point that it was read at.
#[derive(Drop)]
pub struct KeptImage {
    pub point: u64,
    pub image: Page,
}
