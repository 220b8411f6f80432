ghost use Rattle.std.specs.Prelude.{◌≡◌, IfOk};
ghost use Rattle.page_base.specs.Stored.{stored};

use redo_core::SharedPage;
use std::alloc::AllocError;
use std::marker::Model;

/// An image of a page, and its version: the LSN whose state it is.
#[derive(Drop)]
pub struct BaseImage {
    page: u16,
    version: u64,
    image: SharedPage,
}

impl Model for BaseImage {
    ghost use Rattle.redo_core.specs.Store.{StoredImage};
    ghost use Rattle.page_base.specs.Stored.{stored};

    ghost Value = { StoredImage };

    ghost view = { λ i. stored i.page i.version i.image };
}

impl BaseImage {
    /// The image of a page at a version, which is an LSN or 0.
    pub fn new(page: u16, version: u64, image: SharedPage) -> Self
        ensures { result ≡ stored page version image }
    {
        BaseImage {
            page,
            version,
            image,
        }
    }

    /// The number of the page.
    pub fn page(&self) -> u16
        ensures { result ≡ self.now.page }
    {
        self.page
    }

    /// The version of the image, an LSN or 0.
    pub fn version(&self) -> u64
        ensures { result ≡ self.now.version }
    {
        self.version
    }

    /// The page, borrowed.
    pub fn image(&self) -> &SharedPage
        ensures { result.now ≡ self.now.bytes }
    {
        &self.image
    }

    // The page, moved out.
    pub(crate) fn into_image(self) -> SharedPage
        ensures { result ≡ self.bytes }
    {
        self.image
    }

    /// An equal image, which shares the page. It allocates nothing; the error means that the count of the page's owners would overflow.
    pub fn copy(&self) -> Result<Self, AllocError>
        ensures { IfOk result (λ i. i ≡ self.now) }
    {
        Ok(BaseImage {
            page: self.page,
            version: self.version,
            image: self.image.share()?,
        })
    }
}
