ghost use Rattle.std.specs.Prelude.{◌≡◌, IfOk};
ghost use Rattle.messages.specs.Images.{image_of};

use redo_core::{Page, SharedPage};
use std::alloc::AllocError;
use std::marker::Model;

/// A page's number and its bytes.
#[derive(Drop)]
pub struct PageImage {
    number: u16,
    page: SharedPage,
}

impl Model for PageImage {
    ghost use Rattle.redo_core.specs.Meaning.{ImageData};
    ghost use Rattle.messages.specs.Images.{image_of};

    ghost Value = { ImageData };

    ghost view = { λ p. image_of p.number p.page };
}

impl PageImage {
    /// The image of the page of this number.
    pub fn new(number: u16, page: SharedPage) -> Self
        ensures { result ≡ image_of number page }
    {
        PageImage { number, page }
    }

    /// The number of the page.
    pub fn number(&self) -> u16
        ensures { result ≡ self.now.page }
    {
        self.number
    }

    /// The page, borrowed.
    pub fn page(&self) -> &Page
        ensures { result.now ≡ self.now.bytes }
    {
        self.page.page()
    }

    /// The page as it is shared.
    pub fn shared_page(&self) -> &SharedPage
        ensures { result.now ≡ self.now.bytes }
    {
        &self.page
    }

    /// The page, moved out without allocation.
    pub fn into_page(self) -> SharedPage
        ensures { result ≡ self.bytes }
    {
        self.page
    }

    /// An equal image, which shares the page. It allocates nothing; the error means that the count of the page's owners would overflow.
    pub fn copy(&self) -> Result<Self, AllocError>
        ensures { IfOk result (λ p. p ≡ self.now) }
    {
        self.clone()
    }
}

impl Clone for PageImage {
    ghost is_clone = { λ p copied. copied ≡ p };

    fn clone(&self) -> Result<Self, AllocError> {
        Ok(PageImage {
            number: self.number,
            page: self.page.share()?,
        })
    }
}
