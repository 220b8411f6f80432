//! Immutable pages with shared ownership: an image exists once, however many stores and messages have it.

ghost use Rattle.std.specs.Prelude.{◌≡◌, ◌↔◌, IsTrue, IfOk, IfErr};
ghost use Rattle.redo_core.specs.Writing.{zeros};

use crate::pages::Page;
use std::alloc::{AllocError, AllocFailed, Global};
use std::marker::Model;
use std::sync::Arc;

/// An immutable page of 4,096 bytes, for any number of owners.
pub struct SharedPage {
    page: Arc<Page>,
    // Computed once, so that no caller scans the bytes again.
    zero: bool,
}

// Written out, so that dropping an owner is proved only here.
impl Drop for SharedPage {
    fn drop(self) {
        let SharedPage {
            page: _page,
            zero: _zero,
        } = self;
    }
}

impl Model for SharedPage {
    ghost use Rattle.std.specs.Prelude.{◌≡◌, ◌↔◌, List, ℕ, IsTrue};
    ghost use Rattle.std.specs.Arc.{arc_value};
    ghost use Rattle.redo_core.specs.Writing.{zeros};

    ghost Value = { List ℕ };

    ghost view = { λ p. arc_value p.page };

    ghost invariant = { λ p. IsTrue p.zero ↔ (arc_value p.page ≡ zeros) };
}

impl SharedPage {
    /// The page with its first owner. The error is an allocation failure for the owner count, and returns the page.
    pub fn new(alloc: Global, page: Page) -> Result<Self, AllocFailed<Page>>
        ensures ok { IfOk result (λ p. p ≡ page) }
        ensures back { IfErr result (λ e. e.value ≡ page) }
    {
        let zero = page.is_zero();
        let page = Arc::new(alloc, page)?;
        Ok(SharedPage { page, zero })
    }

    /// The page, borrowed from its owners.
    pub fn page(&self) -> &Page
        ensures { result.now ≡ self.now }
    {
        &*self.page
    }

    /// One more owner of the same page. It allocates nothing; the error means that the owner count would overflow.
    pub fn share(&self) -> Result<Self, AllocError>
        ensures { IfOk result (λ p. p ≡ self.now) }
    {
        Ok(SharedPage {
            page: Arc::try_clone(&self.page)?,
            zero: self.zero,
        })
    }

    /// Whether no byte of the page differs from zero, in constant time.
    pub fn is_zero(&self) -> bool
        ensures { IsTrue result ↔ (self.now ≡ zeros) }
    {
        self.zero
    }
}
