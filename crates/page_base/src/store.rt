ghost use Rattle.std.specs.Prelude.{◌≡◌, ◌<◌, [], IfOk, OnOk, IfErr, OnErr};
ghost use Rattle.std.specs.Option.{option_copied};
ghost use Rattle.redo_core.specs.Store.{version_of, image_of};
ghost use Rattle.page_base.specs.Stored.{store_of, IsStored, IsBase, IsStoredImage};
ghost use Rattle.page_base.specs.Raising.{Raises};
ghost use Rattle.page_base.specs.Adopting.{Adopts, StoresJust};
ghost use Rattle.page_base.specs.Merging.{Merges};

use crate::images::BaseImage;
use crate::{adopting, merging, places};
use redo_core::{Page, Refused, SharedPage};
use std::alloc::{AllocError, Global};
use std::marker::Model;

/// The base images of pages, rising by page. A page without one is zeros at the default version, and no image is of a lower version.
#[derive(Drop)]
pub struct BaseStore {
    alloc: Global,
    images: Vec<BaseImage>,
    floor: u64,
}

impl Model for BaseStore {
    ghost use Rattle.redo_core.specs.Store.{Store};
    ghost use Rattle.page_base.specs.Stored.{store_of, IsBase};

    ghost Value = { Store };

    ghost view = { λ s. store_of s.images.items s.floor };

    ghost invariant = { λ s. IsBase s.images.items s.floor };
}

impl BaseStore {
    /// A store where each page is zeros at version 0.
    pub fn new(alloc: Global) -> Self
        ensures { result ≡ store_of [] 0 }
    {
        BaseStore {
            alloc,
            images: Vec::new(alloc),
            floor: 0,
        }
    }

    /// An equal store, which shares the pages. The only error is an allocation failure.
    pub fn copy(&self) -> Result<Self, AllocError>
        ensures { IfOk result (λ s. s ≡ self.now) }
    {
        let mut images = Vec::new(self.alloc);
        for image in &self.images {
            images.push(image.copy()?)?;
        }
        Ok(BaseStore {
            alloc: self.alloc,
            images,
            floor: self.floor,
        })
    }

    /// The stored images, rising by page.
    pub fn pages(&self) -> &[BaseImage]
        ensures value { result.now ≡ self.now.images }
        ensures form { IsStored self.now }
    {
        &self.images
    }

    /// The version of a page: that of its image, or the greatest base or default version taken from elsewhere, or 0.
    pub fn version(&self, page: u16) -> u64
        ensures { result ≡ version_of self.now page }
    {
        places::version_in(&self.images, self.floor, page)
    }

    /// The default version, of the pages that have no image: the greatest base or default version taken from elsewhere, or 0.
    pub fn floor(&self) -> u64
        ensures { result ≡ self.now.floor }
    {
        self.floor
    }

    /// A copy of the image of a page, or zeros. The only error is an allocation failure.
    pub fn image(&self, page: u16) -> Result<Page, AllocError>
        ensures { IfOk result (λ image. image ≡ image_of self.now page) }
    {
        places::image_in(&self.images, self.floor, self.alloc, page)
    }

    /// The stored image of a page, borrowed; None where the page has none, and so is zeros at the default version.
    pub fn stored_image(&self, page: u16) -> Option<&BaseImage>
        ensures { IsStoredImage self.now page (option_copied result) }
    {
        places::stored_in(&self.images, page)
    }

    /// Gives a page an image of a version above the page's own; one of any other version changes nothing.
    /// The error is an allocation failure; it returns the image and leaves the store unchanged.
    pub fn raise(
        &mut self,
        page: u16,
        version: u64,
        image: Page,
    ) -> Result<(), Refused<Page, AllocError>>
        ensures raises { OnOk result (Raises self.old page version image self.new) }
        ensures refused { IfErr result (λ e. (e.value ≡ image) × (version_of self.old page < version)) }
        ensures unchanged { OnErr result (self.new ≡ self.old) }
        ensures form { IsStored self.new }
    {
        places::raise_page(&mut self.images, self.floor, page, version, image)
    }

    /// Brings each page of a version below `base` to it, with the first image given of that page, or zeros where none is.
    /// The error is an allocation failure; it returns the pages and leaves the store unchanged.
    pub fn adopt(
        &mut self,
        base: u64,
        pages: Vec<(u16, SharedPage)>,
    ) -> Result<(), Refused<Vec<(u16, SharedPage)>, AllocError>>
        ensures adopts { OnOk result (Adopts self.old base pages.items self.new) }
        ensures listed { OnOk result (StoresJust self.old base pages.items self.new) }
        ensures refused { IfErr result (λ e. e.value ≡ pages) }
        ensures unchanged { OnErr result (self.new ≡ self.old) }
        ensures form { IsStored self.new }
    {
        match adopting::adopt(&mut self.images, self.floor, base, pages) {
            Ok(floor) => {
                self.floor = floor;
                Ok(())
            }
            Err(refused) => Err(refused),
        }
    }

    /// Raises each page given, in order, and then each page of a version below the default one `floor` to it, as zeros.
    /// The error is an allocation failure; it returns the images and leaves the store unchanged.
    pub fn merge(
        &mut self,
        floor: u64,
        images: Vec<BaseImage>,
    ) -> Result<(), Refused<Vec<BaseImage>, AllocError>>
        ensures merges { OnOk result (Merges self.old floor images.items self.new) }
        ensures refused { IfErr result (λ e. e.value ≡ images) }
        ensures unchanged { OnErr result (self.new ≡ self.old) }
        ensures form { IsStored self.new }
    {
        match merging::merge(&mut self.images, self.floor, floor, images) {
            Ok(floor) => {
                self.floor = floor;
                Ok(())
            }
            Err(refused) => Err(refused),
        }
    }
}
