ghost use Rattle.std.specs.Prelude.{◌≡◌, ◌≤◌, OnOk, OnErr, IfErr};
ghost use Rattle.segment_theorems.specs.State.{min_of};
ghost use Rattle.segment_core.specs.Adopting.{AdoptsBase};
ghost use Rattle.segment_core.specs.Uniting.{Unites, RaisesBase};

use crate::segment::Segment;
use hot_log::BookView;
use page_base::BaseImage;
use redo_core::{Refused, SharedPage};
use std::alloc::AllocError;

impl Segment {
    /// Raises the base point to `base` where that is higher, and adopts base images: each page of a version below `base` takes
    /// the first image given for it, or zeros, at `base`.
    ///
    /// `base` is an LSN, at most the minimum read point. It fails only if memory runs out: the segment is then as it was, and the
    /// error returns the images.
    pub fn adopt(
        &mut self,
        base: u64,
        pages: Vec<(u16, SharedPage)>,
    ) -> Result<(), Refused<Vec<(u16, SharedPage)>, AllocError>>
        requires { base ≤ min_of self.old }
        ensures adopts { OnOk result (AdoptsBase self.old base pages.items self.new) }
        ensures refused { IfErr result (λ e. e.value ≡ pages) }
        ensures unchanged { OnErr result (self.new ≡ self.old) }
    {
        match self.store.adopt(base, pages) {
            Ok(()) => {
                self.due.add_images(&self.store);
                self.raise_base(base);
                Ok(())
            }
            Err(refused) => Err(refused),
        }
    }

    /// Raises the base point to `base`, and merges images: each is raised to its version, and then each page below the default version `floor`
    /// to that, as zeros.
    ///
    /// `base` is at most the minimum read point. The only error is lack of memory: the segment is then as it was.
    pub fn unite(&mut self, base: u64, floor: u64, images: Vec<BaseImage>) -> Result<(), AllocError>
        requires { base ≤ min_of self.old }
        ensures unites { OnOk result (Unites self.old base floor images.items self.new) }
        ensures unchanged { OnErr result (self.new ≡ self.old) }
    {
        if images.is_empty() && floor <= self.store.floor() {
            self.raise_base(base);
            return Ok(());
        }
        match self.store.merge(floor, images) {
            Ok(()) => {
                self.due.add_images(&self.store);
                self.raise_base(base);
                Ok(())
            }
            Err(_) => Err(AllocError),
        }
    }

    /// Raises the base point to `base` where that is higher.
    fn raise_base(&mut self, base: u64)
        requires { base ≤ min_of self.old }
        ensures { RaisesBase self.old base self.new }
    {
        let raised = self.base.max(base);
        let (book, held) = (&self.book, &self.hot);
        let view = BookView { book, held };
        self.points = self.points.over(&view, self.base, raised);
        self.base = raised;
    }
}
