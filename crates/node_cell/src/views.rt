ghost use Rattle.std.specs.Prelude.{◌≡◌};
ghost use Rattle.node_cell.specs.View.{IsLogPage};

use named_log::LogName;
use redo_core::Page;
use std::marker::{Model, PhantomData};

/// The log's own page at a read point, in the view of the complete epoch of the node that showed it.
#[derive(Drop)]
pub struct View<L: LogName> {
    epoch: u16,
    page: u16,
    point: u64,
    image: Page,
    of: PhantomData<L>,
}

impl<L: LogName> Model for View<L> {
    ghost use Rattle.node_cell.specs.View.{ViewData, IsLogPage};

    ghost Value = { ViewData };

    ghost view = { λ v. record { epoch = v.epoch; page = v.page; point = v.point; image = v.image } };

    ghost invariant = { λ v. IsLogPage L.log v.epoch v.page v.point v.image };
}

impl<L: LogName> View<L> {
    pub(crate) fn new(epoch: u16, page: u16, point: u64, image: Page) -> Self
        requires { IsLogPage L.log epoch page point image }
        ensures { result ≡ record { epoch = epoch; page = page; point = point; image = image } }
    {
        View {
            epoch,
            page,
            point,
            image,
            of: PhantomData,
        }
    }

    /// The complete epoch that the node had.
    pub fn epoch(&self) -> u16
        ensures { result ≡ self.now.epoch }
    {
        self.epoch
    }

    pub fn page(&self) -> u16
        ensures { result ≡ self.now.page }
    {
        self.page
    }

    /// The read point, a log sequence number.
    pub fn point(&self) -> u64
        ensures { result ≡ self.now.point }
    {
        self.point
    }

    pub fn image(&self) -> &Page
        ensures value { result.now ≡ self.now.image }
        ensures own { IsLogPage L.log self.now.epoch self.now.page self.now.point result.now }
    {
        &self.image
    }
}
