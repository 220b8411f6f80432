//! What views and receipts mean.
ghost use Rattle.std.specs.Prelude.{◌≡◌};
ghost use Rattle.node_cell.specs.Laws.{ReceiptsStand};

use crate::views::View;
use log_theorems::one_page;
use named_log::LogName;

/// The receipts of a pass are in the trail of the closed node, so they settle.
pub fn receipts_stand()
    ensures { ReceiptsStand }
{}

/// Views of one epoch, page and point have one image, whichever nodes and threads gave them.
pub fn one_view<L: LogName>(one: &View<L>, other: &View<L>)
    requires epoch { one.now.epoch ≡ other.now.epoch }
    requires page { one.now.page ≡ other.now.page }
    requires point { one.now.point ≡ other.now.point }
    ensures { one.now.image ≡ other.now.image }
{
    one.image();
    other.image();
    one_page();
}
