use case_io::{Row, first_number};
use front_board::LogFront;
use named_log::LogName;
use node_cell::{Ack, View};
use std::io;

/// The indices in the trail and in the log, and the front's epoch and LSN.
pub type Delivered = (u64, u64, u16, u64);

/// Prints the epoch and the LSN of a front.
pub fn print_front<L: LogName>(row: &Row, front: LogFront<L>) -> io::Result<()> {
    row.parts("Front", &(front.epoch(), front.number()))
}

/// What an acknowledgement says.
pub fn delivery_of<L: LogName>(ack: &Ack<L>) -> Delivered {
    (
        ack.receipt.place(),
        ack.receipt.log_place(),
        ack.front.epoch(),
        ack.front.number(),
    )
}

/// Prints the epoch, the page and the point of a view, and the number that its page begins with.
pub fn print_view<L: LogName>(row: &Row, view: &View<L>) -> io::Result<()> {
    let begins = first_number(view.image().bytes());
    row.parts("Shown", &(view.epoch(), view.page(), view.point(), begins))
}
