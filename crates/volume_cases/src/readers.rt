use crate::world::World;
use guard::{Reply, Request};
use redo_core::Page;
use replica::{Boxed, Reply as SegmentReply, Request as SegmentRequest};
use segment_core::Front;
use std::alloc::AllocError;

/// The number in 8 bytes of a page, big-endian.
fn number_at(page: &Page, offset: usize) -> u64 {
    let mut number = 0u64;
    for byte in page.bytes().iter().skip(offset).take(8) {
        number = number.wrapping_mul(256).wrapping_add(u64::from(*byte));
    }
    number
}

impl World {
    /// What a node replies to a plain request.
    fn ask_plainly(&mut self, node: u8, request: SegmentRequest) -> SegmentReply {
        match self.ask(node, Request::Plain(request)) {
            Reply::Plain(reply) => reply,
            _ => SegmentReply::NoGap,
        }
    }

    fn page(&mut self, node: u8, page: u16, point: u64) -> Option<Page> {
        match self.ask_plainly(node, SegmentRequest::Read { page, point }) {
            SegmentReply::Page { image } => Some(image),
            _ => None,
        }
    }

    fn front(&mut self, node: u8) -> Front {
        match self.ask_plainly(node, SegmentRequest::Front) {
            SegmentReply::Front { front } => front,
            _ => Front {
                epoch: 0,
                complete: 0,
                min: 0,
            },
        }
    }

    /// The first byte of a page at a point, and the number of its last record.
    pub fn read(&mut self, node: u8, page: u16, point: u64) -> Result<String, AllocError> {
        let alloc = self.alloc;
        match self.page(node, page, point) {
            Some(image) => {
                let byte = image.bytes().first().copied().unwrap_or(0);
                let number = number_at(&image, 4088);
                format!(in alloc; "{byte} at {number}")
            }
            None => String::from_str(alloc, "no page"),
        }
    }

    /// What a reader learns at a node: its generation, its front, the last commit point there, and the generation that wrote it.
    pub fn reader(&mut self, node: u8) -> Result<String, AllocError> {
        let alloc = self.alloc;
        let front = self.front(node);
        let epoch = front.epoch;
        let Some(image) = self.page(node, 0, front.complete) else {
            return String::from_str(alloc, "no page 0");
        };
        let (number, writer) = (number_at(&image, 4088), number_at(&image, 0));
        match self.ask(node, Request::Status) {
            Reply::Status {
                generation,
                is_member: true,
                ..
            } => {
                format!(in alloc;
                    "generation {generation}, epoch {epoch}, commit {number} of generation {writer}"
                )
            }
            _ => String::from_str(alloc, "no member"),
        }
    }

    /// A node takes what another one has beyond it.
    pub fn gossip(&mut self, node: u8, other: u8) -> Result<String, AllocError> {
        if let SegmentReply::Summary { summary } = self.ask_plainly(node, SegmentRequest::Ask) {
            let shown = Boxed::new(self.alloc, summary.value().copy()?)?;
            let request = SegmentRequest::Answer { summary };
            if let SegmentReply::Delta { delta } = self.ask_plainly(other, request) {
                let summary = shown;
                let request = SegmentRequest::Absorb { summary, delta };
                let _ = self.ask_plainly(node, request);
            }
        }
        String::from_str(self.alloc, "Done")
    }
}
