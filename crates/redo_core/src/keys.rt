/// The key of a record: its epoch, and its log sequence number (LSN) there. Keys are in order by epoch, then by LSN.
#[derive(Clone, Copy, Debug, PartialEq, Eq, PartialOrd, Ord, Hash)]
pub struct Key {
    pub epoch: u16,
    pub number: u64,
}
