// What a gate leaves when it is closed: its clock, and how many jobs were pending, released and queued.
#[derive(Clone, Copy, PartialEq, Eq, Debug)]
pub struct Closing {
    pub clock: u64,
    pub pending: u64,
    pub released: u64,
    pub queued: u64,
}
