// A background job that was handed out and has not ended: the tag that it was offered with, and how many more ticks it
// receives at most. It is no offer, which has a cost.
#[derive(Clone, Copy, PartialEq, Eq, Debug)]
pub struct Released {
    pub tag: u64,
    pub remaining: u64,
}
