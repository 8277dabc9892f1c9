// A background job that stands in the queue: the tag that its owner knows it by, and how many ticks it takes at most. It is not one
// type with a released job, which keeps the ticks that it still receives and not its cost.
#[derive(Clone, Copy, PartialEq, Eq, Debug)]
pub struct Offer {
    pub tag: u64,
    pub cost: u64,
}
