use lanes::Lanes;

// The lanes of a task set where the clock reads `clock`.
#[derive(Clone, Copy)]
pub struct Snapshot<'a> {
    pub lanes: &'a Lanes,
    pub clock: u64,
}
