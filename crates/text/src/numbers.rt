use bounded::Bounded;

// The numbers of a line; each staircase is a pair of burst and step.
pub(crate) struct LineNumbers {
    pub(crate) limit: u64,
    pub(crate) deadline: u64,
    pub(crate) staircases: Bounded<(u64, u64), 4>,
}
