// A pending job: it was taken and has not ended. It has to end by the clock reading `due`, and receives at most `remaining`
// more ticks.
#[derive(Clone, Copy, PartialEq, Eq, Debug)]
pub struct Job {
    pub due: u64,
    pub remaining: u64,
}
