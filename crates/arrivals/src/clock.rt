// The last reading of a clock, which then does not move on.
pub const LAST_READING: u64 = 1_000_000_000_000_000;
