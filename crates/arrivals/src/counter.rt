// The dynamic counter (token bucket) of one staircase. `Full` has as many tokens as the staircase's burst and does not age;
// `Short` has fewer, and `age` is how many ticks ago it last gained one or became short. It is no Option of what a short counter
// has: `None` would not say that a counter is full.
#[derive(Clone, Copy, PartialEq, Eq, Debug)]
pub enum Counter {
    Full,
    Short { tokens: u64, age: u64 },
}

// What happens to a monitored task.
#[derive(Clone, Copy, PartialEq, Eq, Debug)]
pub enum Event {
    Arrival,
    Tick,
}
