// How an event changes a counter, in place.
ghost use Rattle.std.specs.Prelude.{◌≡◌, true};
ghost use Rattle.arrivals.specs.Bucket.{BucketModel, bucket_after, bucket_allows, bucket_of, full, has_token};
ghost use Rattle.arrivals.specs.Counter.{counter_after, sound};
ghost use Rattle.tasks.specs.Staircase.{staircase_of};

use crate::bucket::Bucket;
use crate::counter::{Counter, Event};
use bounded::Change;
use tasks::Staircase;

impl Counter {
    // An arrival takes a token, if there is one; a tick makes a short counter older.
    fn step(&mut self, staircase: Staircase, event: Event)
        requires { sound (staircase_of staircase) self.old ≡ true }
        ensures after { self.new ≡ counter_after (staircase_of staircase) event self.old }
        ensures within { sound (staircase_of staircase) self.new ≡ true }
    {
        match (&mut *self, event) {
            (Counter::Full, Event::Arrival) => {
                *self = Counter::Short {
                    tokens: staircase.burst - 1,
                    age: 0,
                };
            }
            (Counter::Short { tokens, .. }, Event::Arrival) => *tokens = tokens.saturating_sub(1),
            (Counter::Full, Event::Tick) => {}
            (Counter::Short { tokens, age }, Event::Tick) => {
                *age += 1;
                if *age == staircase.step {
                    *age = 0;
                    *tokens += 1;
                    if *tokens == staircase.burst {
                        *self = Counter::Full;
                    }
                }
            }
        }
    }
}

impl Bucket {
    pub(crate) fn new(staircase: Staircase) -> Bucket
        ensures { bucket_of result ≡ full (staircase_of staircase) }
    {
        Bucket {
            staircase,
            counter: Counter::Full,
        }
    }

    pub(crate) fn has_token(&self) -> bool
        ensures { result ≡ has_token (bucket_of self.now) }
    {
        self.tokens() > 0
    }

    // The arrivals that this staircase still allows at the `instants` instants that begin now. The counter is taken apart, and not
    // asked for its tokens and its age: the searches ask this at every length, and on eight tasks of four staircases the one for a
    // misfit took a third longer.
    pub(crate) fn allows(&self, instants: u32) -> u64
        ensures { result ≡ bucket_allows instants (bucket_of self.now) }
    {
        if instants == 0 {
            return 0;
        }
        let later = u64::from(instants - 1);
        match self.counter {
            Counter::Full => self.staircase.burst + later / self.staircase.step,
            Counter::Short { tokens, age } => tokens + (later + age) / self.staircase.step,
        }
    }
}

impl Change for Bucket {
    type Event = Event;

    ghost View = { BucketModel };

    ghost view = { bucket_of };

    ghost after = { bucket_after };

    fn change(&mut self, event: Event) {
        self.counter.step(self.staircase, event);
    }
}
