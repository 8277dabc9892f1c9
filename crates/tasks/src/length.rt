// Which of two staircases is the longer one, and which of several things has the longest.
ghost use Rattle.std.specs.Prelude.{◌≡◌, if◌then◌else◌};
ghost use Rattle.tasks.specs.Staircase.{StaircaseModel, longer, longest_by, staircase_of};

use crate::staircase::Staircase;
use std::cmp::Reverse;

impl Staircase {
    // Whether this one is the longer: it has the larger step or, at equal steps, the smaller burst.
    pub fn is_longer_than(self, other: Staircase) -> bool
        ensures { result ≡ longer (staircase_of self) (staircase_of other) }
    {
        (self.step, Reverse(self.burst)) > (other.step, Reverse(other.burst))
    }
}

// A thing that has a staircase: the staircase itself, or one with its counter.
pub trait HasStaircase {
    ghost staircase: { Self → StaircaseModel };

    fn staircase(&self) -> Staircase
        ensures { staircase_of result ≡ staircase self.now };
}

impl HasStaircase for Staircase {
    ghost staircase = { staircase_of };

    fn staircase(&self) -> Staircase {
        *self
    }
}

// The one with the longest staircase, of the first and those after it; among equals the first.
pub fn longest<T: HasStaircase + Copy>(first: T, rest: &[T]) -> T
    ensures { result ≡ longest_by T.staircase first rest.now }
{
    rest.iter()
        .fold(first, |longer, other| longer_of(longer, *other))
}

// The second, if its staircase is the longer one, and otherwise the first.
fn longer_of<T: HasStaircase + Copy>(first: T, second: T) -> T
    ensures { result ≡ (if longer (T.staircase second) (T.staircase first) then second else first) }
{
    if second.staircase().is_longer_than(first.staircase()) {
        second
    } else {
        first
    }
}
