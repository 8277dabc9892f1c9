ghost use Rattle.std.specs.Prelude.{◌≡◌, ◌+◌, ◌-◌, ◌<◌, ◌≤◌, [], ◌++◌, map, length, take, nat_lt, if◌then◌else◌, Ok, Err};
ghost use Rattle.bounded.specs.List.{items, pushed};

use crate::change::Change;
use crate::list::Bounded;

impl<T: Copy, const N: usize> Bounded<T, N> {
    // The empty list. `fill` is any value: it stands in the slots that hold no element.
    pub fn new(fill: T) -> Bounded<T, N>
        ensures { items result ≡ [] }
    {
        Bounded {
            slots: [fill; N],
            len: 0,
        }
    }

    pub fn as_slice(&self) -> &[T]
        ensures value { result.now ≡ items self.now }
        ensures bound { length result.now ≤ N }
    {
        &self.slots[..self.len]
    }

    // Adds an element at the end. A full list stays as it is, and the element is handed back.
    pub fn push(&mut self, element: T) -> Result<(), T>
        ensures answer { result ≡ (if nat_lt (length (items self.old)) N then Ok tt else Err element) }
        ensures after { items self.new ≡ pushed N (items self.old) element }
    {
        if self.len >= N {
            return Err(element);
        }
        self.slots[self.len] = element;
        self.len += 1;
        Ok(())
    }

    // Adds these elements at the end, in their order, as far as there is room for them.
    pub fn extend(&mut self, elements: &[T])
        ensures { items self.new ≡ take N (items self.old ++ elements.now) }
    {
        for element in elements {
            let _ = self.push(*element);
        }
    }
}

impl<T: Change + Copy, const N: usize> Bounded<T, N>
where
    T::Event: Copy,
{
    // The event changes each element.
    pub fn change_each(&mut self, event: T::Event)
        ensures { map T.Change.view (items self.new) ≡ map (T.Change.after event) (map T.Change.view (items self.old)) }
    {
        for element in &mut self.slots[..self.len] {
            element.change(event);
        }
    }
}
