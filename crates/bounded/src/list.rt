ghost use Rattle.std.specs.Prelude.{◌≤◌, length, ◌≡◌, ⊤};

use std::alloc::AllocError;

// The first `len` slots hold the list's elements in their order; what stands in the other slots means nothing. Slots with a length
// beside them, since an audio thread must not allocate, and since the toolchain's own list of fixed capacity cannot be copied, as
// tasks, counters and lanes are.
pub struct Bounded<T, const N: usize> {
    pub(crate) slots: [T; N],
    pub(crate) len: usize,
    ghost full: { N ≤ length slots },
    ghost within: { len ≤ N },
}

// By hand: no Clone is derived over a generic struct with ghost fields.
impl<T: Copy, const N: usize> Clone for Bounded<T, N> {
    ghost is_clone = { λ x y. y ≡ x };

    ghost is_infallible = { λ _. ⊤ };

    fn clone(&self) -> Result<Bounded<T, N>, AllocError> {
        Ok(*self)
    }
}

impl<T: Copy, const N: usize> Copy for Bounded<T, N> {}
