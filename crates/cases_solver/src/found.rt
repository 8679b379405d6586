// What a search has found so far: at most N items, of which the first leads to the others.

ghost use Rattle.std.specs.Prelude.{◌≡◌, ◌≤◌, ⊤};

use std::alloc::AllocError;

pub struct Found<T, const N: usize> {
    list: [T; N],
    count: usize,
    ghost within: { count ≤ N },
}

impl<T: Copy, const N: usize> Copy for Found<T, N> {}

impl<T: Copy, const N: usize> Clone for Found<T, N> {
    ghost is_clone = { λ x y. y ≡ x };

    ghost is_infallible = { λ _. ⊤ };

    fn clone(&self) -> Result<Self, AllocError> {
        Ok(*self)
    }
}

impl<T: Copy + PartialEq + Drop, const N: usize> Found<T, N> {
    pub fn new(first: T) -> Self
        requires { 1 ≤ N }
    {
        Found {
            list: [first; N],
            count: 1,
        }
    }

    pub fn items(&self) -> &[T] {
        &self.list[..self.count]
    }

    // Adds an item, if it is new and there is room.
    pub fn add(&mut self, item: T) {
        if self.count < N && !self.items().contains(&item) {
            self.list[self.count] = item;
            self.count += 1;
        }
    }
}
