ghost use Rattle.std.specs.Prelude.{◌≤◌};

use std::alloc::AllocError;

// At most `N` values, in their order. No vector of the library is `Copy`, as a command is; and `Clone` is derived on no generic struct with a ghost field.
pub struct Row<T, const N: usize> {
    items: [T; N],
    len: usize,
    ghost fits: { len ≤ N },
}

impl<T: Copy, const N: usize> Clone for Row<T, N> {
    ghost use Rattle.std.specs.Prelude.{◌≡◌, ⊤};

    ghost is_clone = { λ x y. y ≡ x };

    ghost is_infallible = { λ _. ⊤ };

    fn clone(&self) -> Result<Self, AllocError> {
        Ok(*self)
    }
}

impl<T: Copy, const N: usize> Copy for Row<T, N> {}

impl<T: Copy, const N: usize> Row<T, N> {
    ghost use Rattle.std.specs.Prelude.{◌≡◌, ◌<◌, ◌==◌, [], ◌∷◌, ◌++◌, length};
    ghost use Rattle.text.specs.Rows.{row_of};

    // A row of no values, whose places hold `blank`.
    pub fn empty(blank: T) -> Row<T, N>
        ensures { row_of result ≡ [] }
    {
        Row {
            items: [blank; N],
            len: 0,
        }
    }

    pub fn is_full(&self) -> bool
        ensures { result ≡ (length (row_of self.now) == N) }
    {
        self.len == N
    }

    pub fn push(&mut self, item: T)
        requires { length (row_of self.old) < N }
        ensures { row_of self.new ≡ row_of self.old ++ (item ∷ []) }
    {
        let len = self.len;
        self.items[len] = item;
        self.len = len + 1;
    }

    pub fn as_slice(&self) -> &[T]
        ensures { result.now ≡ row_of self.now }
    {
        &self.items[..self.len]
    }
}
