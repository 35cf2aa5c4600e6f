ghost use Rattle.std.specs.Prelude.{◌≡◌, ◌+◌, ◌^◌, ◌<◌, ◌≤◌, ◌↔◌, List, [], ◌∷◌, ◌++◌, length, IsTrue};
ghost use Rattle.lanes.specs.Queues.{first_of, rest};
ghost use Rattle.lanes.specs.Rings.{items};

use std::marker::Model;

// A queue of up to `N` items, on no heap as the library's is: `len` of them, from the row `first` on and then from the start.
#[derive(Drop)]
pub(crate) struct Ring<T, const N: usize> {
    rows: [T; N],
    first: usize,
    len: usize,
}

// Clauses see the items, the first first.
impl<T, const N: usize> Model for Ring<T, N> {
    ghost Value = { List T };

    ghost view = { λ r. items r.first r.len r.rows };

    ghost invariant = { λ r. (r.first < N) × (r.len ≤ N) × (N + N ≤ 2 ^ 64) };
}

impl<T: Copy + Default, const N: usize> Ring<T, N> {
    // A ring that holds nothing.
    pub(crate) fn new() -> Ring<T, N>
        requires some { 0 < N }
        requires fits { N + N ≤ 2 ^ 64 }
        ensures { result ≡ [] }
    {
        Ring {
            rows: [T::default(); N],
            first: 0,
            len: 0,
        }
    }

    // Whether no row is left.
    pub(crate) fn is_full(&self) -> bool
        ensures full { IsTrue result ↔ (length self.now ≡ N) }
        ensures within { length self.now ≤ N }
    {
        self.len == N
    }

    // Adds an item at the end. There is a row left for it.
    pub(crate) fn push(&mut self, item: T)
        requires { length self.old < N }
        ensures { self.new ≡ self.old ++ (item ∷ []) }
    {
        self.rows[(self.first + self.len) % N] = item;
        self.len += 1;
    }

    // The item at the front, if there is one.
    pub(crate) fn front(&self) -> Option<T>
        ensures { result ≡ first_of self.now }
    {
        if self.len == 0 {
            return None;
        }
        Some(self.rows[self.first])
    }

    // Takes the item at the front off.
    pub(crate) fn pop_front(&mut self) -> Option<T>
        ensures front { result ≡ first_of self.old }
        ensures after { self.new ≡ rest self.old }
    {
        let front = self.front()?;
        self.first = (self.first + 1) % N;
        self.len -= 1;
        Some(front)
    }
}
