ghost use Rattle.std.specs.Prelude.{◌≤◌};

use std::alloc::AllocError;

/// A list of at most `N` entries in memory of its own.
// Kept: an array with a length, since a source has no heap and is copied; the kit's list of fixed memory isn't.
#[derive(Copy)]
pub(crate) struct Table<T, const N: usize> {
    entries: [T; N],
    len: usize,
    ghost few: { len ≤ N },
}

// Kept: no derive writes `Clone` over a ghost field in a struct with type parameters.
impl<T: Copy, const N: usize> Clone for Table<T, N> {
    ghost use Rattle.std.specs.Prelude.{◌≡◌, ⊤};

    ghost is_clone = { λ s r. r ≡ s };

    ghost is_infallible = { λ _. ⊤ };

    fn clone(&self) -> Result<Table<T, N>, AllocError> {
        Ok(*self)
    }
}

/// A table has no room for one more entry.
#[derive(Clone, Copy, Debug, PartialEq, Eq)]
pub(crate) struct Full;

impl<T: Copy, const N: usize> Table<T, N> {
    ghost use Rattle.std.specs.Prelude.{◌≡◌, ◌<◌, ◌++◌, [], ◌∷◌, length, MatchResult};
    ghost use Rattle.railway.specs.Tables.{listed};

    /// The table without entries. What `blank` is makes no difference: it fills the memory.
    pub(crate) fn new(blank: T) -> Table<T, N>
        ensures { listed result ≡ [] }
    {
        Table {
            entries: [blank; N],
            len: 0,
        }
    }

    /// The entries.
    pub(crate) fn as_slice(&self) -> &[T]
        ensures { result.now ≡ listed self.now }
    {
        &self.entries[..self.len]
    }

    /// Adds an entry behind the others.
    pub(crate) fn push(&mut self, entry: T)
        requires { length (listed self.old) < N }
        ensures { listed self.new ≡ listed self.old ++ entry ∷ [] }
    {
        self.entries[self.len] = entry;
        self.len += 1;
    }

    /// Adds an entry behind the others, where there is room; else nothing changes.
    pub(crate) fn try_push(&mut self, entry: T) -> Result<(), Full>
        ensures { MatchResult result (λ _. listed self.new ≡ listed self.old ++ entry ∷ []) (λ _. (length (listed self.old) ≡ N) × (listed self.new ≡ listed self.old)) }
    {
        if self.len == N {
            return Err(Full);
        }
        self.push(entry);
        Ok(())
    }
}
