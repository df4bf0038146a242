//! What stands in a byte list entry after entry, each of the same number of bytes.
ghost use Rattle.std.specs.Prelude.{◌≡◌, ℕ, ◌/◌, ◌≤◌, List, None, Option, length, slice_index_or};
ghost use Rattle.layout.specs.Decoding.{entries_of};

/// A node or a function, which is written in so many bytes.
pub trait Entry<const WIDTH: usize>: Copy {
    // What stands where no entry is.
    ghost absent: { Self };

    // The entry that the bytes have at a place, if they are there and are one.
    ghost at: { List ℕ → ℕ → Option Self };

    // How an entry is written.
    ghost bytes: { Self → List ℕ };

    fn absent() -> Self
        ensures { result ≡ absent };

    fn at(list: &[u8], i: u16) -> Option<Self>
        ensures { result ≡ at list.now i };

    fn bytes(self) -> [u8; WIDTH]
        ensures { result ≡ bytes self };

    // No entry begins past the whole ones that the bytes hold.
    ghost past: { (xs : List ℕ) (i : ℕ) → length xs / WIDTH ≤ i → at xs i ≡ None };

    /// The entry of a number among those that the bytes are, and the absent one where there is none.
    final fn at_or_absent(list: &[u8], i: u16) -> Self
        ensures { result ≡ slice_index_or (entries_of WIDTH at absent list.now) i absent }
    {
        Self::at(list, i).unwrap_or(Self::absent())
    }

    /// The entry of a number in a list, and the absent one where there is none.
    final fn get_or_absent(entries: &[Self], i: u16) -> Self
        ensures { result ≡ slice_index_or entries.now i absent }
    {
        entries.get(i as usize).copied().unwrap_or(Self::absent())
    }
}
