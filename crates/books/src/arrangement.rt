//! How the levels of types stand in a list.
ghost use Rattle.std.specs.Prelude.{◌≡◌};
ghost use Rattle.books.specs.Places.{Places, AreInList};

/// An arrangement of the levels of types in a list.
pub trait Arrangement {
    // The length of a list, and the places in it.
    ghost places: { Places };

    /// The length of a list for so many sets and types.
    fn length(sets: u8, types: u16) -> usize
        ensures { result ≡ places.length sets types };

    /// The place of the level of a type at a set, of so many sets.
    fn place(sets: u8, ty: u8, set: u8) -> usize
        ensures { result ≡ places.place sets ty set };

    // Each type has a place in the list at each set.
    ghost in_list: { AreInList places };
}
