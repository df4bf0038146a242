//! A lattice that is one of two, chosen when it is made.

pub mod lattice;

/// One of two kinds. As a lattice it has the levels of the one that was chosen, and those of the other are none.
// No `Result`, since neither side is a failure; and not the kit's `Either`, whose crate would come with forty methods, of which
// a lattice wants none.
#[derive(Clone, Copy, PartialEq, Eq, Debug)]
pub enum Either<A, B> {
    Left(A),
    Right(B),
}
