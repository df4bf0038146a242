//! The numbers of a book.
ghost use Rattle.std.specs.Prelude.{◌≡◌};
ghost use Rattle.books.specs.Lists.{within_limits};

/// How many permissions, types and figures a book is to have.
#[derive(Clone, Copy, PartialEq, Eq, Debug)]
pub struct Numbers {
    pub permissions: u32,
    pub types: u32,
    pub figures: u32,
}

impl Numbers {
    /// At most 6 permissions, 1 to 256 types and at most 32 figures.
    pub fn within_limits(self) -> bool
        ensures { result ≡ within_limits self }
    {
        self.permissions <= 6 && (1..=256).contains(&self.types) && self.figures <= 32
    }
}
