//! Type books: a level for each type and permission set, and one for each figure.
#![tactic(auto)]

ghost use Rattle.std.specs.Prelude.{◌≡◌};
ghost use Rattle.books.specs.Book.{Book, Limits};

pub mod arrangement;
pub mod fault;
pub mod fixed;
pub mod lent;
pub mod list;
pub mod numbers;
pub mod row;

/// A book of types. With n permissions a permission set is a number below 2^n whose bit j stands for permission j.
/// A type gives one level for each set.
pub trait TypeBook {
    type Level: Copy;

    // The numbers and the levels, unchanged by questions.
    ghost meaning: { Self → Book Self.Level };

    fn permissions(&self) -> u8
        ensures { result ≡ (meaning self.now).permissions };

    fn types(&self) -> u16
        ensures { result ≡ (meaning self.now).types };

    fn figures(&self) -> u8
        ensures { result ≡ (meaning self.now).figures };

    /// The level of a type at a permission set.
    fn level(&self, ty: u8, set: u8) -> Option<Self::Level>
        ensures { result ≡ (meaning self.now).level ty set };

    /// The level of a figure.
    fn figure_level(&self, figure: u8) -> Option<Self::Level>
        ensures { result ≡ (meaning self.now).figure figure };

    // The numbers keep their limits, and beyond them a level is absent.
    ghost limited: { (s : Self) → Limits (meaning s) };
}
