//! The ground floor: what a refusal is, scans over numbers, and the lattices of levels of secrecy.
#![tactic(auto)]

ghost use Rattle.std.specs.Prelude.{◌≡◌};
ghost use Rattle.levels.specs.Order.{Order, Laws};

pub mod either;
mod marks;
pub mod pair;
pub mod refusal;
pub mod scan;
pub mod table;
pub mod tags;

/// Levels of secrecy and their order. A level is at or below another where whoever may know the other may know it.
pub trait Lattice {
    type Level: Copy;

    // The levels, their order and what follows from it.
    ghost meaning: { Self → Order Self.Level };

    /// Whether a value is one of the levels.
    fn is_level(&self, a: Self::Level) -> bool
        ensures { result ≡ (meaning self.now).is_level a };

    /// Whether `a` is at or below `b`.
    fn le(&self, a: Self::Level, b: Self::Level) -> bool
        ensures { result ≡ (meaning self.now).le a b };

    /// The least level at or above both.
    fn join(&self, a: Self::Level, b: Self::Level) -> Self::Level
        ensures { result ≡ (meaning self.now).join a b };

    /// The greatest level at or below both.
    fn meet(&self, a: Self::Level, b: Self::Level) -> Self::Level
        ensures { result ≡ (meaning self.now).meet a b };

    fn lowest(&self) -> Self::Level
        ensures { result ≡ (meaning self.now).low };

    fn highest(&self) -> Self::Level
        ensures { result ≡ (meaning self.now).high };

    // What each lattice shows of its order, and all that may be used of it.
    ghost lawful: { (s : Self) → Laws (meaning s) };
}
