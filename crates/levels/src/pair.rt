//! Two lattices side by side.
ghost use Rattle.std.specs.Prelude.{◌≡◌};
ghost use Rattle.levels.specs.Pair.{both};
ghost use Rattle.levels.specs.PairLaws.{pair_laws};

use crate::Lattice;

/// A lattice whose level is one level from each side. A side may be a pair again.
#[derive(Clone, Copy)]
pub struct Pair<A, B> {
    left: A,
    right: B,
}

impl<A, B> Pair<A, B> {
    pub fn new(left: A, right: B) -> Pair<A, B>
        ensures left { result.left ≡ left }
        ensures right { result.right ≡ right }
    {
        Pair { left, right }
    }

    pub fn left(&self) -> &A
        ensures { result.now ≡ self.now.left }
    {
        &self.left
    }

    pub fn right(&self) -> &B
        ensures { result.now ≡ self.now.right }
    {
        &self.right
    }
}

impl<A: Lattice, B: Lattice> Lattice for Pair<A, B> {
    type Level = (A::Level, B::Level);

    ghost meaning = { λ s. both (A.Lattice.meaning s.left) (B.Lattice.meaning s.right) };

    ghost lawful = { λ s. pair_laws (A.Lattice.lawful s.left) (B.Lattice.lawful s.right) };

    fn is_level(&self, a: (A::Level, B::Level)) -> bool {
        self.left.is_level(a.0) && self.right.is_level(a.1)
    }

    fn le(&self, a: (A::Level, B::Level), b: (A::Level, B::Level)) -> bool {
        self.left.le(a.0, b.0) && self.right.le(a.1, b.1)
    }

    // Join and meet differ in the sides' method alone: one function for both would take a closure for each side, no plainer.
    fn join(&self, a: (A::Level, B::Level), b: (A::Level, B::Level)) -> (A::Level, B::Level) {
        if self.is_level(a) && self.is_level(b) {
            (self.left.join(a.0, b.0), self.right.join(a.1, b.1))
        } else {
            self.lowest()
        }
    }

    fn meet(&self, a: (A::Level, B::Level), b: (A::Level, B::Level)) -> (A::Level, B::Level) {
        if self.is_level(a) && self.is_level(b) {
            (self.left.meet(a.0, b.0), self.right.meet(a.1, b.1))
        } else {
            self.lowest()
        }
    }

    fn lowest(&self) -> (A::Level, B::Level) {
        (self.left.lowest(), self.right.lowest())
    }

    fn highest(&self) -> (A::Level, B::Level) {
        (self.left.highest(), self.right.highest())
    }
}
