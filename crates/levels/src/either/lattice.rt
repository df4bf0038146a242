//! The chosen lattice's answers.
ghost use Rattle.std.specs.Prelude.{◌≡◌};
ghost use Rattle.levels.specs.Either.{chosen};
ghost use Rattle.levels.specs.EitherLaws.{chosen_laws};

use crate::Lattice;
use crate::either::Either;

impl<A: Lattice, B: Lattice> Lattice for Either<A, B> {
    type Level = Either<A::Level, B::Level>;

    ghost meaning = { λ s. chosen A.Lattice.meaning B.Lattice.meaning s };

    ghost lawful = { λ s. chosen_laws _ _ A.Lattice.lawful B.Lattice.lawful s };

    fn is_level(&self, a: Either<A::Level, B::Level>) -> bool {
        match (self, a) {
            (Either::Left(s), Either::Left(x)) => s.is_level(x),
            (Either::Right(s), Either::Right(x)) => s.is_level(x),
            _ => false,
        }
    }

    fn le(&self, a: Either<A::Level, B::Level>, b: Either<A::Level, B::Level>) -> bool {
        match (self, a, b) {
            (Either::Left(s), Either::Left(x), Either::Left(y)) => s.le(x, y),
            (Either::Right(s), Either::Right(x), Either::Right(y)) => s.le(x, y),
            _ => false,
        }
    }

    // Join and meet, lowest and highest differ in the sides' method alone: one function would take a closure for each side,
    // no plainer.
    fn join(
        &self,
        a: Either<A::Level, B::Level>,
        b: Either<A::Level, B::Level>,
    ) -> Either<A::Level, B::Level> {
        match (self, a, b) {
            (Either::Left(s), Either::Left(x), Either::Left(y)) => Either::Left(s.join(x, y)),
            (Either::Right(s), Either::Right(x), Either::Right(y)) => Either::Right(s.join(x, y)),
            _ => self.lowest(),
        }
    }

    fn meet(
        &self,
        a: Either<A::Level, B::Level>,
        b: Either<A::Level, B::Level>,
    ) -> Either<A::Level, B::Level> {
        match (self, a, b) {
            (Either::Left(s), Either::Left(x), Either::Left(y)) => Either::Left(s.meet(x, y)),
            (Either::Right(s), Either::Right(x), Either::Right(y)) => Either::Right(s.meet(x, y)),
            _ => self.lowest(),
        }
    }

    fn lowest(&self) -> Either<A::Level, B::Level> {
        match self {
            Either::Left(s) => Either::Left(s.lowest()),
            Either::Right(s) => Either::Right(s.lowest()),
        }
    }

    fn highest(&self) -> Either<A::Level, B::Level> {
        match self {
            Either::Left(s) => Either::Left(s.highest()),
            Either::Right(s) => Either::Right(s.highest()),
        }
    }
}
