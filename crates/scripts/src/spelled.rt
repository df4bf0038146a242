//! How levels are written in scripts and transcripts.
ghost use Rattle.std.specs.Prelude.{◌≡◌, ℕ, List, ◌++◌, decimal, Option, OnOk};
ghost use Rattle.std.specs.Option.{option_map};
ghost use Rattle.scripts.specs.Spelled.{spelled_tags, spelled_rank, spelled_pair, spelled_either, by_choice, pair_text, with_rest, level_of};

use crate::parts::Parts;
use crate::transcript::Transcript;
use levels::either::Either;
use levels::pair::Pair;
use levels::table::{OrderTable, Rank};
use levels::tags::{TagSet, Tags};
use std::alloc::AllocError;

/// The level that a word writes.
pub fn level<S: Spelled>(lattice: &S, word: &[u8]) -> Option<S::Value>
    ensures { result ≡ level_of (S.spelled lattice.now) word.now }
{
    let parts = Parts::read(word)?;
    match lattice.spelled(parts.numbers()) {
        Some((level, [])) => Some(level),
        _ => None,
    }
}

/// A lattice whose levels can be written: by one number, or one for each side with slashes between.
pub trait Spelled {
    type Value: Copy;

    // The level that the first of a list of numbers write, with the numbers that are left; and the text of a level.
    ghost spelled: { Self → List ℕ → Option (Self.Value × List ℕ) };

    ghost text: { Self.Value → List ℕ };

    fn spelled<'a>(&self, numbers: &'a [u32]) -> Option<(Self::Value, &'a [u32])>
        ensures { option_map with_rest result ≡ spelled self.now numbers.now };

    // Not `Display`: a pair's level is a tuple, and none but std may write an impl for a tuple.
    fn say(value: Self::Value, transcript: &mut Transcript) -> Result<(), AllocError>
        ensures { OnOk result (transcript.new ≡ transcript.old ++ text value) };
}

impl Spelled for Tags {
    type Value = TagSet;

    ghost spelled = { λ _ numbers. spelled_tags numbers };

    ghost text = { λ value. decimal value.bits };

    fn spelled<'a>(&self, numbers: &'a [u32]) -> Option<(TagSet, &'a [u32])> {
        let (bits, rest) = numbers.split_first()?;
        Some((TagSet { bits: *bits }, rest))
    }

    fn say(value: TagSet, transcript: &mut Transcript) -> Result<(), AllocError> {
        transcript.say(value.bits)
    }
}

impl Spelled for OrderTable {
    type Value = Rank;

    ghost spelled = { λ _ numbers. spelled_rank numbers };

    ghost text = { λ value. decimal value.number };

    fn spelled<'a>(&self, numbers: &'a [u32]) -> Option<(Rank, &'a [u32])> {
        let (number, rest) = numbers.split_first()?;
        let number = u8::try_from(*number).ok()?;
        Some((Rank { number }, rest))
    }

    fn say(value: Rank, transcript: &mut Transcript) -> Result<(), AllocError> {
        transcript.say(value.number)
    }
}

impl<A: Spelled, B: Spelled> Spelled for Pair<A, B> {
    type Value = (A::Value, B::Value);

    ghost spelled = { λ s numbers. spelled_pair (A.Spelled.spelled s.left) (B.Spelled.spelled s.right) numbers };

    ghost text = { λ value. pair_text A.Spelled.text B.Spelled.text value };

    fn spelled<'a>(&self, numbers: &'a [u32]) -> Option<((A::Value, B::Value), &'a [u32])> {
        let (left, rest) = self.left().spelled(numbers)?;
        let (right, rest) = self.right().spelled(rest)?;
        Some(((left, right), rest))
    }

    fn say(value: (A::Value, B::Value), transcript: &mut Transcript) -> Result<(), AllocError> {
        A::say(value.0, transcript)?;
        transcript.say("/")?;
        B::say(value.1, transcript)
    }
}

impl<A: Spelled, B: Spelled> Spelled for Either<A, B> {
    type Value = Either<A::Value, B::Value>;

    ghost spelled = { λ s numbers. spelled_either A.Spelled.spelled B.Spelled.spelled s numbers };

    ghost text = { λ value. by_choice A.Spelled.text B.Spelled.text value };

    fn spelled<'a>(&self, numbers: &'a [u32]) -> Option<(Either<A::Value, B::Value>, &'a [u32])> {
        // By arms: with `map` in each the borrow checker has no proof of it yet.
        match self {
            Either::Left(s) => {
                let (level, rest) = s.spelled(numbers)?;
                Some((Either::Left(level), rest))
            }
            Either::Right(s) => {
                let (level, rest) = s.spelled(numbers)?;
                Some((Either::Right(level), rest))
            }
        }
    }

    fn say(
        value: Either<A::Value, B::Value>,
        transcript: &mut Transcript,
    ) -> Result<(), AllocError> {
        match value {
            Either::Left(level) => A::say(level, transcript),
            Either::Right(level) => B::say(level, transcript),
        }
    }
}
