//! The numbers of a level: one to four, with slashes between.
ghost use Rattle.std.specs.Prelude.{◌≡◌, ◌<◌, ◌≤◌, [], ◌∷◌, ◌++◌, length, MatchOption};
ghost use Rattle.std.specs.Option.{option_map};
ghost use Rattle.scripts.specs.Parts.{parts_of, numbers_in};

use crate::number::number;
use crate::pieces::Pieces;

/// The numbers of a level.
// Fixed memory with its count: it is `Copy` and wants no heap, which neither a `Vec` nor the kit's `ArrayVec` is.
#[derive(Clone, Copy)]
pub struct Parts {
    numbers: [u32; 4],
    count: usize,
}

impl Parts {
    fn new() -> Parts
        ensures { numbers_in result ≡ [] }
    {
        Parts {
            numbers: [0; 4],
            count: 0,
        }
    }

    // Adds a number to the end, if there is room.
    fn add(&mut self, number: u32) -> Option<()>
        ensures { MatchOption result (4 ≤ length (numbers_in self.old)) (λ _. (length (numbers_in self.old) < 4) × (numbers_in self.new ≡ numbers_in self.old ++ (number ∷ []))) }
    {
        if self.count >= 4 {
            return None;
        }
        self.numbers[self.count] = number;
        self.count += 1;
        Some(())
    }

    /// The numbers, in their order.
    pub fn numbers(&self) -> &[u32]
        ensures { result.now ≡ numbers_in self.now }
    {
        &self.numbers[0..self.count.min(4)]
    }

    /// The numbers between the slashes of a word, where each piece is a number and there are at most four.
    pub fn read(word: &[u8]) -> Option<Parts>
        ensures { option_map numbers_in result ≡ parts_of word.now }
    {
        let mut parts = Parts::new();
        for piece in Pieces::new(word, b'/') {
            parts.add(number(piece)?)?;
        }
        Some(parts)
    }
}
