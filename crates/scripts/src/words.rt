//! A line without its comment, and its words.
ghost use Rattle.std.specs.Prelude.{◌≡◌, Some};
ghost use Rattle.std.specs.Iterator.{YieldsFirstRef, item_count};
ghost use Rattle.std.specs.List.{slice_get};
ghost use Rattle.std.specs.Str.{bytes_eq};
ghost use Rattle.scripts.specs.Pieces.{pieces_of};
ghost use Rattle.scripts.specs.Words.{words_of, words_left};

use crate::pieces::cut;

/// The words of a line that are still to come. A copy looks ahead.
#[derive(Clone, Copy)]
pub struct Words<'a> {
    rest: &'a [u8],
}

/// A line without its comment, which `#` begins.
pub fn without_comment(line: &[u8]) -> &[u8]
    ensures { Some result.now ≡ slice_get (pieces_of 35 line.now) 0 }
{
    cut(line, b'#').0
}

/// Whether a word is this text. A text in the code is an array, which `==` with a word refuses.
pub fn says(word: &[u8], text: &[u8]) -> bool
    ensures { result ≡ bytes_eq word.now text.now }
{
    word == text
}

impl<'a> Words<'a> {
    /// All words of a line.
    pub fn new(line: &'a [u8]) -> Words<'a>
        ensures { words_left result ≡ words_of line.now }
    {
        Words { rest: line }
    }

    /// What is left of the line.
    pub fn rest(&self) -> &'a [u8]
        ensures { words_of result.now ≡ words_left self.now }
    {
        self.rest
    }
}

impl<'a> Iterator for Words<'a> {
    type Item = &'a [u8];

    ghost next_gives = { YieldsFirstRef words_left };

    ghost remaining = { item_count words_left };

    fn next(&mut self) -> Option<&'a [u8]> {
        let start = self.rest.iter().position(|x| *x != b' ')?;
        let (word, after) = cut(&self.rest[start..], b' ');
        self.rest = after.unwrap_or(b"");
        Some(word)
    }
}
