//! Reading which book is chosen.
ghost use Rattle.std.specs.Prelude.{◌≡◌};
ghost use Rattle.scripts.specs.Drafts.{kind_of, kind_first, plan_of, ReadsFirst};
ghost use Rattle.scripts.specs.Words.{words_left};

use crate::arguments::{next_number, next_word, no_more};
use crate::draft::{BookKind, BookPlan};
use crate::fault::ScriptFault;
use crate::words::Words;
use books::numbers::Numbers;

impl TryFrom<&[u8]> for BookKind {
    type Error = ScriptFault;

    ghost try_from_gives = { λ word r. r ≡ kind_of word.now };

    fn try_from(word: &[u8]) -> Result<BookKind, ScriptFault> {
        // Here alone is a word turned into a kind: no derive reads a variant from a text.
        match word {
            b"row" => Ok(BookKind::Row),
            b"fixed" => Ok(BookKind::Fixed),
            _ => Err(ScriptFault::NoBook),
        }
    }
}

fn next_kind(words: &mut Words<'_>) -> Result<BookKind, ScriptFault>
    ensures { ReadsFirst (λ kind. kind) result (kind_first (words_left words.old)) (words_left words.new) }
{
    BookKind::try_from(next_word(words)?)
}

impl BookPlan {
    /// The book that the words of a line choose.
    pub fn read(mut words: Words<'_>) -> Result<BookPlan, ScriptFault>
        ensures { result ≡ plan_of (words_left words.entry) }
    {
        let plan = BookPlan {
            kind: next_kind(&mut words)?,
            numbers: Numbers {
                permissions: next_number(&mut words)?,
                types: next_number(&mut words)?,
                figures: next_number(&mut words)?,
            },
        };
        no_more(words)?;
        Ok(plan)
    }
}
