//! The words that follow a command, taken one by one.
ghost use Rattle.std.specs.Prelude.{◌≡◌, Ok, Err, MatchResult};
ghost use Rattle.scripts.specs.Drafts.{first, number_first, last, ReadsFirst};
ghost use Rattle.scripts.specs.Scenes.{only_word};
ghost use Rattle.scripts.specs.Words.{words_left};

use crate::fault::ScriptFault;
use crate::number::number;
use crate::words::Words;

/// The next word.
pub fn next_word<'a>(words: &mut Words<'a>) -> Result<&'a [u8], ScriptFault>
    ensures { ReadsFirst (λ word. word.now) result (first Ok (words_left words.old)) (words_left words.new) }
{
    words.next().ok_or(ScriptFault::MissingWord)
}

/// The number that the next word writes.
pub fn next_number(words: &mut Words<'_>) -> Result<u32, ScriptFault>
    ensures { ReadsFirst (λ n. n) result (number_first (words_left words.old)) (words_left words.new) }
{
    number(next_word(words)?).ok_or(ScriptFault::NoNumber)
}

/// That no word is left.
pub fn no_more(mut words: Words<'_>) -> Result<(), ScriptFault>
    ensures { result ≡ last tt (words_left words.entry) }
{
    if words.next().is_some() {
        return Err(ScriptFault::ExtraWord);
    }
    Ok(())
}

/// The one word that is left.
pub fn only_word<'a>(mut words: Words<'a>) -> Result<&'a [u8], ScriptFault>
    ensures { MatchResult result (λ word. only_word (words_left words.entry) ≡ Ok word.now) (λ e. only_word (words_left words.entry) ≡ Err e) }
{
    let word = next_word(&mut words)?;
    no_more(words)?;
    Ok(word)
}
