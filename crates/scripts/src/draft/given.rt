//! The levels that a script gives a book.
ghost use Rattle.scripts.specs.Drafts.{levels_of, Adds};
ghost use Rattle.scripts.specs.Scenes.{Answered, sketch, given_levels};
ghost use Rattle.scripts.specs.Words.{words_left};

use crate::draft::{Draft, Owner};
use crate::fault::ScriptFault;
use crate::spelled::{Spelled, level};
use crate::words::Words;

// Adds the levels that the words of a line write to the end of a list.
fn add_levels<S: Spelled>(
    shape: &S,
    list: &mut Vec<S::Value>,
    words: Words<'_>,
) -> Result<(), ScriptFault>
    ensures { Adds result (levels_of (S.Spelled.spelled shape.now) (words_left words.entry)) list.old.items list.new.items }
{
    for word in words {
        list.push(level(shape, word).ok_or(ScriptFault::NoLevel)?)?;
    }
    Ok(())
}

impl Draft {
    /// Adds the levels of a line to those of the types, or of the figures.
    pub fn add_levels(&mut self, owner: Owner, words: Words<'_>) -> Result<(), ScriptFault>
        ensures { Answered result (given_levels owner (sketch self.old) (words_left words.entry)) (sketch self.new) }
    {
        self.plan.ok_or(ScriptFault::WantsBook)?;
        match owner {
            Owner::Types => add_levels(&self.shape, &mut self.levels, words),
            Owner::Figures => add_levels(&self.shape, &mut self.figures, words),
        }
    }
}
