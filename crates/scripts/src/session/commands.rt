//! The commands of a script.
ghost use Rattle.std.specs.Prelude.{◌≡◌};
ghost use Rattle.scripts.specs.Scenes.{Does, scene};
ghost use Rattle.scripts.specs.Scripts.{Acts, Begins, opening};
ghost use Rattle.scripts.specs.Words.{words_left};
ghost use Rattle.scripts.specs.declared.session.Command.TheVariants.{Lattice, Book, Levels, Policy, Add, Clear};

use crate::arguments::{no_more, only_word};
use crate::draft::{BookPlan, Draft, Owner};
use crate::fault::ScriptFault;
use crate::hex::append_hex;
use crate::lattice_words::lattice;
use crate::session::{Section, Session, Tally};
use crate::transcript::Transcript;
use crate::words::Words;
use layout::lists::OwnedLists;
use levels::refusal::Fault;
use std::alloc::Global;

impl Session {
    /// Nothing done yet.
    pub fn new(heap: Global) -> Session
        ensures { scene result ≡ opening }
    {
        Session {
            heap,
            draft: None,
            source: OwnedLists::new(heap),
            tally: Tally {
                scenarios: 0,
                made: 0,
                refused: 0,
            },
            transcript: Transcript::new(heap),
        }
    }

    pub fn scenario(&mut self, words: Words<'_>) -> Result<(), ScriptFault>
        ensures { Does Begins self.old (words_left words.entry) result self.new }
    {
        let name = only_word(words)?;
        self.transcript.say("scenario ")?;
        self.transcript.copy(name)?;
        self.transcript.say("\n")?;
        self.draft = None;
        self.source.clear();
        self.tally.scenarios = self.tally.scenarios.saturating_add(1);
        Ok(())
    }

    pub fn lattice(&mut self, words: Words<'_>) -> Result<(), ScriptFault>
        ensures { Does (Acts Lattice) self.old (words_left words.entry) result self.new }
    {
        match lattice(self.heap, words)? {
            Ok(shape) => {
                self.transcript.say("lattice: made\n")?;
                self.draft = Some(Draft::new(self.heap, shape));
            }
            Err(fault) => {
                let refusal = fault.refusal();
                self.transcript.say(format_args!("lattice: {refusal}\n"))?;
                self.draft = None;
            }
        }
        Ok(())
    }

    pub fn book(&mut self, words: Words<'_>) -> Result<(), ScriptFault>
        ensures { Does (Acts Book) self.old (words_left words.entry) result self.new }
    {
        let plan = BookPlan::read(words)?;
        if let Some(draft) = &mut self.draft {
            draft.choose(plan);
        }
        Ok(())
    }

    pub fn levels(&mut self, owner: Owner, words: Words<'_>) -> Result<(), ScriptFault>
        ensures { Does (Acts (Levels owner)) self.old (words_left words.entry) result self.new }
    {
        let draft = self.draft.as_mut().ok_or(ScriptFault::WantsLattice)?;
        draft.add_levels(owner, words)
    }

    pub fn policy(&mut self, words: Words<'_>) -> Result<(), ScriptFault>
        ensures { Does (Acts Policy) self.old (words_left words.entry) result self.new }
    {
        no_more(words)?;
        let draft = self.draft.as_ref().ok_or(ScriptFault::WantsLattice)?;
        if draft.say_policy(self.heap, &mut self.transcript)? {
            self.tally.made = self.tally.made.saturating_add(1);
        } else {
            self.tally.refused = self.tally.refused.saturating_add(1);
        }
        Ok(())
    }

    pub fn add(&mut self, section: Section, words: Words<'_>) -> Result<(), ScriptFault>
        ensures { Does (Acts (Add section)) self.old (words_left words.entry) result self.new }
    {
        match section {
            Section::Nodes => append_hex(&mut self.source.nodes, words.rest())?,
            Section::Functions => append_hex(&mut self.source.functions, words.rest())?,
            Section::Apps => append_hex(&mut self.source.apps, words.rest())?,
        }
        Ok(())
    }

    pub fn clear(&mut self, words: Words<'_>) -> Result<(), ScriptFault>
        ensures { Does (Acts Clear) self.old (words_left words.entry) result self.new }
    {
        no_more(words)?;
        self.source.clear();
        Ok(())
    }
}
