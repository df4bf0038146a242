//! Lines, and the commands that they name.
ghost use Rattle.std.specs.Prelude.{◌≡◌, ◌++◌, OnOk};
ghost use Rattle.scripts.specs.Scenes.{Does, scene};
ghost use Rattle.scripts.specs.Scripts.{command_of, Acts, Obeys, line_words, closing};
ghost use Rattle.scripts.specs.Words.{words_left};

use crate::draft::Owner;
use crate::fault::ScriptFault;
use crate::session::{Command, Section, Session, Tally};
use crate::transcript::Transcript;
use crate::words::{Words, says, without_comment};
use std::alloc::AllocError;

impl TryFrom<&[u8]> for Command {
    type Error = ScriptFault;

    ghost try_from_gives = { λ word r. r ≡ command_of word.now };

    fn try_from(word: &[u8]) -> Result<Command, ScriptFault> {
        // A `match` of the word was tried: at texts of six bytes and more its proof did not close.
        if says(word, b"lattice") {
            Ok(Command::Lattice)
        } else if says(word, b"book") {
            Ok(Command::Book)
        } else if says(word, b"levels") {
            Ok(Command::Levels(Owner::Types))
        } else if says(word, b"figures") {
            Ok(Command::Levels(Owner::Figures))
        } else if says(word, b"policy") {
            Ok(Command::Policy)
        } else if says(word, b"nodes") {
            Ok(Command::Add(Section::Nodes))
        } else if says(word, b"functions") {
            Ok(Command::Add(Section::Functions))
        } else if says(word, b"apps") {
            Ok(Command::Add(Section::Apps))
        } else if says(word, b"clear") {
            Ok(Command::Clear)
        } else {
            Err(ScriptFault::UnknownCommand)
        }
    }
}

impl Session {
    // A command of a scenario that has begun.
    fn act(&mut self, command: Command, words: Words<'_>) -> Result<(), ScriptFault>
        ensures { Does (Acts command) self.old (words_left words.entry) result self.new }
    {
        match command {
            Command::Lattice => self.lattice(words),
            Command::Book => self.book(words),
            Command::Levels(owner) => self.levels(owner, words),
            Command::Policy => self.policy(words),
            Command::Add(section) => self.add(section, words),
            Command::Clear => self.clear(words),
        }
    }

    /// Obeys one line of a script.
    pub fn obey(&mut self, line: &[u8]) -> Result<(), ScriptFault>
        ensures { Does Obeys self.old (line_words line.now) result self.new }
    {
        let mut words = Words::new(without_comment(line));
        let Some(word) = words.next() else {
            return Ok(());
        };
        // By `says`, as the commands above.
        if says(word, b"scenario") {
            return self.scenario(words);
        }
        if self.tally.scenarios == 0 {
            return Err(ScriptFault::NoScenario);
        }
        self.act(Command::try_from(word)?, words)
    }

    /// Adds the closing line.
    pub fn close(&mut self) -> Result<(), AllocError>
        ensures { OnOk result (self.new.transcript ≡ self.old.transcript ++ closing (scene self.old)) }
    {
        let Tally {
            scenarios,
            made,
            refused,
        } = self.tally;
        self.transcript.say(format_args!(
            "done: {scenarios} scenarios, {made} policies made and {refused} refused, 0 programs accepted and 0 refused, 0 runs with a result and 0 cut\n"
        ))
    }

    pub fn into_transcript(self) -> Transcript
        ensures { result ≡ self.transcript }
    {
        let Session { transcript, .. } = self;
        transcript
    }
}
