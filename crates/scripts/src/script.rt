//! A whole script.
ghost use Rattle.scripts.specs.Scenes.{scene};
ghost use Rattle.scripts.specs.Scripts.{Performs, lines_of, opening};

use crate::fault::LineFault;
use crate::pieces::Pieces;
use crate::session::Session;
use crate::transcript::Transcript;
use std::alloc::Global;

// Obeys each line, and adds the closing line.
fn obey_all(session: &mut Session, script: &[u8]) -> Result<(), LineFault>
    ensures { Performs (lines_of script.now) (scene session.old) 0 result session.new.transcript }
{
    // Not by `enumerate`: a script of nothing but line breaks may have one line more than a `usize` counts.
    let mut line: usize = 0;
    for text in Pieces::new(script, b'\n') {
        line = line.saturating_add(1);
        session
            .obey(text)
            .map_err(|fault| LineFault { line, fault })?;
    }
    session.close().map_err(|error| LineFault {
        line,
        fault: error.into(),
    })
}

/// The transcript of a script, and the fault that ended it, if one did.
pub fn perform(heap: Global, script: &[u8]) -> (Transcript, Result<(), LineFault>)
    ensures { Performs (lines_of script.now) opening 0 result.1 result.0 }
{
    let mut session = Session::new(heap);
    let ended = obey_all(&mut session, script);
    (session.into_transcript(), ended)
}
