//! Reading a program.
ghost use Rattle.std.specs.Prelude.{◌≡◌, ◌/◌, ◌<◌, ◌≤◌, length, IfOk};
ghost use Rattle.levels.specs.Refusals.{answer, within_memory};
ghost use Rattle.levels.specs.declared.refusal.Layer.TheVariants.{Reading};
ghost use Rattle.reading.specs.Copies.{Bytes};
ghost use Rattle.layout.specs.Encoding.{lists_of, encoded};
ghost use Rattle.layout.specs.Decoding.{entries_of};
ghost use Rattle.reading.specs.Reading.{program_code, lacked_memory};
ghost use Rattle.reading.specs.ReadingRefusal.{reading_refusal};
ghost use Rattle.reading.specs.Verdict.{verdict};
ghost use Rattle.reading.specs.declared.fault.ReadingFault.TheVariants.{Memory};

use crate::fault::ReadingFault;
use crate::judge::judge;
use crate::program::Program;
use layout::entry::Entry;
use layout::lists::Lists;
use std::alloc::{AllocError, Global};

fn entries_of<const WIDTH: usize, E: Entry<WIDTH>>(
    heap: Global,
    bytes: &[u8],
) -> Result<Vec<E>, AllocError>
    requires wide { 0 < WIDTH }
    requires few { length bytes.now / WIDTH ≤ 65535 }
    ensures read { IfOk result (λ v. v.items ≡ entries_of WIDTH E.at E.absent bytes.now) }
    ensures small { Bytes bytes.now }
{
    let count = bytes.len() / WIDTH;
    let mut entries = Vec::with_capacity(heap, count)?;
    // Tried as a chain of iterators: the goal of its generic closure stays open.
    for i in 0..count as u16 {
        entries.push_reserved(E::at_or_absent(bytes, i));
    }
    Ok(entries)
}

impl From<AllocError> for ReadingFault {
    ghost from_gives = { λ _ r. r ≡ Memory };

    fn from(_e: AllocError) -> ReadingFault {
        ReadingFault::Memory
    }
}

/// The program that the bytes are, or the first broken rule at its lowest place. Memory is wanted only for a program.
/// Writing the program gives the bytes back.
pub fn read_program(heap: Global, lists: Lists<'_>) -> Result<Program, ReadingFault>
    ensures answered { answer program_code reading_refusal result ≡ within_memory (lacked_memory result) Reading (verdict lists.entry.nodes.now lists.entry.functions.now lists.entry.apps.now) }
    ensures written_back { IfOk result (λ p. encoded (program_code p) ≡ lists_of lists.entry) }
{
    judge(lists)?;
    let nodes = entries_of(heap, lists.nodes)?;
    let functions = entries_of(heap, lists.functions)?;
    let apps = Vec::from_slice(heap, lists.apps)?;
    Ok(Program {
        nodes,
        functions,
        apps,
    })
}
