//! Writing a program.
ghost use Rattle.std.specs.Prelude.{◌≡◌, ◌*◌, ◌^◌, ◌<◌, length, IfOk};
ghost use Rattle.std.specs.List.{flat_map};
ghost use Rattle.reading.specs.Copies.{ReadsBack};
ghost use Rattle.layout.specs.Encoding.{encoded, written_lists};
ghost use Rattle.reading.specs.Reading.{program_code};

use crate::program::{Program, Written};
use layout::entry::Entry;
use layout::lists::OwnedLists;
use std::alloc::{AllocError, Global};

fn written<const WIDTH: usize, E: Entry<WIDTH>>(
    heap: Global,
    entries: &[E],
) -> Result<Vec<u8>, AllocError>
    requires { WIDTH * length entries.now < 2 ^ 64 }
    ensures { IfOk result (λ v. v.items ≡ flat_map E.bytes entries.now) }
{
    let mut bytes = Vec::with_capacity(heap, WIDTH * entries.len())?;
    for entry in entries {
        bytes.extend_from_slice(&entry.bytes())?;
    }
    Ok(bytes)
}

impl Program {
    /// The three byte lists that the program is; reading them gives it back.
    #[tactic(auto, using(crate::proofs::Programs::program_back))]
    pub fn write(&self, heap: Global) -> Result<Written, AllocError>
        ensures written { IfOk result (λ w. written_lists w ≡ encoded (program_code self.now)) }
        ensures read_back { ReadsBack (program_code self.now) }
    {
        Ok(OwnedLists {
            nodes: written(heap, &self.nodes)?,
            functions: written(heap, &self.functions)?,
            apps: Vec::from_slice(heap, &self.apps)?,
        })
    }
}
