//! Which function each node belongs to.
ghost use Rattle.std.specs.Prelude.{◌≡◌, ℕ, length, IfOk, slice_index};
ghost use Rattle.levels.specs.Scan.{lowest};
ghost use Rattle.layout.specs.Code.{function, owner};
ghost use Rattle.reading.specs.Meaning.{code_of};
ghost use Rattle.reading.specs.RecordRule.{record_broken};
ghost use Rattle.reading.specs.ReadingRefusal.{told};
ghost use Rattle.reading.specs.Sound.{Placed};
ghost use Rattle.reading.specs.Verdict.{rule5};

use crate::fault::ReadingFault;
use crate::functions::Functions;
use layout::decode;
use layout::function::Function;

/// Byte lists whose function records are good, with the function that each node belongs to.
#[derive(Drop)]
pub struct Owners<'a> {
    pub functions: Functions<'a>,
    // Fixed memory: the verdict wants no heap.
    owners: [u8; 4096],
    ghost known: { (i : ℕ) → slice_index owners i ≡ owner (code_of functions.bytes) i },
}

impl<'a> Functions<'a> {
    // The function of each node: each from after the one before to its own body.
    fn owners(&self) -> [u8; 4096]
        requires { Placed (code_of self.now.bytes) }
        ensures { (i : ℕ) → slice_index result i ≡ owner (code_of self.now.bytes) i }
    {
        let mut owners = [0; 4096];
        let mut start = 0;
        // By number, which is what is filled in.
        for g in 0..self.bytes.function_count() {
            let end = self.function(g).body as usize + 1;
            owners[start..end].fill(g as u8);
            start = end;
        }
        owners
    }
}

impl<'a> Owners<'a> {
    /// Refuses the lowest function that breaks rule 5.
    pub fn new(functions: Functions<'a>) -> Result<Owners<'a>, ReadingFault>
        ensures refuses { told result ≡ rule5 functions.entry.bytes.lists.functions.now (code_of functions.entry.bytes) }
        ensures of { IfOk result (λ o. o.functions.bytes ≡ functions.entry.bytes) }
    {
        functions.records_fit()?;
        let owners = functions.owners();
        Ok(Owners { functions, owners })
    }

    /// The function that node i belongs to, by number.
    pub fn owner(&self, i: u16) -> u16
        ensures { result ≡ owner (code_of self.now.functions.bytes) i }
    {
        decode::byte(&self.owners, i as usize) as u16
    }

    /// The function that node i belongs to.
    pub fn own(&self, i: u16) -> Function
        ensures { result ≡ function (code_of self.now.functions.bytes) (owner (code_of self.now.functions.bytes) i) }
    {
        self.functions.function(self.owner(i))
    }
}
