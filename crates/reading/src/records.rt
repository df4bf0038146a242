//! Rule 5, of function records.
ghost use Rattle.std.specs.Prelude.{◌≡◌, length};
ghost use Rattle.levels.specs.Scan.{lowest};
ghost use Rattle.reading.specs.RecordRule.{last_function, placed, record_broken};
ghost use Rattle.reading.specs.ReadingRefusal.{told};
ghost use Rattle.reading.specs.Trees.{held_code};
ghost use Rattle.reading.specs.Verdict.{rule5};

use crate::fault::ReadingFault;
use crate::functions::Functions;
use crate::refuse::refuse_where;
use layout::entry::Entry;
use layout::function::Function;

impl<'a> Functions<'a> {
    fn is_last(&self, g: u16) -> bool
        ensures { result ≡ last_function (held_code self.now) g }
    {
        g as u32 + 1 == self.bytes.function_count() as u32
    }

    // Whether the app is there, and the function ends where it may.
    fn placed(&self, g: u16) -> bool
        ensures { result ≡ placed (held_code self.now) g }
    {
        let function = self.function(g);
        let body = function.body as u32;
        (function.app as usize) < self.bytes.lists.apps.len()
            && self.start(g) <= body
            && (!self.is_last(g) || body + 1 == self.bytes.node_count() as u32)
    }

    // Whether the record breaks its layout, names a missing app, or ends where it may not.
    fn breaks_record(&self, g: u16) -> bool
        ensures { result ≡ record_broken self.now.bytes.lists.functions.now (held_code self.now) g }
    {
        !(Function::at(self.bytes.lists.functions, g).is_some() && self.placed(g))
    }

    /// Refuses the lowest function that breaks rule 5.
    pub fn records_fit(&self) -> Result<(), ReadingFault>
        ensures { told result ≡ rule5 self.now.bytes.lists.functions.now (held_code self.now) }
    {
        let n = self.bytes.function_count();
        refuse_where(
            n,
            |g| self.breaks_record(g),
            |g| ReadingFault::Record(g as u8),
        )
    }
}
