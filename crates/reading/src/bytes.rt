//! The three byte lists that a program is read from, of admissible lengths. Rule 4 sees to that.
ghost use Rattle.std.specs.Prelude.{◌≡◌, ◌≤◌, length, IfOk};
ghost use Rattle.reading.specs.ReadingRefusal.{told};
ghost use Rattle.reading.specs.SizeRule.{counts, sizes_fit};
ghost use Rattle.reading.specs.Verdict.{sizes_refused};

use crate::fault::ReadingFault;
use layout::lists::Lists;

#[derive(Clone, Copy)]
pub struct Bytes<'a> {
    pub lists: Lists<'a>,
    ghost few_nodes: { length lists.nodes.now ≤ 32775 },
    ghost some_functions: { 24 ≤ length lists.functions.now },
    ghost few_functions: { length lists.functions.now ≤ 1559 },
    ghost few_apps: { length lists.apps.now ≤ 16 },
}

// Whether n bytes are a whole number of entries of that width, at least one and at most so many.
fn counts(width: usize, most: usize, n: usize) -> bool
    requires { 1 ≤ width }
    ensures { result ≡ counts width most n }
{
    n % width == 0 && (1..=most).contains(&(n / width))
}

fn sizes_fit(nodes: usize, functions: usize, apps: usize) -> bool
    ensures { result ≡ sizes_fit nodes functions apps }
{
    counts(8, 4096, nodes) && counts(24, 64, functions) && (1..=16).contains(&apps)
}

impl<'a> Bytes<'a> {
    /// Refuses lengths that break their limits.
    pub fn new(lists: Lists<'a>) -> Result<Bytes<'a>, ReadingFault>
        ensures told { told result ≡ sizes_refused lists.entry.nodes.now lists.entry.functions.now lists.entry.apps.now }
        ensures of { IfOk result (λ b. b.lists ≡ lists.entry) }
    {
        if !sizes_fit(lists.nodes.len(), lists.functions.len(), lists.apps.len()) {
            return Err(ReadingFault::Sizes);
        }
        Ok(Bytes { lists })
    }
}
