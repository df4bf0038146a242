//! Rule 7, of what nodes name.
ghost use Rattle.std.specs.Prelude.{◌≡◌, length, IfOk};
ghost use Rattle.levels.specs.Scan.{lowest};
ghost use Rattle.reading.specs.Meaning.{code_of};
ghost use Rattle.reading.specs.NamingRule.{lies, part_fits, all_fit, is_body, ends_well, naming_broken};
ghost use Rattle.reading.specs.Sound.{NamesFit};
ghost use Rattle.reading.specs.ReadingRefusal.{told};
ghost use Rattle.reading.specs.Trees.{tree_code};
ghost use Rattle.reading.specs.Verdict.{rule7};

use crate::bytes::Bytes;
use crate::fault::ReadingFault;
use crate::owners::Owners;
use crate::refuse::refuse_where;
use layout::parts::{Part, Sort};

// Whether node b lies below node i of a function that begins at `low`.
fn lies(low: u32, i: u16, b: u16) -> bool
    ensures { result ≡ lies low i b }
{
    low <= b as u32 && b < i
}

impl<'a> Bytes<'a> {
    fn part_fits(&self, low: u32, i: u16, part: Option<Part>) -> bool
        ensures { result ≡ part_fits (code_of self.now) low i part }
    {
        // By `is_none_or` it was tried, and its proof did not close.
        match part {
            None => true,
            Some(p) => lies(low, i, p.node) && self.node(p.node).sort() == p.sort,
        }
    }

    fn all_fit(&self, low: u32, i: u16, parts: (Option<Part>, Option<Part>, Option<Part>)) -> bool
        ensures { result ≡ all_fit (code_of self.now) low i parts }
    {
        self.part_fits(low, i, parts.0)
            && self.part_fits(low, i, parts.1)
            && self.part_fits(low, i, parts.2)
    }
}

impl<'a> Owners<'a> {
    /// Whether the node is its function's body.
    pub fn is_body(&self, i: u16) -> bool
        ensures { result ≡ is_body (tree_code self.now) i }
    {
        i == self.own(i).body
    }

    // Whether the node names one that it may not, or is a body and no command.
    fn breaks_naming(&self, i: u16) -> bool
        ensures { result ≡ naming_broken (tree_code self.now) i }
    {
        let bytes = self.functions.bytes;
        let node = bytes.node(i);
        let ends_well = !self.is_body(i) || node.sort() == Sort::Command;
        !(ends_well && bytes.all_fit(self.functions.start(self.owner(i)), i, node.parts()))
    }

    fn names_fit(&self) -> Result<(), ReadingFault>
        ensures { told result ≡ rule7 (tree_code self.now) }
    {
        let n = self.functions.bytes.node_count();
        refuse_where(n, |i| self.breaks_naming(i), ReadingFault::Misnamed)
    }

    /// Refuses the lowest node that breaks rule 7.
    pub fn named(&self) -> Result<Named<'_, 'a>, ReadingFault>
        ensures refuses { told result ≡ rule7 (tree_code self.now) }
        ensures of { IfOk result (λ n. n.tree.now ≡ self.now) }
    {
        self.names_fit()?;
        Ok(Named { tree: self })
    }
}

/// A tree whose nodes name what they may.
#[derive(Clone, Copy)]
pub struct Named<'t, 'a> {
    pub tree: &'t Owners<'a>,
    ghost names_fit: { NamesFit (tree_code tree.now) },
}
