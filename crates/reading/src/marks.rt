//! Rule 9, of how often each node is named.
ghost use Rattle.std.specs.Prelude.{◌≡◌, ℕ, ◌<◌, length, replicate, slice_index};
ghost use Rattle.levels.specs.Scan.{lowest};
ghost use Rattle.layout.specs.Tree.{namings};
ghost use Rattle.reading.specs.Meaning.{code_of};
ghost use Rattle.reading.specs.OnceRule.{once_broken};
ghost use Rattle.reading.specs.ReadingRefusal.{told};
ghost use Rattle.reading.specs.Trees.{tree_code};
ghost use Rattle.reading.specs.Verdict.{rule9};

use crate::bytes::Bytes;
use crate::fault::ReadingFault;
use crate::owners::Owners;
use crate::refuse::refuse_where;

impl<'a> Bytes<'a> {
    // How often each node is named, into marks that are 0. They are filled in where they lie, as parents and scopes are:
    // an array that is handed out is copied, and again where it is kept.
    fn marks(&self, marks: &mut [u16; 4096])
        requires { marks.old ≡ replicate 4096 0 }
        ensures { (j : ℕ) → j < 4096 → slice_index marks.new j ≡ namings (code_of self.now) (length (code_of self.now).nodes) j }
    {
        self.by_namings(marks, |n, _| n.saturating_add(1));
    }
}

// How often each node of a tree is named.
#[derive(Clone, Copy)]
struct Marks<'t, 'a> {
    tree: &'t Owners<'a>,
    // Lent: to move them would be to copy them.
    marks: &'t [u16; 4096],
    ghost counted: { (j : ℕ) → j < 4096 → slice_index marks.now j ≡ namings (tree_code tree.now) (length (tree_code tree.now).nodes) j },
}

impl<'t, 'a> Marks<'t, 'a> {
    // Whether the node is no body and not named exactly once.
    fn breaks_once(&self, j: u16) -> bool
        ensures { result ≡ once_broken (tree_code self.now.tree.now) j }
    {
        j < self.tree.functions.bytes.node_count()
            && !self.tree.is_body(j)
            && self.marks[j as usize] != 1
    }
}

impl<'a> Owners<'a> {
    /// Refuses the lowest node that breaks rule 9.
    pub fn named_once(&self) -> Result<(), ReadingFault>
        ensures { told result ≡ rule9 (tree_code self.now) }
    {
        // Fixed memory, here and below: the verdict wants no heap.
        let mut counts = [0; 4096];
        self.functions.bytes.marks(&mut counts);
        let marks = Marks {
            tree: self,
            marks: &counts,
        };
        let n = self.functions.bytes.node_count();
        refuse_where(n, |j| marks.breaks_once(j), ReadingFault::NotNamedOnce)
    }
}
