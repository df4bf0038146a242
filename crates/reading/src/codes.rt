//! Rule 6, of codes and operands.
ghost use Rattle.std.specs.Prelude.{◌≡◌, length};
ghost use Rattle.levels.specs.Scan.{lowest};
ghost use Rattle.reading.specs.CodeRule.{past, code_broken};
ghost use Rattle.reading.specs.ReadingRefusal.{told};
ghost use Rattle.reading.specs.Trees.{tree_code};
ghost use Rattle.reading.specs.Verdict.{rule6};

use crate::fault::ReadingFault;
use crate::owners::Owners;
use crate::refuse::refuse_where;
use layout::entry::Entry;
use layout::node::Node;

fn past(slots: u8, slot: Option<u8>) -> bool
    ensures { result ≡ past slots slot }
{
    slot.is_some_and(|a| slots <= a)
}

impl<'a> Owners<'a> {
    // Whether the node has an unknown code, an unused operand that is not 0, or a slot that its function has not.
    fn breaks_code(&self, i: u16) -> bool
        ensures { result ≡ code_broken self.now.functions.bytes.lists.nodes.now (tree_code self.now) i }
    {
        // By `is_none_or` it was tried, and its proof did not close.
        match Node::at(self.functions.bytes.lists.nodes, i) {
            None => true,
            Some(node) => past(self.own(i).slots, node.slot()),
        }
    }

    /// Refuses the lowest node that breaks rule 6.
    pub fn codes_fit(&self) -> Result<(), ReadingFault>
        ensures { told result ≡ rule6 self.now.functions.bytes.lists.nodes.now (tree_code self.now) }
    {
        let n = self.functions.bytes.node_count();
        refuse_where(n, |i| self.breaks_code(i), ReadingFault::Malformed)
    }
}
