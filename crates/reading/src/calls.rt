//! Rule 8, of calls and their arguments.
ghost use Rattle.std.specs.Prelude.{◌≡◌, length};
ghost use Rattle.levels.specs.Scan.{lowest};
ghost use Rattle.reading.specs.Meaning.{code_of};
ghost use Rattle.layout.specs.Tree.{next_of};
ghost use Rattle.reading.specs.CallRule.{chained, calls_well, call_broken};
ghost use Rattle.reading.specs.ReadingRefusal.{told};
ghost use Rattle.reading.specs.Trees.{tree_code};
ghost use Rattle.reading.specs.Verdict.{rule8};

use crate::bytes::Bytes;
use crate::fault::ReadingFault;
use crate::owners::Owners;
use crate::refuse::refuse_where;
use layout::node::{Command, Node};

impl<'a> Bytes<'a> {
    fn next_of(&self, argument: Option<u16>) -> Option<Option<u16>>
        ensures { result ≡ next_of (code_of self.now) argument }
    {
        match self.node(argument?) {
            Node::Argument { next, .. } => Some(next),
            _ => None,
        }
    }

    // Whether the chain that begins there has exactly so many arguments.
    fn chained(&self, count: u8, first: Option<u16>) -> bool
        ensures { result ≡ chained (code_of self.now) count first }
    {
        let mut argument = first;
        // By `try_fold` it would say no more plainly when the chain is too short.
        for n in 0..count {
            let Some(next) = self.next_of(argument) else {
                return false;
            };
            argument = next;
        }
        argument.is_none()
    }
}

impl<'a> Owners<'a> {
    fn calls_well(&self, i: u16, node: Node) -> bool
        ensures { result ≡ calls_well (tree_code self.now) i node }
    {
        match node {
            Node::Command(
                Command::Call {
                    function: g,
                    arguments,
                    ..
                },
            ) => {
                let parameters = self.functions.function(g).parameters;
                g < self.owner(i) && self.functions.bytes.chained(parameters, arguments)
            }
            _ => true,
        }
    }

    // Whether the node calls a function that it may not, or with the wrong number of arguments.
    fn breaks_call(&self, i: u16) -> bool
        ensures { result ≡ call_broken (tree_code self.now) i }
    {
        !self.calls_well(i, self.functions.bytes.node(i))
    }

    /// Refuses the lowest node that breaks rule 8.
    pub fn calls_fit(&self) -> Result<(), ReadingFault>
        ensures { told result ≡ rule8 (tree_code self.now) }
    {
        let n = self.functions.bytes.node_count();
        refuse_where(n, |i| self.breaks_call(i), ReadingFault::Miscalled)
    }
}
