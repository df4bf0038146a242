//! The three byte lists that a program is written as.
ghost use Rattle.std.specs.Prelude.{◌≡◌};
ghost use Rattle.layout.specs.Encoding.{lists_of, written_lists, no_lists};

use std::alloc::Global;

/// Three byte lists, of nodes, functions and apps.
#[derive(Clone, Copy, Debug, PartialEq, Eq)]
pub struct Lists<'a> {
    pub nodes: &'a [u8],
    pub functions: &'a [u8],
    pub apps: &'a [u8],
}

/// Three byte lists with their memory.
#[derive(Debug, PartialEq, Eq, Drop)]
pub struct OwnedLists {
    pub nodes: Vec<u8>,
    pub functions: Vec<u8>,
    pub apps: Vec<u8>,
}

impl OwnedLists {
    /// Three empty lists.
    pub fn new(heap: Global) -> OwnedLists
        ensures { written_lists result ≡ no_lists }
    {
        OwnedLists {
            nodes: Vec::new(heap),
            functions: Vec::new(heap),
            apps: Vec::new(heap),
        }
    }

    pub fn view(&self) -> Lists<'_>
        ensures { lists_of result ≡ written_lists self.now }
    {
        Lists {
            nodes: &self.nodes,
            functions: &self.functions,
            apps: &self.apps,
        }
    }

    /// Leaves the three lists empty.
    pub fn clear(&mut self)
        ensures { written_lists self.new ≡ no_lists }
    {
        self.nodes.clear();
        self.functions.clear();
        self.apps.clear();
    }
}
