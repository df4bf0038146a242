//! The nodes and functions of the byte lists, by number.
ghost use Rattle.std.specs.Prelude.{◌≡◌, ◌≤◌, length};
ghost use Rattle.layout.specs.Code.{node, function};
ghost use Rattle.reading.specs.Meaning.{code_of};

use crate::bytes::Bytes;
use layout::entry::Entry;
use layout::function::Function;
use layout::node::Node;

impl<'a> Bytes<'a> {
    pub fn node_count(&self) -> u16
        ensures value { result ≡ length (code_of self.now).nodes }
        ensures bound { result ≤ 4096 }
    {
        (self.lists.nodes.len() / 8) as u16
    }

    pub fn function_count(&self) -> u16
        ensures value { result ≡ length (code_of self.now).functions }
        ensures bound { result ≤ 64 }
    {
        (self.lists.functions.len() / 24) as u16
    }

    pub fn node(&self, i: u16) -> Node
        ensures { result ≡ node (code_of self.now) i }
    {
        Node::at_or_absent(self.lists.nodes, i)
    }

    pub fn function(&self, g: u16) -> Function
        ensures { result ≡ function (code_of self.now) g }
    {
        Function::at_or_absent(self.lists.functions, g)
    }
}
