//! A program that was read.
ghost use Rattle.layout.specs.Code.{code};
ghost use Rattle.reading.specs.Sound.{Sound};

use layout::function::Function;
use layout::lists::OwnedLists;
use layout::node::Node;

pub mod access;
pub mod read;
pub mod write;

/// A program, which only reading makes. What reading has seen of it holds of every one.
#[derive(Drop)]
pub struct Program {
    // Nodes name one another by number, as refusals and the bytes do: a tree of boxes would have to be numbered again.
    nodes: Vec<Node>,
    functions: Vec<Function>,
    // The permission set of each app.
    apps: Vec<u8>,
    ghost sound: { Sound (code nodes.items functions.items apps.items) },
}

/// A program written into bytes.
pub type Written = OwnedLists;
