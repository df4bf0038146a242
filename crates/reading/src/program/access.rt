//! What a program has, by number.
ghost use Rattle.std.specs.Prelude.{◌≡◌, length};
ghost use Rattle.layout.specs.Code.{node, function, as_expression, as_command, expression, command};
ghost use Rattle.layout.specs.Decoding.{byte};
ghost use Rattle.reading.specs.Reading.{program_code};

use crate::program::Program;
use layout::decode;
use layout::entry::Entry;
use layout::function::Function;
use layout::node::{Command, Expression, Node};

impl Program {
    pub fn node_count(&self) -> u16
        ensures { result ≡ length (program_code self.now).nodes }
    {
        self.nodes.len() as u16
    }

    pub fn function_count(&self) -> u8
        ensures { result ≡ length (program_code self.now).functions }
    {
        self.functions.len() as u8
    }

    pub fn app_count(&self) -> u8
        ensures { result ≡ length (program_code self.now).apps }
    {
        self.apps.len() as u8
    }

    /// The node of a number, and a nothing where there is none.
    pub fn node(&self, i: u16) -> Node
        ensures { result ≡ node (program_code self.now) i }
    {
        Node::get_or_absent(&self.nodes, i)
    }

    /// The function of a number, and one with no slots where there is none.
    pub fn function(&self, g: u16) -> Function
        ensures { result ≡ function (program_code self.now) g }
    {
        Function::get_or_absent(&self.functions, g)
    }

    /// The permission set of an app, and the empty one where there is none.
    pub fn app_set(&self, app: u8) -> u8
        ensures { result ≡ byte (program_code self.now).apps app }
    {
        decode::byte(&self.apps, app as usize)
    }

    /// The expression that a node is, and the constant 0 where it is none.
    pub fn expression(&self, i: u16) -> Expression
        ensures { result ≡ expression (program_code self.now) i }
    {
        match self.node(i) {
            Node::Expression(e) => e,
            _ => Expression::Constant(0),
        }
    }

    // Apart from the expression's: the variant that a pattern names can be no parameter.
    /// The command that a node is, and a nothing where it is none.
    pub fn command(&self, i: u16) -> Command
        ensures { result ≡ command (program_code self.now) i }
    {
        match self.node(i) {
            Node::Command(e) => e,
            _ => Command::Nothing,
        }
    }
}
