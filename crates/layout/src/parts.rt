//! What a node names.
ghost use Rattle.std.specs.Prelude.{◌≡◌};
ghost use Rattle.layout.specs.Code.{sort};
ghost use Rattle.layout.specs.Tree.{a_part, next_part, expression_parts, command_parts, parts, slot_of};

use crate::node::{Command, Expression, Node};

/// The three sorts of nodes.
#[derive(Clone, Copy, Debug, PartialEq, Eq)]
pub enum Sort {
    Expression,
    Command,
    Argument,
}

/// A node that another one names, by number, and of what sort it has to be.
#[derive(Clone, Copy, Debug, PartialEq, Eq)]
pub struct Part {
    pub sort: Sort,
    pub node: u16,
}

impl Part {
    fn new(sort: Sort, node: u16) -> Option<Part>
        ensures { result ≡ a_part sort node }
    {
        Some(Part { sort, node })
    }

    // The argument after another, or the first of a call.
    fn argument(next: Option<u16>) -> Option<Part>
        ensures { result ≡ next_part next }
    {
        next.map(|node| Part {
            sort: Sort::Argument,
            node,
        })
    }
}

impl Command {
    fn parts(self) -> (Option<Part>, Option<Part>, Option<Part>)
        ensures { result ≡ command_parts self }
    {
        match self {
            Command::Nothing => (None, None, None),
            Command::SetSlot { value, .. } | Command::SetFigure { value, .. } => {
                (Part::new(Sort::Expression, value), None, None)
            }
            Command::If {
                condition,
                first,
                second,
            } => (
                Part::new(Sort::Expression, condition),
                Part::new(Sort::Command, first),
                Part::new(Sort::Command, second),
            ),
            Command::While { condition: b, part } | Command::Let { value: b, part, .. } => {
                (
                    Part::new(Sort::Expression, b),
                    Part::new(Sort::Command, part),
                    None,
                )
            }
            Command::Then { first, second } | Command::Test { first, second, .. } => {
                (
                    Part::new(Sort::Command, first),
                    Part::new(Sort::Command, second),
                    None,
                )
            }
            Command::Call { arguments, .. } => (Part::argument(arguments), None, None),
        }
    }
}

impl Node {
    pub fn parts(self) -> (Option<Part>, Option<Part>, Option<Part>)
        ensures { result ≡ parts self }
    {
        match self {
            Node::Expression(Expression::Operation(_, b, c)) => {
                (
                    Part::new(Sort::Expression, b),
                    Part::new(Sort::Expression, c),
                    None,
                )
            }
            Node::Expression(_) => (None, None, None),
            Node::Command(e) => e.parts(),
            Node::Argument { value, next } => {
                (
                    Part::new(Sort::Expression, value),
                    Part::argument(next),
                    None,
                )
            }
        }
    }

    pub fn slot(self) -> Option<u8>
        ensures { result ≡ slot_of self }
    {
        match self {
            Node::Expression(Expression::Slot(slot)) => Some(slot),
            Node::Command(
                Command::SetSlot { slot, .. }
                | Command::Let { slot, .. }
                | Command::Call { slot, .. },
            ) => Some(slot),
            _ => None,
        }
    }

    pub fn sort(self) -> Sort
        ensures { result ≡ sort self }
    {
        match self {
            Node::Expression(_) => Sort::Expression,
            Node::Command(_) => Sort::Command,
            Node::Argument { .. } => Sort::Argument,
        }
    }
}
