//! Nodes as codes and operands.
ghost use Rattle.std.specs.Prelude.{◌≡◌};
ghost use Rattle.std.specs.Result.{result_ok};
ghost use Rattle.layout.specs.Decoding.{linked, operator_of, expression_of, command_of, argument_of, node_of};
ghost use Rattle.layout.specs.Encoding.{link, operator_code, expression_operands, command_operands, operands};

use crate::node::{Command, Expression, Node, Operator};

/// What a node is written as: its code, and four operands. Those that the node has not are to be 0.
#[derive(Clone, Copy, Debug, PartialEq, Eq)]
pub struct Operands {
    pub code: u8,
    pub a: u8,
    pub b: u16,
    pub c: u16,
    pub d: u16,
}

/// A code that stands for nothing, or an operand that has to be 0 and is not.
#[derive(Clone, Copy, Debug, PartialEq, Eq)]
pub struct Malformed;

fn linked(n: u16) -> Option<u16>
    ensures { result ≡ linked n }
{
    (n != 65535).then_some(n)
}

fn link(node: Option<u16>) -> u16
    ensures { result ≡ link node }
{
    node.unwrap_or(65535)
}

impl TryFrom<u8> for Operator {
    type Error = Malformed;

    ghost try_from_gives = { λ code r. result_ok r ≡ operator_of code };

    fn try_from(code: u8) -> Result<Operator, Malformed> {
        // The discriminants say the codes; no derive gives the way back.
        match code {
            0x10 => Ok(Operator::Add),
            0x11 => Ok(Operator::Subtract),
            0x12 => Ok(Operator::Multiply),
            0x13 => Ok(Operator::Divide),
            0x14 => Ok(Operator::Less),
            0x15 => Ok(Operator::Equal),
            _ => Err(Malformed),
        }
    }
}

impl From<Operator> for u8 {
    ghost from_gives = { λ operator r. r ≡ operator_code operator };

    fn from(operator: Operator) -> u8 {
        operator as u8
    }
}

impl Operands {
    fn expression(self) -> Option<Expression>
        ensures { result ≡ expression_of self }
    {
        match (self.code, self.a, self.b, self.c, self.d) {
            // Two halves of a number; put together by their bytes they would be no plainer.
            (0x01, 0, 0, c, d) => Some(Expression::Constant(65536 * c as u32 + d as u32)),
            (0x02, slot, 0, 0, 0) => Some(Expression::Slot(slot)),
            (0x03, figure, 0, 0, 0) => Some(Expression::Figure(figure)),
            (code, 0, b, c, 0) => {
                let operator = Operator::try_from(code).ok()?;
                Some(Expression::Operation(operator, b, c))
            }
            _ => None,
        }
    }

    fn command(self) -> Option<Command>
        ensures { result ≡ command_of self }
    {
        match (self.code, self.a, self.b, self.c, self.d) {
            (0x20, 0, 0, 0, 0) => Some(Command::Nothing),
            (0x21, slot, value, 0, 0) => Some(Command::SetSlot { slot, value }),
            (0x22, figure, value, 0, 0) => Some(Command::SetFigure { figure, value }),
            (0x23, 0, condition, first, second) => Some(Command::If {
                condition,
                first,
                second,
            }),
            (0x24, 0, condition, part, 0) => Some(Command::While { condition, part }),
            (0x25, 0, first, second, 0) => Some(Command::Then { first, second }),
            (0x26, slot, value, part, 0) => Some(Command::Let { slot, value, part }),
            (0x27, slot, function, arguments, 0) => Some(Command::Call {
                slot,
                function,
                arguments: linked(arguments),
            }),
            (0x28, permission, first, second, 0) => Some(Command::Test {
                permission,
                first,
                second,
            }),
            _ => None,
        }
    }

    fn argument(self) -> Option<Node>
        ensures { result ≡ argument_of self }
    {
        match (self.code, self.a, self.b, self.c, self.d) {
            (0x30, 0, value, next, 0) => Some(Node::Argument {
                value,
                next: linked(next),
            }),
            _ => None,
        }
    }

    fn node(self) -> Option<Node>
        ensures { result ≡ node_of self }
    {
        self.expression()
            .map(Node::Expression)
            .or(self.command().map(Node::Command))
            .or(self.argument())
    }
}

impl TryFrom<Operands> for Node {
    type Error = Malformed;

    ghost try_from_gives = { λ o r. result_ok r ≡ node_of o };

    fn try_from(operands: Operands) -> Result<Node, Malformed> {
        operands.node().ok_or(Malformed)
    }
}

impl From<Expression> for Operands {
    ghost from_gives = { λ e r. r ≡ expression_operands e };

    // The struct is made once, here and below: to make it in each arm, by a function, took half as much time again for the
    // writing of a program.
    fn from(e: Expression) -> Operands {
        let (code, a, b, c, d) = match e {
            // In two halves, as it is read.
            Expression::Constant(v) => (0x01, 0, 0, (v / 65536) as u16, (v % 65536) as u16),
            Expression::Slot(slot) => (0x02, slot, 0, 0, 0),
            Expression::Figure(figure) => (0x03, figure, 0, 0, 0),
            Expression::Operation(operator, b, c) => (u8::from(operator), 0, b, c, 0),
        };
        Operands { code, a, b, c, d }
    }
}

impl From<Command> for Operands {
    ghost from_gives = { λ e r. r ≡ command_operands e };

    fn from(e: Command) -> Operands {
        let (code, a, b, c, d) = match e {
            Command::Nothing => (0x20, 0, 0, 0, 0),
            Command::SetSlot { slot, value } => (0x21, slot, value, 0, 0),
            Command::SetFigure { figure, value } => (0x22, figure, value, 0, 0),
            Command::If {
                condition,
                first,
                second,
            } => (0x23, 0, condition, first, second),
            Command::While { condition, part } => (0x24, 0, condition, part, 0),
            Command::Then { first, second } => (0x25, 0, first, second, 0),
            Command::Let { slot, value, part } => (0x26, slot, value, part, 0),
            Command::Call {
                slot,
                function,
                arguments,
            } => (0x27, slot, function, link(arguments), 0),
            Command::Test {
                permission,
                first,
                second,
            } => (0x28, permission, first, second, 0),
        };
        Operands { code, a, b, c, d }
    }
}

impl From<Node> for Operands {
    ghost from_gives = { λ n r. r ≡ operands n };

    fn from(node: Node) -> Operands {
        match node {
            Node::Expression(e) => Operands::from(e),
            Node::Command(e) => Operands::from(e),
            Node::Argument { value, next } => Operands {
                code: 0x30,
                a: 0,
                b: value,
                c: link(next),
                d: 0,
            },
        }
    }
}
