//! The nodes of a program. A node names others by number.
ghost use Rattle.layout.specs.Code.{no_node};
ghost use Rattle.layout.specs.Decoding.{node_at};
ghost use Rattle.layout.specs.Ends.{no_node_past};
ghost use Rattle.layout.specs.Encoding.{node_bytes};

use crate::decode::{byte, word};
use crate::entry::Entry;
use crate::operands::Operands;

#[derive(Clone, Copy)]
pub enum Operator {
    Add = 0x10,
    Subtract = 0x11,
    Multiply = 0x12,
    Divide = 0x13,
    Less = 0x14,
    Equal = 0x15,
}

#[derive(Clone, Copy)]
pub enum Expression {
    Constant(u32),
    Slot(u8),
    Figure(u8),
    // Of two expressions.
    Operation(Operator, u16, u16),
}

#[derive(Clone, Copy)]
pub enum Command {
    Nothing,
    SetSlot {
        slot: u8,
        value: u16,
    },
    SetFigure {
        figure: u8,
        value: u16,
    },
    If {
        condition: u16,
        first: u16,
        second: u16,
    },
    While {
        condition: u16,
        part: u16,
    },
    Then {
        first: u16,
        second: u16,
    },
    // The slot may be used in the part, and not in the value.
    Let {
        slot: u8,
        value: u16,
        part: u16,
    },
    // The result goes into the slot.
    Call {
        slot: u8,
        function: u16,
        arguments: Option<u16>,
    },
    Test {
        permission: u8,
        first: u16,
        second: u16,
    },
}

#[derive(Clone, Copy)]
pub enum Node {
    Expression(Expression),
    Command(Command),
    Argument { value: u16, next: Option<u16> },
}

impl Entry<8> for Node {
    ghost absent = { no_node };

    ghost at = { node_at };

    ghost bytes = { node_bytes };

    fn absent() -> Node {
        Node::Command(Command::Nothing)
    }

    #[tactic(auto, unfolding(crate::specs::Decoding::node_at))]
    fn at(list: &[u8], i: u16) -> Option<Node> {
        let at = 8 * i as usize;
        if list.len() < at + 8 {
            return None;
        }
        let operands = Operands {
            code: byte(list, at),
            a: byte(list, at + 1),
            b: word(list, at + 2),
            c: word(list, at + 4),
            d: word(list, at + 6),
        };
        Node::try_from(operands).ok()
    }

    fn bytes(self) -> [u8; 8] {
        let operands = Operands::from(self);
        let [b_high, b_low] = operands.b.to_be_bytes();
        let [c_high, c_low] = operands.c.to_be_bytes();
        let [d_high, d_low] = operands.d.to_be_bytes();
        [
            operands.code,
            operands.a,
            b_high,
            b_low,
            c_high,
            c_low,
            d_high,
            d_low,
        ]
    }

    ghost past = { no_node_past };
}
