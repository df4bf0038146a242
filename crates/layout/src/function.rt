//! The functions of a program.
ghost use Rattle.std.specs.Prelude.{◌≡◌, ◌+◌, ◌*◌, ◌≤◌, length};
ghost use Rattle.layout.specs.Code.{no_function};
ghost use Rattle.layout.specs.Decoding.{record_at, padded, untyped, slots_fit, function_at};
ghost use Rattle.layout.specs.Ends.{no_function_past};
ghost use Rattle.layout.specs.Encoding.{function_bytes};

use crate::decode::{byte, word};
use crate::entry::Entry;
use levels::scan::every;

/// Slots below `parameters` are parameters, the slot of that number is the result, the others below `slots` are locals.
#[derive(Clone, Copy)]
pub struct Function {
    // The app that it belongs to.
    pub app: u8,
    pub parameters: u8,
    pub slots: u8,
    // The type of its effect.
    pub effect: u8,
    // Its last node.
    pub body: u16,
    // The types of its slots, 0 from `slots` on. All sixteen, as the bytes have them.
    pub types: [u8; 16],
}

// The numbers at the place of function g.
#[tactic(auto, unfolding(crate::specs::Decoding::record_at))]
fn record(list: &[u8], g: u16) -> Function
    requires { 24 * g + 24 ≤ length list.now }
    ensures { result ≡ record_at list.now g }
{
    let at = 24 * g as usize;
    // As many types as the format has, always.
    let mut types = [0; 16];
    types.copy_from_slice(&list[at + 8..at + 24]);
    Function {
        app: byte(list, at),
        parameters: byte(list, at + 1),
        slots: byte(list, at + 2),
        effect: byte(list, at + 3),
        body: word(list, at + 4),
        types,
    }
}

// Whether the two bytes that stand for nothing are 0.
fn padded(list: &[u8], g: u16) -> bool
    ensures { result ≡ padded list.now g }
{
    let at = 24 * g as usize;
    byte(list, at + 6) == 0 && byte(list, at + 7) == 0
}

impl Function {
    // Whether the function has slot j, or else gives it no type.
    fn untyped(self, j: u16) -> bool
        ensures { result ≡ untyped self j }
    {
        j < self.slots as u16 || byte(&self.types, j as usize) == 0
    }

    fn slots_fit(self) -> bool
        ensures { result ≡ slots_fit self }
    {
        self.parameters <= 8
            && self.parameters < self.slots
            && self.slots <= 16
            && every(16, |j| self.untyped(j))
    }
}

impl Entry<24> for Function {
    ghost absent = { no_function };

    ghost at = { function_at };

    ghost bytes = { function_bytes };

    fn absent() -> Function {
        Function {
            app: 0,
            parameters: 0,
            slots: 0,
            effect: 0,
            body: 0,
            types: [0; 16],
        }
    }

    fn at(list: &[u8], g: u16) -> Option<Function> {
        if list.len() < 24 * g as usize + 24 {
            return None;
        }
        let function = record(list, g);
        (padded(list, g) && function.slots_fit()).then_some(function)
    }

    fn bytes(self) -> [u8; 24] {
        let [body_high, body_low] = self.body.to_be_bytes();
        let head = [
            self.app,
            self.parameters,
            self.slots,
            self.effect,
            body_high,
            body_low,
            0,
            0,
        ];
        // As many bytes as the format has, always.
        let mut bytes = [0; 24];
        bytes[..8].copy_from_slice(&head);
        bytes[8..].copy_from_slice(&self.types);
        bytes
    }

    ghost past = { no_function_past };
}
