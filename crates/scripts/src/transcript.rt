//! The transcript that a script leaves.
ghost use Rattle.std.specs.Prelude.{◌≡◌, [], ◌++◌, IfSome, OnOk};

use std::alloc::{AllocError, Global};
use std::fmt::Display;
use std::marker::Model;

/// What was answered so far, as bytes.
#[derive(Drop)]
pub struct Transcript {
    bytes: Vec<u8>,
}

impl Model for Transcript {
    ghost use Rattle.std.specs.Prelude.{ℕ, List};

    ghost Value = { List ℕ };

    ghost view = { λ t. t.bytes.items };
}

impl Transcript {
    /// Nothing yet.
    pub fn new(heap: Global) -> Transcript
        ensures { result ≡ [] }
    {
        Transcript {
            bytes: Vec::new(heap),
        }
    }

    pub fn bytes(&self) -> &[u8]
        ensures { result.now ≡ self.now }
    {
        self.bytes.as_slice()
    }

    /// Adds a text to the end.
    pub fn say<D: Display + Drop>(&mut self, text: D) -> Result<(), AllocError>
        ensures { OnOk result (IfSome (D.output text) (λ bytes. self.new ≡ self.old ++ bytes)) }
    {
        let text = text.to_string(*self.bytes.allocator())?;
        self.copy(text.as_bytes())
    }

    /// Adds bytes to the end, as they are.
    pub fn copy(&mut self, bytes: &[u8]) -> Result<(), AllocError>
        ensures { OnOk result (self.new ≡ self.old ++ bytes.now) }
    {
        self.bytes.extend_from_slice(bytes)
    }
}
