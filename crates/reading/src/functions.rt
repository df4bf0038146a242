//! The functions of byte lists, decoded once.
ghost use Rattle.std.specs.Prelude.{◌≡◌, ◌<◌, ℕ, slice_index_or};
ghost use Rattle.layout.specs.Code.{no_function, function, body, start};
ghost use Rattle.reading.specs.Meaning.{code_of};

use crate::bytes::Bytes;
use layout::entry::Entry;
use layout::function::Function;
use std::array;

#[derive(Drop)]
pub struct Functions<'a> {
    pub bytes: Bytes<'a>,
    // Fixed memory: the verdict wants no heap.
    functions: [Function; 64],
    ghost held: { (g : ℕ) → slice_index_or functions g no_function ≡ function (code_of bytes) g },
}

impl<'a> Functions<'a> {
    pub fn new(bytes: Bytes<'a>) -> Functions<'a>
        ensures { result.bytes ≡ bytes.entry }
    {
        Functions {
            bytes,
            // Only what is there is decoded: most programs have few of the sixty-four.
            functions: array::from_fn(
                |g|
                    requires { g < 64 }
                    ensures { result ≡ function (code_of bytes.entry) g }
                {
                    if (g as u16) < bytes.function_count() {
                        bytes.function(g as u16)
                    } else {
                        Function::absent()
                    }
                },
            ),
        }
    }

    pub fn function(&self, g: u16) -> Function
        ensures { result ≡ function (code_of self.now.bytes) g }
    {
        Function::get_or_absent(&self.functions, g)
    }

    // The first node of a function.
    pub fn start(&self, g: u16) -> u32
        ensures { result ≡ start (code_of self.now.bytes) g }
    {
        if g == 0 {
            0
        } else {
            self.function(g - 1).body as u32 + 1
        }
    }
}
