//! HEX: the digits of a line's words pair up into bytes.
ghost use Rattle.std.specs.Prelude.{◌≡◌, true, ◌++◌, length, take, is_some, Some, vec_len, MatchResult};
ghost use Rattle.std.specs.Option.{option_map};
ghost use Rattle.scripts.specs.declared.hex.HexFault.TheVariants.{Memory};
ghost use Rattle.scripts.specs.declared.number.Base.TheVariants.{Sixteen};
ghost use Rattle.scripts.specs.Numbers.{digits_of};
ghost use Rattle.scripts.specs.Words.{unspaced};
ghost use Rattle.scripts.specs.Hex.{in_pairs, hex_of, Appended};

use crate::number::{Base, digit};
use std::alloc::AllocFailed;

/// Why digits write no bytes.
#[derive(Clone, Copy, PartialEq, Eq, Debug)]
pub enum HexFault {
    // A byte is neither a digit nor a space.
    NoDigit,
    OddCount,
    Memory,
}

impl<T: Drop> From<AllocFailed<T>> for HexFault {
    ghost from_gives = { λ _ r. r ≡ Memory };

    fn from(_e: AllocFailed<T>) -> HexFault {
        HexFault::Memory
    }
}

// How many digits a text has, where all but the spaces are digits.
fn count(text: &[u8]) -> Option<usize>
    ensures { result ≡ option_map length (digits_of Sixteen (unspaced text.now)) }
{
    if !text.iter().all(|byte| *byte == b' ' || digit(*byte, Base::Sixteen).is_some()) {
        return None;
    }
    Some(text.iter().filter(|byte| **byte != b' ').count())
}

// Adds the bytes of the digits of a text; with a fault, some of them.
fn put_all(list: &mut Vec<u8>, text: &[u8]) -> Result<(), HexFault>
    ensures bytes { MatchResult result (λ _. Some list.new.items ≡ option_map (λ ds. list.old.items ++ in_pairs ds) (digits_of Sixteen (unspaced text.now))) (λ e. is_some (digits_of Sixteen (unspaced text.now)) ≡ true → e ≡ Memory) }
    ensures front { take (vec_len list.old) list.new.items ≡ list.old.items }
{
    // One pass with the half of a byte in hand: a list of the digits, to pair them, would want memory.
    let mut half = None;
    for byte in text {
        if *byte == b' ' {
            continue;
        }
        let low = digit(*byte, Base::Sixteen).ok_or(HexFault::NoDigit)?;
        half = match half {
            None => Some(low),
            Some(high) => {
                list.push(16 * high + low)?;
                None
            }
        };
    }
    Ok(())
}

/// Adds the bytes that the digits of a text write to the end of a list.
#[tactic(auto, using(crate::proofs::Unspaced::hex_is))]
pub fn append_hex(list: &mut Vec<u8>, text: &[u8]) -> Result<(), HexFault>
    ensures { Appended (hex_of text.now) result list.old.items list.new.items }
{
    let digits = count(text).ok_or(HexFault::NoDigit)?;
    if digits % 2 != 0 {
        return Err(HexFault::OddCount);
    }
    let before = list.len();
    let added = put_all(list, text);
    if added.is_err() {
        list.truncate(before);
    }
    added
}
