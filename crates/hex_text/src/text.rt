ghost use Rattle.std.specs.Prelude.{◌≡◌, ◌==◌, ◌%◌, ◌<◌, length, slice_index, IfOk, IfErr, MatchResult, Some, None, string_bytes};
ghost use Rattle.std.specs.List.{zip, position_from};
ghost use Rattle.std.proofs.Math.Bool.{not};
ghost use Rattle.hex_text.specs.Hex.{hex_value, hex_digit, hex_bytes, hex_text, HexRead, AfterDigits, Differs};

use std::alloc::{AllocError, AllocFailed, Global};
use thiserror::Error;

/// Why a text is no row of bytes in hexadecimal.
#[derive(Clone, Copy, Debug, PartialEq, Eq, Error)]
pub enum HexFault {
    /// Two digits make a byte, and their number is odd.
    #[error("a hexadecimal digit is missing")]
    Odd,
    /// The character at this index is the first that is no hexadecimal digit.
    #[error("character {0} of the bytes is no hexadecimal digit")]
    Digit(usize),
    /// There is no memory for the bytes.
    #[error("there is no memory")]
    Memory,
}

// Kept: no variant carries what a derived `From` would be made of.
impl<T: Drop> From<AllocFailed<T>> for HexFault {
    ghost use Rattle.std.specs.Prelude.{◌≡◌};
    ghost use Rattle.hex_text.specs.declared.text.HexFault.{HexFault};

    ghost from_gives = { λ _ r. r ≡ HexFault.Memory };

    fn from(_refused: AllocFailed<T>) -> HexFault {
        HexFault::Memory
    }
}

/// The digit of a value, in lower case.
fn digit_of(value: u8) -> char
    requires { value < 16 }
    ensures { result ≡ hex_digit value }
{
    char::from_digit(u32::from(value), 16).unwrap()
}

/// The value of the digit at an index, in upper or lower case.
fn value_at(digits: &[u8], at: usize) -> Result<u8, HexFault>
    requires { at < length digits.now }
    ensures { MatchResult result (λ v. (hex_value (slice_index digits.now at) ≡ Some v) × (v < 16)) (λ f. (f ≡ HexFault.Digit at) × (hex_value (slice_index digits.now at) ≡ None)) }
{
    match char::from(digits[at]).to_digit(16) {
        Some(value) => Ok(value as u8),
        None => Err(HexFault::Digit(at)),
    }
}

/// Reads bytes written in hexadecimal, two digits for each.
#[tactic(auto, using(crate::proofs::Digits::hex_odd))]
pub fn read_hex(heap: Global, text: &str) -> Result<Vec<u8>, HexFault>
    ensures read { HexRead text.now result }
    ensures first { IfErr result (AfterDigits text.now) }
    ensures odd { length text.now % 2 ≡ 1 → result ≡ Err HexFault.Odd }
{
    let digits = text.as_bytes();
    if digits.len() % 2 == 1 {
        return Err(HexFault::Odd);
    }
    let mut bytes = Vec::new(heap);
    // Kept: over chunks of two, a fault would have to count its index back from their number.
    for at in 0..digits.len() / 2 {
        let high = value_at(digits, 2 * at)?;
        let low = value_at(digits, 2 * at + 1)?;
        bytes.push(16 * high + low)?;
    }
    Ok(bytes)
}

/// Writes bytes in hexadecimal, in lower case; what is written reads back the same.
pub fn write_hex(heap: Global, bytes: &[u8]) -> Result<String, AllocError>
    ensures written { IfOk result (λ s. string_bytes s ≡ hex_text bytes.now) }
    ensures law { hex_bytes (hex_text bytes.now) ≡ Some bytes.now }
{
    let mut text = String::with_capacity(heap, 2 * bytes.len())?;
    for byte in bytes {
        text.push(digit_of(*byte / 16))?;
        text.push(digit_of(*byte % 16))?;
    }
    Ok(text)
}

/// The index of the first byte that differs, of those that both rows have.
fn first_unequal(one: &[u8], other: &[u8]) -> Option<usize>
    ensures { result ≡ position_from (λ p. not (p.0 == p.1)) 0 (zip one.now other.now) }
{
    one.iter().zip(other).position(|(a, b)| a != b)
}

/// The index of the first byte in which two rows differ, which may be the end of the shorter one; none where they are the
/// same.
pub fn first_difference(one: &[u8], other: &[u8]) -> Option<usize>
    ensures { Differs one.now other.now result }
{
    if let Some(at) = first_unequal(one, other) {
        return Some(at);
    }
    if one.len() == other.len() {
        None
    } else {
        Some(one.len().min(other.len()))
    }
}
