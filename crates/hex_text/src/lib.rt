//! Bytes as hexadecimal text, both ways, and the comparison of two rows of bytes.

#![tactic(auto)]

mod text;

pub use text::{HexFault, first_difference, read_hex, write_hex};
