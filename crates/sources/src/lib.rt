//! Where cases come from: records in the caller's memory, or a message of bytes. Each source has a check, and made over
//! matter that its check refuses it means the empty case. Any source can be written as a message.

#![tactic(auto)]

mod check;
mod checked;
mod listed;
mod message;
mod records;
mod write;

pub use listed::{Listed, check_listed};
pub use message::{Message, check_message};
pub use write::{message_len, write_message};
