//! Octets written in hexadecimal, and text in hexadecimal read back. It knows nothing of what the octets mean, nor of
//! how a line of text is laid out around them.

#![tactic(auto)]

mod digit;
mod error;
mod reading;
mod writing;

pub use digit::digit_value;
pub use error::HexError;
pub use reading::decode;
pub use writing::{Hex, encode};
