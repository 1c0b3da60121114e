//! A message as a line of input gives it: its kind, and its octets in hexadecimal. Whether they are a sound message is
//! asked elsewhere.

#![tactic(auto)]

mod line;

pub use line::{LineError, Request};
