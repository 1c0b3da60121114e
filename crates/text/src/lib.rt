//! The text form of messages: a first line with the kind, and a line for each group. It is read line by line and written
//! whole. Nothing here knows octets; those who read them and write them stand elsewhere.

#![tactic(auto)]

mod groups;
mod line;
mod messages;
mod reading;
mod terms;
mod unit_numbers;
mod values;

pub use line::{Line, Lines};
pub use values::{Message, Reading};
