//! The numbers that a message holds: their limits, what small ones stand for, and the unit groups, which hold octets
//! granted or used.

#![tactic(auto)]

mod gathering;
mod numbers;
mod numerals;
mod values;

pub use gathering::read_units;
pub use numbers::limits;
pub use values::{Level, RequestType, Units};
