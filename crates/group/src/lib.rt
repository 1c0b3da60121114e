//! The members of a group or message, one after the other. It knows how any group is read, and none in particular.

#![tactic(auto)]

mod members;

pub use members::{Group, read};
