//! The writers of messages with what they promise to readers: what was written reads back as it was meant, and octets in
//! the writer's own form are written again exactly. The crate below writes; what is added here are the theorems, each
//! proved once for every kind of group.

#![tactic(auto)]

mod trip;
mod writers;

pub use trip::Trip;
pub use writers::{write_command, write_numbered};
