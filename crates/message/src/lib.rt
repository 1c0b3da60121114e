//! Reports, answers and commands, read whole from any octets into values of a bounded size, or refused with the fault
//! that comes first. It reads and checks; it does not write, and it acts on nothing.

#![tactic(auto)]

mod adding;
mod checking;
mod commands;
mod entry;
mod groups;
mod numbered;
mod values;

pub use adding::has_key;
pub use checking::{check, verdict};
pub use entry::Entry;
pub use groups::Groups;
pub use values::{Answer, Command, Kind, Numbered, Report};
