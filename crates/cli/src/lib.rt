//! The commands of the program `gx`: what the words after its name ask for, the reading of input lines, and the printing
//! of every answer. What a message means is decided elsewhere; here it is only read, shown and written.

#![tactic(auto)]

mod answer;
mod check;
mod command;
mod octets;
mod show;
mod tally;
mod texts;
mod usage;
mod write;

pub use command::Command;
pub use octets::{read_message, write_message};
pub use texts::TextCommand;
pub use write::TextFault;
