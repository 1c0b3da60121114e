//! Reports, answers and commands, written into octets that the caller lends, in one fixed form. It decides no value: it
//! writes what it is given, or refuses what no sound message can hold.

#![tactic(auto)]

mod answer;
mod command;
mod data;
mod numbered;
mod orders;
mod parts;
mod report;
mod sound;
mod writing;
mod written;

pub use data::Data;
pub use numbered::write_numbered;
pub use orders::write_command;
pub use written::Written;
