//! One Usage-Monitoring-Information, as a report, an answer or a command holds it. It knows nothing of the message
//! around it, but for the place where the group starts.

#![tactic(auto)]

mod answer;
mod command;
mod members;
mod report;
mod values;

pub use answer::read_answer_group;
pub use command::read_command_group;
pub use report::read_report_group;
pub use values::{AnswerGroup, CommandGroup, Order, ReportGroup};
