//! A refusal put into words: its code, layer and place, what to mend, and the AVP at that place by its name. What is
//! wrong with a message is decided elsewhere.

#![tactic(auto)]

mod call;
mod refusal;
mod subject;
mod walk;

pub use refusal::Refusal;
