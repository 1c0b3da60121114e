//! What both ends of a session hold: the meter's rules and places, the ledger's accounts. Their rules stand under specs/,
//! as functions from a state and a call's arguments to a state and an outcome, and so does the balance between the two
//! ends, which is proved here of every list of calls, whatever the link loses, delays or repeats.

#![tactic(auto)]

mod theorems;
mod values;

pub use theorems::balanced;
pub use values::{Account, Place, Plan, Reason, Rule, Sent};
