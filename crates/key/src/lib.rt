//! Monitoring-Keys: values of 1 to 16 octets that can be kept, copied and compared. A key lies in no message.

#![tactic(auto)]

mod key;

pub use key::Key;
