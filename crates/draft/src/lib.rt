//! A message under way in octets that the caller lends. What is begun and not finished leaves the octets all 0. It
//! knows one AVP at a time, and not which AVPs make a message.

#![tactic(auto)]

mod avps;
mod draft;
mod writing;

pub use draft::Draft;
