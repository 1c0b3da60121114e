//! Diameter AVPs read from octets, one at a time: the header and its limits, the twelve AVPs that are known, and what
//! their data hold. It knows nothing of which AVP may stand where.

#![tactic(auto)]

mod field;
mod header;
mod meaning;
mod name;
mod name_text;
mod octets;
mod part;
mod reading;

pub use field::{Field, Limits};
pub use header::Avp;
pub use name::Name;
pub use part::Part;
