/// What a key counts: the octets of its rules, or of the whole session.
#[derive(Clone, Copy, Debug, PartialEq, Eq)]
pub enum Level {
    Session,
    Rule,
}

/// Why a report was sent.
#[derive(Clone, Copy, Debug, PartialEq, Eq)]
pub enum RequestType {
    Update,
    Termination,
}

/// Octets granted or used. Which numbers there are is the key's form: one total, one direction alone, or both.
#[derive(Clone, Copy, Debug, PartialEq, Eq)]
pub enum Units {
    Total(u64),
    Uplink(u64),
    Downlink(u64),
    Both { uplink: u64, downlink: u64 },
}

/// What is known of a unit group so far.
#[derive(Clone, Copy)]
pub struct UnitsSoFar {
    /// Granted units have other limits than used ones.
    pub(crate) granted: bool,
    pub(crate) total: Option<u64>,
    pub(crate) uplink: Option<u64>,
    pub(crate) downlink: Option<u64>,
}
