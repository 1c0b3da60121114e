use key::Key;
use units::{Level, Units};

/// Why a key's octets are to be reported. The last three close its place, which then counts no more.
#[derive(Clone, Copy, Debug, PartialEq, Eq)]
pub enum Reason {
    Reached,
    Requested,
    Removed,
    Disabled,
    Ended,
}

/// What the unanswered report says of a place.
#[derive(Clone, Copy, Debug)]
pub struct Sent {
    /// The octets that were reported.
    pub used: Units,
    /// Whether the place was closing by then.
    pub closing: bool,
}

/// A monitoring key that the meter keeps.
#[derive(Clone, Copy, Debug)]
pub struct Place {
    pub key: Key,
    pub level: Level,
    /// Their form is the key's form.
    pub thresholds: Units,
    /// Why the key is due, if it is.
    pub reason: Option<Reason>,
    /// What stands of it in the unanswered report, if it stands there.
    pub sent: Option<Sent>,
}

/// A rule that is installed; its packets count for its key, if it has one.
#[derive(Clone, Copy, Debug)]
pub struct Rule {
    pub number: u64,
    pub key: Option<Key>,
}

/// How the next threshold follows from what remains.
#[derive(Clone, Copy, Debug, PartialEq, Eq)]
pub enum Plan {
    /// So many octets at a time.
    Step(u64),
    /// So many per cent of what remains.
    Share(u64),
}

/// What the ledger keeps under a key.
#[derive(Clone, Copy, Debug)]
pub struct Account {
    pub key: Key,
    pub allowance: u64,
    pub plan: Plan,
    pub deducted: u64,
}
