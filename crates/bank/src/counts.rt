/// The octets that are counted at one place.
#[derive(Clone, Copy, Debug, PartialEq, Eq)]
pub struct Counts {
    pub uplink: u64,
    pub downlink: u64,
}
