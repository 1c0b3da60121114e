use crate::part::Part;

/// The numbers that a field may hold.
#[derive(Clone, Copy, Debug, PartialEq, Eq)]
pub struct Limits {
    pub least: u64,
    pub most: u64,
}

/// What a known AVP holds: a number, a key's octets or a group's octets. The last two still lie in the message.
#[derive(Clone, Copy, Debug)]
pub enum Field<'a> {
    Number(u64),
    Key(&'a [u8]),
    Group(Part<'a>),
}
