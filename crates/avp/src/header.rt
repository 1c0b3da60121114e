use crate::part::Part;

/// One AVP as it stands in a message.
#[derive(Clone, Copy, Debug)]
pub struct Avp<'a> {
    pub code: u32,
    pub flags: u8,
    /// Only with flag 80.
    pub vendor: Option<u32>,
    /// Where the AVP starts.
    pub place: usize,
    /// The data, without the padding.
    pub body: Part<'a>,
    /// What follows the padding.
    pub rest: Part<'a>,
}
