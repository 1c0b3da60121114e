ghost use Rattle.std.specs.Prelude.{◌+◌, ◌^◌, ◌<◌, length};

/// A part of a message's octets, with its place in the message: the whole message, the data of an AVP, or what follows
/// one.
#[derive(Clone, Copy, Debug)]
pub struct Part<'a> {
    pub(crate) octets: &'a [u8],
    pub(crate) place: usize,
    ghost bound: { place + length octets.now < 2 ^ 64 },
}
