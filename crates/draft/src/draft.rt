ghost use Rattle.std.specs.Prelude.{◌≡◌, ◌≤◌, length, replicate};

/// A message that is being written. Its end fills all the lent octets with 0, unless the message was finished: so it
/// keeps all of them, and not only those that are left.
pub struct Draft<'a> {
    pub(crate) out: &'a mut [u8],
    pub(crate) len: usize,
    pub ghost fits: { len ≤ length out.now },
}

impl Drop for Draft<'_> {
    fn drop(self)
        ensures { self.exit.0.now ≡ replicate (length self.entry.out.now) 0 }
    {
        let Draft { out, len: _ } = self;
        out.fill(0);
    }
}

impl<'a> Draft<'a> {
    /// Begins a message.
    pub fn begin(out: &'a mut [u8]) -> Draft<'a>
        ensures none { result.len ≡ 0 }
        ensures same { result.out.now ≡ out.old }
        ensures lent { result.out.ghost_name ≡ out.entry.ghost_name }
    {
        Draft { out, len: 0 }
    }

    /// Ends the message, and answers its length; the octets stay as they are.
    pub fn finish(self) -> usize
        ensures count { result ≡ self.entry.len }
        ensures stays { self.exit.0.now ≡ self.entry.out.now }
    {
        let Draft { out: _, len } = self;
        len
    }
}
