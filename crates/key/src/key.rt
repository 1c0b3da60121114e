ghost use Rattle.std.specs.Prelude.{◌≡◌, ◌≤◌, length};
ghost use Rattle.key.specs.Keys.{blank_key, key_of, octets_of, same_key};

/// A Monitoring-Key: 1 to 16 octets.
#[derive(Clone, Copy, Debug, PartialEq, Eq)]
pub struct Key {
    size: usize,
    // the key's octets, and zeros behind them
    octets: [u8; 16],
}

impl Key {
    /// The key of no octets, which no message holds.
    pub fn blank() -> Key
        ensures { result ≡ blank_key }
    {
        Key {
            size: 0,
            octets: [0; 16],
        }
    }

    /// The key of these octets, if they are 1 to 16.
    #[tactic(auto, using(crate::proofs::Padded::padded))]
    pub fn new(octets: &[u8]) -> Option<Key>
        ensures { result ≡ key_of octets.now }
    {
        let size = octets.len();
        if !(1..=16).contains(&size) {
            return None;
        }
        let mut padded = [0; 16];
        padded[..size].copy_from_slice(octets);
        Some(Key {
            size,
            octets: padded,
        })
    }

    /// Whether two keys are one, as `==` answers too.
    pub fn is(&self, other: &Key) -> bool
        ensures { result ≡ same_key self.now other.now }
    {
        self == other
    }

    /// The key's octets.
    pub fn octets(&self) -> &[u8]
        ensures value { result.now ≡ octets_of self.now }
        ensures bound { length result.now ≤ 16 }
    {
        &self.octets[..self.size.min(16)]
    }
}
