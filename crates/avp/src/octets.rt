//! Numbers in octets, the most significant octet first.
ghost use Rattle.std.specs.Prelude.{◌≡◌, ◌+◌, ◌≤◌, length};
ghost use Rattle.avp.specs.Octets.{u24_at, u32_at, u64_at};

pub(crate) fn u24_at(octets: &[u8], at: usize) -> u32
    requires { at + 3 ≤ length octets.now }
    ensures { result ≡ u24_at octets.now at }
{
    u32::from_be_bytes([0, octets[at], octets[at + 1], octets[at + 2]])
}

pub(crate) fn u32_at(octets: &[u8], at: usize) -> u32
    requires { at + 4 ≤ length octets.now }
    ensures { result ≡ u32_at octets.now at }
{
    u32::from_be_bytes([octets[at], octets[at + 1], octets[at + 2], octets[at + 3]])
}

pub(crate) fn u64_at(octets: &[u8], at: usize) -> u64
    requires { at + 8 ≤ length octets.now }
    ensures { result ≡ u64_at octets.now at }
{
    u64::from_be_bytes([
        octets[at],
        octets[at + 1],
        octets[at + 2],
        octets[at + 3],
        octets[at + 4],
        octets[at + 5],
        octets[at + 6],
        octets[at + 7],
    ])
}
