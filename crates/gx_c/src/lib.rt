//! The entry from C: the check of a message, for the gateway's packet path. `include/gx.h` declares it.

#![tactic(auto)]

ghost use Rattle.std.specs.Prelude.{◌≡◌, ◌≤◌};
ghost use Rattle.message.specs.Check.{checked};

use message::check;

/// 0 where the octets are a sound message of the kind (1 report, 2 answer, 3 command), else the code of its fault,
/// 1 to 6; 5 for any other kind. In C a slice is a pointer and then a length.
#[unsafe(no_mangle)]
pub extern "C" fn gx_check(kind: u32, octets: &[u8]) -> u32
    ensures value { result ≡ checked kind octets.now }
    ensures bound { result ≤ 6 }
{
    check(kind, octets)
}
