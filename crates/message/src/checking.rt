ghost use Rattle.std.specs.Prelude.{◌≡◌, ◌≤◌, length, Err};
ghost use Rattle.fault.specs.declared.Fault.{Fault};
ghost use Rattle.fault.specs.Within.{InMessage};
ghost use Rattle.message.specs.Check.{checked, numbered_kind, verdict_of};

use crate::values::{Answer, Command, Kind, Numbered, Report};
use fault::{Code, Fault};

fn read_as(kind: Kind, octets: &[u8]) -> Result<(), Fault>
    ensures { result ≡ verdict_of kind octets.now }
{
    match kind {
        Kind::Report => Report::read(octets).map(|_| ()),
        Kind::Answer => Answer::read(octets).map(|_| ()),
        Kind::Command => Command::read(octets).map(|_| ()),
    }
}

/// Whether the octets are a sound message of this kind, or the fault that comes first.
pub fn verdict(kind: Kind, octets: &[u8]) -> Result<(), Fault>
    ensures value { result ≡ verdict_of kind octets.now }
    ensures within { (f : Fault) → result ≡ Err f → InMessage (length octets.now) f }
{
    read_as(kind, octets)
}

impl TryFrom<u32> for Kind {
    type Error = Fault;

    ghost try_from_gives = { λ n r. r ≡ numbered_kind n };

    fn try_from(n: u32) -> Result<Kind, Fault> {
        match n {
            1 => Ok(Kind::Report),
            2 => Ok(Kind::Answer),
            3 => Ok(Kind::Command),
            _ => Err(Fault::call(Code::Range, 0)),
        }
    }
}

/// The verdict by numbers: kinds are 1 report, 2 answer and 3 command, any other is code 5; the answer is 0 for sound,
/// or the fault's code, 1 to 6.
pub fn check(kind: u32, octets: &[u8]) -> u32
    ensures value { result ≡ checked kind octets.now }
    ensures bound { result ≤ 6 }
{
    match Kind::try_from(kind).and_then(|kind| verdict(kind, octets)) {
        Ok(()) => 0,
        Err(fault) => fault.code.number(),
    }
}
