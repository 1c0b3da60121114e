ghost use Rattle.std.specs.Prelude.{◌≡◌, length};
ghost use Rattle.message.specs.Numbered.{message as meant};
ghost use Rattle.wire.specs.Octets.{numbered_octets};
ghost use Rattle.wire.specs.Sound.{afterwards, numbered_fault, outcome};

use crate::writing::{Start, write_sound};
use crate::written::{Written, check};
use avp::Name;
use fault::{Code, Fault};
use message::Numbered;
use units::limits;

/// Writes a report or an answer, and answers its length. A value that no such message can hold is refused with code 5,
/// or 6 for a repeated key, and leaves the octets as they were; too few octets are refused with code 22 and are all 0
/// afterwards.
pub fn write_numbered<V: Written>(out: &mut [u8], message: &Numbered<V>) -> Result<usize, Fault>
    ensures value { result ≡ outcome (numbered_fault V.sound V.keyed (meant message.now)) (numbered_octets V.octets (meant message.now)) (length out.old) }
    ensures after { out.new ≡ afterwards (numbered_fault V.sound V.keyed (meant message.now)) (numbered_octets V.octets (meant message.now)) out.old }
{
    if !limits(Name::CcRequestNumber, false).allow(message.number) {
        return Err(Fault::call(Code::Range, 0));
    }
    let groups = message.groups.as_slice();
    check(groups)?;
    let start = Start {
        number: message.number as u32,
        request_type: message.request_type,
    };
    write_sound(out, Some(start), groups)
}
