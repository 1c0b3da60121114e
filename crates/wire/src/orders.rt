ghost use Rattle.std.specs.Prelude.{◌≡◌, length};
ghost use Rattle.message.specs.Commands.{orders};
ghost use Rattle.wire.specs.Octets.{command_octets};
ghost use Rattle.wire.specs.Sound.{afterwards, command_fault, outcome};

use crate::writing::write_sound;
use crate::written::check;
use fault::Fault;
use message::Command;

/// Writes a command, as `write_numbered` does a report.
pub fn write_command(out: &mut [u8], command: &Command) -> Result<usize, Fault>
    ensures value { result ≡ outcome (command_fault (orders command.now)) (command_octets (orders command.now)) (length out.old) }
    ensures after { out.new ≡ afterwards (command_fault (orders command.now)) (command_octets (orders command.now)) out.old }
{
    let groups = command.groups.as_slice();
    check(groups)?;
    write_sound(out, None, groups)
}
