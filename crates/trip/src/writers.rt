ghost use Rattle.std.specs.Prelude.{◌≡◌, ℕ, List, length, take, IfOk, Ok};
ghost use Rattle.message.specs.Commands.{orders, read_command};
ghost use Rattle.message.specs.Numbered.{message as meant, read_numbered};
ghost use Rattle.wire.specs.Octets.{command_data, command_octets, numbered_octets};
ghost use Rattle.wire.specs.Sound.{afterwards, command_fault, numbered_fault, outcome};
ghost use Rattle.trip.specs.Back.{command_at, located, placed};
ghost use Rattle.trip.specs.Own.{Octets, OwnGroups, OwnNumbered, OwnOrdered};

use crate::trip::Trip;
use fault::Fault;
use message::{Command, Numbered};

/// Writes a report or an answer. A reader of what was written gets the message back, each group with the place where it
/// now starts. A message that was read from octets in the writer's own form is written as those octets.
pub fn write_numbered<V: Trip>(out: &mut [u8], message: &Numbered<V>) -> Result<usize, Fault>
    ensures value { result ≡ outcome (numbered_fault V.sound V.keyed (meant message.now)) (numbered_octets V.octets (meant message.now)) (length out.old) }
    ensures after { out.new ≡ afterwards (numbered_fault V.sound V.keyed (meant message.now)) (numbered_octets V.octets (meant message.now)) out.old }
    ensures back { IfOk result (λ n. read_numbered V.reads V.keyed (take n out.new) ≡ Ok (located V.moved V.octets (meant message.now))) }
    ensures again { IfOk result (λ n. (bs : List ℕ) → Octets bs → OwnNumbered V.Own bs → read_numbered V.reads V.keyed bs ≡ Ok (meant message.now) → take n out.new ≡ bs) }
{
    wire::write_numbered(out, message)
}

/// Writes a command, with the same promises.
pub fn write_command(out: &mut [u8], command: &Command) -> Result<usize, Fault>
    ensures value { result ≡ outcome (command_fault (orders command.now)) (command_octets (orders command.now)) (length out.old) }
    ensures after { out.new ≡ afterwards (command_fault (orders command.now)) (command_octets (orders command.now)) out.old }
    ensures back { IfOk result (λ n. read_command (take n out.new) ≡ Ok (placed command_at command_data 0 (orders command.now))) }
    ensures again { IfOk result (λ n. (bs : List ℕ) → Octets bs → OwnGroups OwnOrdered bs → read_command bs ≡ Ok (orders command.now) → take n out.new ≡ bs) }
{
    wire::write_command(out, command)
}
