//! Messages of any kind, from octets and to octets.
ghost use Rattle.std.specs.Prelude.{◌≡◌, length};
ghost use Rattle.group.specs.Members.{meaning};
ghost use Rattle.text.specs.Messages.{meant};
ghost use Rattle.text_trip.specs.Back.{told_fault};
ghost use Rattle.wire.specs.Sound.{afterwards, outcome};
ghost use Rattle.cli.specs.Octets.{message_read, message_octets};

use fault::Fault;
use message::{Answer, Command, Kind, Report};
use text::Message;
use trip::{write_command, write_numbered};

/// The message of this kind that the octets are.
pub fn read_message(kind: Kind, octets: &[u8]) -> Result<Message, Fault>
    ensures { meaning meant result ≡ message_read kind octets.now }
{
    match kind {
        Kind::Report => Ok(Message::Report(Report::read(octets)?)),
        Kind::Answer => Ok(Message::Answer(Answer::read(octets)?)),
        Kind::Command => Ok(Message::Command(Command::read(octets)?)),
    }
}

/// Writes a message into lent octets, and says how many it has.
pub fn write_message(out: &mut [u8], message: &Message) -> Result<usize, Fault>
    ensures value { result ≡ outcome (told_fault (meant message.now)) (message_octets (meant message.now)) (length out.old) }
    ensures after { out.new ≡ afterwards (told_fault (meant message.now)) (message_octets (meant message.now)) out.old }
{
    match message {
        Message::Report(report) => write_numbered(out, report),
        Message::Answer(answer) => write_numbered(out, answer),
        Message::Command(command) => write_command(out, command),
    }
}
