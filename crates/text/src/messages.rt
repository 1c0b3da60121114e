ghost use Rattle.std.specs.Prelude.{◌≡◌, ◌++◌, Some, codes, decimal};
ghost use Rattle.message.specs.Numbered.{message as numbered};
ghost use Rattle.words.specs.Names.{type_word};
ghost use Rattle.text.specs.Messages.{Answered, begun, extended, head_read, lines_of, meant, meant_by, started, text_of};

use crate::line::{Lines, add_line};
use crate::values::Message;
use avp::Name;
use information::CommandGroup;
use message::{Command, Entry, Groups, Numbered};
use std::fmt;
use units::{RequestType, limits};
use words::{Expected, end, first_word, read_number, read_type, type_word};

/// The number and the type of a report or an answer, as its first line has them.
#[derive(Clone, Copy)]
pub(crate) struct Head {
    pub(crate) number: u64,
    pub(crate) request_type: RequestType,
}

impl Head {
    fn of<V>(message: &Numbered<V>) -> Head
        ensures { result ≡ record { number = message.now.number; request_type = message.now.request_type } }
    {
        Head {
            number: message.number,
            request_type: message.request_type,
        }
    }

    // The message that it begins, without groups.
    fn start<V: Entry>(self) -> Numbered<V>
        ensures { numbered result ≡ started self }
    {
        Numbered {
            number: self.number,
            request_type: self.request_type,
            groups: Groups::new(V::blank()),
        }
    }
}

fn read_head(text: &[u8]) -> Result<Head, Expected>
    ensures { result ≡ head_read text.now }
{
    let (word, rest) = first_word(text);
    let number = read_number(word, limits(Name::CcRequestNumber, false))?;
    let (word, rest) = first_word(rest);
    let request_type = read_type(word)?;
    end(rest)?;
    Ok(Head {
        number,
        request_type,
    })
}

impl fmt::Display for Head {
    ghost output = { λ head. Some (decimal head.number ++ (codes " " ++ type_word head.request_type)) };

    fn fmt<W: fmt::Write>(&self, f: &mut fmt::Formatter<W>) -> fmt::Result {
        let number = self.number;
        let word = type_word(self.request_type);
        write!(f, "{number} {word}")
    }
}

impl Message {
    /// The message that the first line of a text begins, without groups.
    #[tactic(auto, using(words::proofs::Same::spelled))]
    pub fn begin(line: &[u8]) -> Result<Message, Expected>
        ensures { meant_by result ≡ begun line.now }
    {
        let (word, rest) = first_word(line);
        match word {
            b"report" => Ok(Message::Report(read_head(rest)?.start())),
            b"answer" => Ok(Message::Answer(read_head(rest)?.start())),
            b"command" => {
                end(rest)?;
                Ok(Message::Command(Command {
                    groups: Groups::new(CommandGroup::blank()),
                }))
            }
            _ => Err(Expected::Kind),
        }
    }

    /// One group more, which a line writes. A line that is refused changes nothing.
    pub fn add(&mut self, line: &[u8]) -> Result<(), Expected>
        ensures { Answered result (extended (meant self.old) line.now) (meant self.old) (meant self.new) }
    {
        match self {
            Message::Report(report) => add_line(&mut report.groups, line),
            Message::Answer(answer) => add_line(&mut answer.groups, line),
            Message::Command(command) => add_line(&mut command.groups, line),
        }
    }
}

/// A message prints as its text, line by line.
impl fmt::Display for Message {
    ghost output = { λ message. Some (text_of (lines_of (meant message))) };

    fn fmt<W: fmt::Write>(&self, f: &mut fmt::Formatter<W>) -> fmt::Result {
        match self {
            Message::Report(report) => {
                let head = Head::of(report);
                let groups = Lines(report.groups.as_slice());
                write!(f, "report {head}\n{groups}")
            }
            Message::Answer(answer) => {
                let head = Head::of(answer);
                let groups = Lines(answer.groups.as_slice());
                write!(f, "answer {head}\n{groups}")
            }
            Message::Command(command) => {
                let groups = Lines(command.groups.as_slice());
                write!(f, "command\n{groups}")
            }
        }
    }
}
