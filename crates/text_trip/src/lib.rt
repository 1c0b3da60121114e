//! The text form of messages with what it promises: the text of a sound message reads back as that message. The crate
//! below prints the text; what is added here is the theorem.

#![tactic(auto)]

ghost use Rattle.std.specs.Prelude.{◌≡◌, ◌++◌, Some, string_bytes, OnOk};
ghost use Rattle.text.specs.Messages.{lines_of, meant, text_of};
ghost use Rattle.text_trip.specs.Back.{ReadsBack};

use std::fmt;
use text::Message;

/// A message that prints as its text.
#[derive(Clone, Copy)]
pub struct MessageText<'a>(&'a Message);

/// A message as text. A reader of what it prints gets the message back, each group with the place 0, if it is a message
/// that a writer of octets accepts.
pub fn printed(message: &Message) -> MessageText<'_>
    ensures value { result.0.now ≡ message.now }
    ensures reads_back { ReadsBack (meant message.now) }
{
    MessageText(message)
}

impl fmt::Display for MessageText<'_> {
    ghost output = { λ text. Some (text_of (lines_of (meant text.0.now))) };

    fn fmt<W: fmt::Write>(&self, f: &mut fmt::Formatter<W>) -> fmt::Result {
        let message = self.0;
        write!(f, "{message}")
    }
}

/// Puts a message behind a text, as `printed` shows it.
pub fn push_message(text: &mut String, message: &Message) -> fmt::Result
    ensures text { OnOk result (string_bytes text.new ≡ string_bytes text.old ++ text_of (lines_of (meant message.now))) }
    ensures reads_back { ReadsBack (meant message.now) }
{
    let message = printed(message);
    Ok(write!(text, "{message}")?)
}
