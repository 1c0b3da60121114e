ghost use Rattle.std.specs.Prelude.{◌≡◌, None};
ghost use Rattle.text.specs.Messages.{Answered, meant_by};
ghost use Rattle.text.specs.Reading.{line_read, so_far, whole_of};

use crate::values::{Message, Reading};
use words::{Expected, is_skipped, without_return};

impl Reading {
    /// Nothing is read yet.
    pub fn new() -> Reading
        ensures { so_far result ≡ None }
    {
        Reading { message: None }
    }

    /// Reads one line more, without the line feed at its end. A line that is refused changes nothing.
    pub fn line(&mut self, line: &[u8]) -> Result<(), Expected>
        ensures { Answered result (line_read (so_far self.old) line.now) (so_far self.old) (so_far self.new) }
    {
        let line = without_return(line);
        if is_skipped(line) {
            return Ok(());
        }
        match &mut self.message {
            Some(message) => message.add(line),
            None => {
                self.message = Some(Message::begin(line)?);
                Ok(())
            }
        }
    }

    /// The message that was read, if its first line was.
    pub fn finish(&self) -> Result<Message, Expected>
        ensures { meant_by result ≡ whole_of (so_far self.now) }
    {
        self.message.ok_or(Expected::Kind)
    }
}
