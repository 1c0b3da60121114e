//! `gx write`: the octets of one message's text.
ghost use Rattle.std.specs.Prelude.{◌≤◌, IfOk};
ghost use Rattle.std.specs.Process.{exit_status};

use crate::octets::write_message;
use std::io::{BufRead, BufReader};
use std::process::ExitCode;
use std::{fmt, io};
use text::{Message, Reading};
use words::Expected;

/// A line of a text that is wrong, and what was expected there.
#[derive(Clone, Copy)]
pub struct TextFault {
    pub line: u64,
    pub expected: Expected,
}

impl fmt::Display for TextFault {
    fn fmt<W: fmt::Write>(&self, f: &mut fmt::Formatter<W>) -> fmt::Result {
        let line = self.line;
        let expected = self.expected;
        write!(f, "line {line}: {expected}")
    }
}

// Why no message was read: its text is wrong, or the text cannot be read.
#[derive(Drop)]
enum ReadError {
    Text(TextFault),
    Io(io::Error),
}

impl From<io::Error> for ReadError {
    fn from(error: io::Error) -> ReadError {
        ReadError::Io(error)
    }
}

// A text that is wrong gives the process a status that a script can test.
pub(crate) fn write(rt: &HostRuntime) -> io::Result<ExitCode>
    ensures { IfOk result (λ code. exit_status code ≤ 1) }
{
    match read(rt) {
        Ok(message) => {
            print(rt, &message)?;
            Ok(ExitCode::SUCCESS)
        }
        Err(ReadError::Text(fault)) => {
            rt.eprintln(fault)?;
            Ok(ExitCode::FAILURE)
        }
        Err(ReadError::Io(error)) => Err(error),
    }
}

// Reads the text on standard input. A text without a message is at fault behind its last line.
fn read(rt: &HostRuntime) -> Result<Message, ReadError> {
    let mut reading = Reading::new();
    let mut line: u64 = 1;
    for octets in BufReader::new(rt.alloc(), rt.stdin())?.split(rt.alloc(), b'\n') {
        let octets = octets?;
        reading
            .line(octets.as_slice())
            .map_err(|expected| ReadError::Text(TextFault { line, expected }))?;
        line = line.saturating_add(1);
    }
    reading
        .finish()
        .map_err(|expected| ReadError::Text(TextFault { line, expected }))
}

// No message has more than 1560 octets.
fn print(rt: &HostRuntime, message: &Message) -> io::Result<()> {
    let mut octets = [0; 1560];
    let written = write_message(&mut octets, message)
        .ok()
        .and_then(|length| octets.get(..length));
    match written {
        Some(octets) => rt.println(hexadecimal::encode(octets)),
        None => Err(io::Error::from(io::ErrorKind::InvalidData)),
    }
}
