ghost use Rattle.std.specs.Prelude.{◌≡◌, ℕ, ◌+◌, ◌^◌, ◌<◌, length};
ghost use Rattle.hexadecimal.specs.Text.{Answers, Inside};
ghost use Rattle.request.specs.Lines.{dash, in_line, kind_of, message_of, octets_after};

use hexadecimal::HexError;
use message::Kind;
use std::alloc::Global;
use std::fmt;
use words::word_length;

/// A message as a line of input gives it.
#[derive(Drop)]
pub struct Request {
    pub kind: Kind,
    pub octets: Vec<u8>,
}

/// Why a line is no message.
#[derive(Clone, Copy)]
pub enum LineError {
    UnknownKind,
    /// The character at this column, counted from 1, is neither a digit nor a space.
    NotADigit(usize),
    OddDigits,
    NoMemory,
}

impl fmt::Display for LineError {
    fn fmt<W: fmt::Write>(&self, f: &mut fmt::Formatter<W>) -> fmt::Result {
        match self {
            LineError::UnknownKind => {
                f.write_str("it must begin with report, answer or command, in lower case")
            }
            LineError::NotADigit(column) => {
                write!(
                    f,
                    "column {column} must hold a hexadecimal digit or a space"
                )
            }
            LineError::OddDigits => f.write_str(
                "the last octet has one hexadecimal digit and needs two",
            ),
            LineError::NoMemory => f.write_str("there is no memory left for its octets"),
        }
    }
}

#[tactic(auto, using(words::proofs::Same::spelled))]
fn kind_of(word: &[u8]) -> Option<Kind>
    ensures { result ≡ kind_of Kind.Report Kind.Answer Kind.Command word.now }
{
    match word {
        b"report" => Some(Kind::Report),
        b"answer" => Some(Kind::Answer),
        b"command" => Some(Kind::Command),
        _ => None,
    }
}

// Whether the text is one dash, with spaces around it or not.
fn is_dash(text: &[u8]) -> bool
    ensures { result ≡ dash text.now }
{
    let mut seen = false;
    for character in text {
        if *character == b' ' {
            continue;
        }
        if seen || *character != b'-' {
            return false;
        }
        seen = true;
    }
    seen
}

// What is wrong with octets that stand behind so many characters of their line.
fn in_line(before: usize, error: HexError) -> LineError
    requires { (size : ℕ) × (before + size < 2 ^ 64) × Inside error size }
    ensures { result ≡ in_line before error }
{
    match error {
        HexError::NotADigit(place) => LineError::NotADigit(before + place + 1),
        HexError::Odd => LineError::OddDigits,
        HexError::NoMemory => LineError::NoMemory,
    }
}

// The octets of a text that follows so many characters of its line.
fn octets_after(heap: Global, before: usize, text: &[u8]) -> Result<Vec<u8>, LineError>
    requires { before + length text.now < 2 ^ 64 }
    ensures { Answers LineError.NoMemory (λ v. v.items) result (octets_after before text.now) }
{
    if is_dash(text) {
        return Ok(Vec::new(heap));
    }
    hexadecimal::decode(heap, text).map_err(|error| in_line(before, error))
}

impl Request {
    /// The message of a line.
    pub fn parse(heap: Global, line: &[u8]) -> Result<Request, LineError>
        ensures { Answers LineError.NoMemory (λ q. (q.kind, q.octets.items)) result (message_of Kind.Report Kind.Answer Kind.Command line.now) }
    {
        let before = word_length(line);
        let (word, rest) = line.split_at(before);
        let kind = kind_of(word).ok_or(LineError::UnknownKind)?;
        let octets = octets_after(heap, before, rest)?;
        Ok(Request { kind, octets })
    }
}
