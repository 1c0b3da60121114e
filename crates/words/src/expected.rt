use avp::Limits;
use std::fmt;

/// What was expected where a text goes wrong.
#[derive(Clone, Copy)]
pub enum Expected {
    /// The first word of a message.
    Kind,
    /// A number within these limits.
    Number(Limits),
    RequestType,
    /// The first word of a line of a report.
    Used,
    /// The first word of a line of an answer.
    GrantOrStop,
    /// The first word of a line of a command.
    Order,
    Key,
    /// A key that begins with `x:`.
    HexKey,
    Level,
    Form,
    /// No word more on this line.
    End,
    /// A key that no earlier line has.
    OtherKey,
    /// No seventeenth group.
    NoMore,
}

impl fmt::Display for Expected {
    fn fmt<W: fmt::Write>(&self, f: &mut fmt::Formatter<W>) -> fmt::Result {
        match self {
            Expected::Kind => f.write_str("expected a kind, report, answer or command"),
            Expected::Number(limits) => {
                let least = limits.least;
                let most = limits.most;
                write!(f, "expected a number in decimal digits, {least} to {most}")
            }
            Expected::RequestType => f.write_str("expected a type, update or termination"),
            Expected::Used => f.write_str("expected used"),
            Expected::GrantOrStop => f.write_str("expected grant or stop"),
            Expected::Order => f.write_str("expected grant, disable or request"),
            Expected::Key => f.write_str(KEY),
            Expected::HexKey => f.write_str(HEX_KEY),
            Expected::Level => f.write_str("expected a level, session or rule"),
            Expected::Form => f.write_str("expected a form, total, uplink, downlink or both"),
            Expected::End => f.write_str("too many words, expected the end of the line"),
            Expected::OtherKey => f.write_str(
                "repeated key, expected one that no earlier line has",
            ),
            Expected::NoMore => f.write_str("too many groups, expected at most 16"),
        }
    }
}

const KEY: &str =
    "expected a key, 1 to 16 printable characters without space, colon, # and @, or x: and hexadecimal";

const HEX_KEY: &str =
    "expected the hexadecimal digits of a key behind x:, two for each of its 1 to 16 octets";
