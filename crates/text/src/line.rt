ghost use Rattle.std.specs.Prelude.{◌≡◌, ℕ, List, map, Some, Result};
ghost use Rattle.std.specs.Fmt.{WritesOnOk};
ghost use Rattle.message.specs.Groups.{list_of};
ghost use Rattle.words.specs.declared.expected.Expected.{Expected};
ghost use Rattle.text.specs.Messages.{Answered, line_joins, text_of};

use message::{Entry, Groups, has_key};
use std::fmt;
use words::Expected;

/// A group that a line of text writes.
pub trait Line: Entry {
    ghost parses: { List ℕ → Result Self Expected };

    ghost lined: { Self → List ℕ };

    /// The group that a line writes.
    fn parse(line: &[u8]) -> Result<Self, Expected>
        ensures { result ≡ parses line.now };

    /// Prints the line that writes the group.
    fn fmt_line<W: fmt::Write>(&self, f: &mut fmt::Formatter<W>) -> fmt::Result
        ensures { WritesOnOk W.write_str_gives f.old result (lined self.now) f.new };
}

/// Groups, which print a line each.
#[derive(Clone, Copy)]
pub struct Lines<'a, V>(pub &'a [V]);

impl<V: Line> fmt::Display for Lines<'_, V> {
    ghost output = { λ lines. Some (text_of (map V.Line.lined lines.0.now)) };

    fn fmt<W: fmt::Write>(&self, f: &mut fmt::Formatter<W>) -> fmt::Result {
        for group in self.0 {
            group.fmt_line(f)?;
            f.write_str("\n")?;
        }
        Ok(())
    }
}

// One group more, which a line writes.
pub(crate) fn add_line<V: Line>(groups: &mut Groups<V>, line: &[u8]) -> Result<(), Expected>
    ensures { Answered result (line_joins V.Line.parses V.Entry.keyed (list_of groups.old) line.now) (list_of groups.old) (list_of groups.new) }
{
    let group = V::parse(line)?;
    if has_key(groups.as_slice(), group.key()) {
        return Err(Expected::OtherKey);
    }
    groups.push(group).map_err(|_| Expected::NoMore)
}
