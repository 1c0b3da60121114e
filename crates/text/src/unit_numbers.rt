ghost use Rattle.std.specs.Prelude.{◌≡◌, Some};
ghost use Rattle.text.specs.Units.{both_read, units_read, units_text};

use avp::Name;
use std::fmt;
use units::{Units, limits};
use words::{Expected, first_word, read_last_number, read_number};

/// Units, which print as the words that end a line, each with a space before it.
#[derive(Clone, Copy)]
pub(crate) struct UnitWords(pub(crate) Units);

fn read_both(text: &[u8], granted: bool) -> Result<Units, Expected>
    ensures { result ≡ both_read granted text.now }
{
    let (first, rest) = first_word(text);
    let uplink = read_number(first, limits(Name::CcInputOctets, granted))?;
    let downlink = read_last_number(rest, limits(Name::CcOutputOctets, granted))?;
    Ok(Units::Both { uplink, downlink })
}

// The units that end a line; granted ones have other limits than used ones.
#[tactic(auto, using(words::proofs::Same::spelled))]
pub(crate) fn read_units(text: &[u8], granted: bool) -> Result<Units, Expected>
    ensures { result ≡ units_read granted text.now }
{
    let (form, rest) = first_word(text);
    let number = |name| read_last_number(rest, limits(name, granted));
    match form {
        b"total" => Ok(Units::Total(number(Name::CcTotalOctets)?)),
        b"uplink" => Ok(Units::Uplink(number(Name::CcInputOctets)?)),
        b"downlink" => Ok(Units::Downlink(number(Name::CcOutputOctets)?)),
        b"both" => read_both(rest, granted),
        _ => Err(Expected::Form),
    }
}

impl fmt::Display for UnitWords {
    ghost output = { λ words. Some (units_text words.0) };

    fn fmt<W: fmt::Write>(&self, f: &mut fmt::Formatter<W>) -> fmt::Result {
        match self.0 {
            Units::Total(total) => write!(f, " total {total}"),
            Units::Uplink(uplink) => write!(f, " uplink {uplink}"),
            Units::Downlink(downlink) => write!(f, " downlink {downlink}"),
            Units::Both { uplink, downlink } => write!(f, " both {uplink} {downlink}"),
        }
    }
}
