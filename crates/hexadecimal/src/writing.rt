ghost use Rattle.std.specs.Prelude.{◌≡◌, [], ◌∷◌, Some, Ok};
ghost use Rattle.std.specs.Fmt.{WritesOnOk};
ghost use Rattle.hexadecimal.specs.Text.{octets_of, text_of};

use crate::digit::letter;
use std::fmt;
use std::str::from_utf8;

/// Octets that print in lowercase digits, two to an octet.
#[derive(Clone, Copy)]
pub struct Hex<'a>(&'a [u8]);

/// The octets as text, which `decode` reads back.
pub fn encode(octets: &[u8]) -> Hex<'_>
    ensures value { result.0.now ≡ octets.now }
    ensures reads_back { octets_of (text_of octets.now) ≡ Ok octets.now }
{
    Hex(octets)
}

// The letters of four octets go in one piece, for each piece has its price.
fn write_four<W: fmt::Write>(f: &mut fmt::Formatter<W>, a: u8, b: u8, c: u8, d: u8) -> fmt::Result
    ensures { WritesOnOk W.write_str_gives f.old result (text_of (a ∷ b ∷ c ∷ d ∷ [])) f.new }
{
    let letters = [
        letter(a / 16),
        letter(a % 16),
        letter(b / 16),
        letter(b % 16),
        letter(c / 16),
        letter(c % 16),
        letter(d / 16),
        letter(d % 16),
    ];
    match from_utf8(&letters) {
        Ok(text) => f.write_str(text),
        Err(_) => unreachable!(),
    }
}

fn write_octet<W: fmt::Write>(f: &mut fmt::Formatter<W>, octet: u8) -> fmt::Result
    ensures { WritesOnOk W.write_str_gives f.old result (text_of (octet ∷ [])) f.new }
{
    f.write_char(char::from(letter(octet / 16)))?;
    f.write_char(char::from(letter(octet % 16)))
}

fn write_octets<W: fmt::Write>(f: &mut fmt::Formatter<W>, octets: &[u8]) -> fmt::Result
    ensures { WritesOnOk W.write_str_gives f.old result (text_of octets.now) f.new }
{
    for octet in octets {
        write_octet(f, *octet)?;
    }
    Ok(())
}

impl fmt::Display for Hex<'_> {
    ghost output = { λ hex. Some (text_of hex.0.now) };

    fn fmt<W: fmt::Write>(&self, f: &mut fmt::Formatter<W>) -> fmt::Result {
        let mut octets = self.0;
        while let [a, b, c, d, rest @ ..] = octets {
            write_four(f, *a, *b, *c, *d)?;
            octets = rest;
        }
        write_octets(f, octets)
    }
}
