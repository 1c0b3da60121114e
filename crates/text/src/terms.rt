ghost use Rattle.std.specs.Prelude.{◌≡◌, Some};
ghost use Rattle.text.specs.Groups.{keyed_text, last_key, terms_read, terms_text};

use crate::unit_numbers::{UnitWords, read_units};
use key::Key;
use std::fmt;
use units::{Level, Units};
use words::{Expected, KeyWord, end, first_word, level_word, read_key, read_level};

/// What a line says of a key that counts.
#[derive(Clone, Copy)]
pub(crate) struct Terms {
    pub(crate) key: Key,
    pub(crate) level: Level,
    pub(crate) units: Units,
}

/// A key and its level, which print as a line names them.
#[derive(Clone, Copy)]
pub(crate) struct Keyed {
    pub(crate) key: Key,
    pub(crate) level: Level,
}

pub(crate) fn read_terms(text: &[u8], granted: bool) -> Result<Terms, Expected>
    ensures { result ≡ terms_read granted text.now }
{
    let (word, rest) = first_word(text);
    let key = read_key(word)?;
    let (word, rest) = first_word(rest);
    let level = read_level(word)?;
    let units = read_units(rest, granted)?;
    Ok(Terms { key, level, units })
}

// A key that ends a line.
pub(crate) fn read_last_key(text: &[u8]) -> Result<Key, Expected>
    ensures { result ≡ last_key text.now }
{
    let (word, rest) = first_word(text);
    let key = read_key(word)?;
    end(rest)?;
    Ok(key)
}

impl fmt::Display for Keyed {
    ghost output = { λ keyed. Some (keyed_text keyed.key keyed.level) };

    fn fmt<W: fmt::Write>(&self, f: &mut fmt::Formatter<W>) -> fmt::Result {
        let key = KeyWord(&self.key);
        let level = level_word(self.level);
        write!(f, "{key} {level}")
    }
}

impl fmt::Display for Terms {
    ghost output = { λ terms. Some (terms_text terms.key terms.level terms.units) };

    fn fmt<W: fmt::Write>(&self, f: &mut fmt::Formatter<W>) -> fmt::Result {
        let keyed = Keyed {
            key: self.key,
            level: self.level,
        };
        let units = UnitWords(self.units);
        write!(f, "{keyed}{units}")
    }
}
