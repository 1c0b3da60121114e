ghost use Rattle.std.specs.Prelude.{◌≡◌, true, false, Some, MatchOption};
ghost use Rattle.hexadecimal.specs.Text.{digit_of};
ghost use Rattle.key.specs.Keys.{octets_of};
ghost use Rattle.words.specs.Keys.{hex_key, key_read, key_text, octet_of, plain, plain_one};

use crate::expected::Expected;
use hexadecimal::digit_value;
use key::Key;
use std::fmt;
use std::str::from_utf8;

fn is_plain_one(character: u8) -> bool
    ensures { result ≡ plain_one character }
{
    character.is_ascii_graphic() && character != b':' && character != b'#' && character != b'@'
}

fn is_plain(characters: &[u8]) -> bool
    ensures { result ≡ plain characters.now }
{
    characters.iter().all(|character| is_plain_one(*character))
}

fn octet(high: u8, low: u8) -> Option<u8>
    ensures { result ≡ octet_of (digit_of high) (digit_of low) }
{
    Some(16 * digit_value(high)? + digit_value(low)?)
}

fn read_hex(digits: &[u8]) -> Option<Key>
    ensures { result ≡ hex_key digits.now }
{
    let mut octets = [0; 16];
    let (pairs, []) = digits.as_chunks::<2>() else {
        return None;
    };
    if pairs.len() > octets.len() {
        return None;
    }
    for (place, [high, low]) in pairs.iter().enumerate() {
        octets[place] = octet(*high, *low)?;
    }
    Key::new(&octets[..pairs.len()])
}

/// The key that a word writes.
pub fn read_key(word: &[u8]) -> Result<Key, Expected>
    ensures { result ≡ key_read word.now }
{
    if let Some(digits) = word.strip_prefix(b"x:") {
        return read_hex(digits).ok_or(Expected::HexKey);
    }
    if !is_plain(word) {
        return Err(Expected::Key);
    }
    Key::new(word).ok_or(Expected::Key)
}

/// A key that prints as the word that `read_key` reads.
#[derive(Clone, Copy)]
pub struct KeyWord<'a>(pub &'a Key);

// The octets as they are, if all of them are plain.
fn as_plain(octets: &[u8]) -> Option<&str>
    ensures { MatchOption result (plain octets.now ≡ false) (λ s. (s.now ≡ octets.now) × (plain octets.now ≡ true)) }
{
    if !is_plain(octets) {
        return None;
    }
    from_utf8(octets).ok()
}

impl fmt::Display for KeyWord<'_> {
    ghost output = { λ word. Some (key_text (octets_of word.0.now)) };

    fn fmt<W: fmt::Write>(&self, f: &mut fmt::Formatter<W>) -> fmt::Result {
        let octets = self.0.octets();
        match as_plain(octets) {
            Some(characters) => f.write_str(characters),
            None => {
                let digits = hexadecimal::encode(octets);
                write!(f, "x:{digits}")
            }
        }
    }
}
