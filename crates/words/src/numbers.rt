ghost use Rattle.std.specs.Prelude.{◌≡◌};
ghost use Rattle.words.specs.Numbers.{last_number, longer, number_of, value_of};

use crate::expected::Expected;
use crate::words::{end, first_word};
use avp::Limits;

// A number with one digit more.
fn lengthen(number: u64, character: u8) -> Option<u64>
    ensures { result ≡ longer number character }
{
    if !character.is_ascii_digit() {
        return None;
    }
    number
        .checked_mul(10)?
        .checked_add(u64::from(character - b'0'))
}

fn value(digits: &[u8]) -> Option<u64>
    ensures { result ≡ value_of 0 digits.now }
{
    let mut number = 0;
    for character in digits {
        number = lengthen(number, *character)?;
    }
    Some(number)
}

/// The number that a word writes.
pub fn read_number(word: &[u8], limits: Limits) -> Result<u64, Expected>
    ensures { result ≡ number_of limits word.now }
{
    if word.is_empty() {
        return Err(Expected::Number(limits));
    }
    value(word)
        .filter(|number| limits.allow(*number))
        .ok_or(Expected::Number(limits))
}

/// The number that ends a line.
pub fn read_last_number(text: &[u8], limits: Limits) -> Result<u64, Expected>
    ensures { result ≡ last_number limits text.now }
{
    let (word, rest) = first_word(text);
    let number = read_number(word, limits)?;
    end(rest)?;
    Ok(number)
}
