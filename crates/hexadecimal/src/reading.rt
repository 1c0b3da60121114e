ghost use Rattle.std.specs.Prelude.{length, IfErr};
ghost use Rattle.hexadecimal.specs.declared.error.HexError.TheVariants.{NoMemory};
ghost use Rattle.hexadecimal.specs.Text.{Answers, Inside, octets_of};

use crate::digit::digit_value;
use crate::error::HexError;
use std::alloc::Global;

/// The octets of a text: digits in either case, two to an octet, with spaces anywhere.
pub fn decode(heap: Global, text: &[u8]) -> Result<Vec<u8>, HexError>
    ensures octets { Answers NoMemory (λ v. v.items) result (octets_of text.now) }
    ensures within { IfErr result (λ e. Inside e (length text.now)) }
{
    let mut octets = Vec::new(heap);
    let mut high = None;
    for (place, character) in text.iter().enumerate() {
        if *character == b' ' {
            continue;
        }
        let Some(digit) = digit_value(*character) else {
            return Err(HexError::NotADigit(place));
        };
        match high {
            None => high = Some(digit),
            Some(first) => {
                octets.push(16 * first + digit)?;
                high = None;
            }
        }
    }
    match high {
        None => Ok(octets),
        Some(_) => Err(HexError::Odd),
    }
}
