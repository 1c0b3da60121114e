ghost use Rattle.std.specs.Prelude.{◌≡◌};
ghost use Rattle.hexadecimal.specs.declared.error.HexError.TheVariants.{NoMemory};

use std::alloc::AllocFailed;

/// Why a text gives no octets.
#[derive(Clone, Copy, Debug, PartialEq, Eq)]
pub enum HexError {
    /// The character at this place, counted from 0, is neither a digit nor a space.
    NotADigit(usize),
    /// The last octet has one digit only.
    Odd,
    NoMemory,
}

impl<T: Drop> From<AllocFailed<T>> for HexError {
    ghost from_gives = { λ _ r. r ≡ NoMemory };

    fn from(_refused: AllocFailed<T>) -> HexError {
        HexError::NoMemory
    }
}
