ghost use Rattle.std.specs.Prelude.{◌≡◌};
ghost use Rattle.words.specs.Names.{level_read, level_word, type_read, type_word};

use crate::expected::Expected;
use units::{Level, RequestType};

/// The word for a level.
pub fn level_word(level: Level) -> &'static str
    ensures { result.now ≡ level_word level }
{
    match level {
        Level::Session => "session",
        Level::Rule => "rule",
    }
}

/// The level that a word names.
#[tactic(auto, using(crate::proofs::Same::spelled))]
pub fn read_level(word: &[u8]) -> Result<Level, Expected>
    ensures { result ≡ level_read word.now }
{
    match word {
        b"session" => Ok(Level::Session),
        b"rule" => Ok(Level::Rule),
        _ => Err(Expected::Level),
    }
}

/// The word for a type.
pub fn type_word(request_type: RequestType) -> &'static str
    ensures { result.now ≡ type_word request_type }
{
    match request_type {
        RequestType::Update => "update",
        RequestType::Termination => "termination",
    }
}

/// The type that a word names.
#[tactic(auto, using(crate::proofs::Same::spelled))]
pub fn read_type(word: &[u8]) -> Result<RequestType, Expected>
    ensures { result ≡ type_read word.now }
{
    match word {
        b"update" => Ok(RequestType::Update),
        b"termination" => Ok(RequestType::Termination),
        _ => Err(Expected::RequestType),
    }
}
