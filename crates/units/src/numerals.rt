//! The numbers that stand for a level and for a type.
ghost use Rattle.std.specs.Prelude.{◌≡◌};
ghost use Rattle.units.specs.Limits.{level_number, type_number};

use crate::values::{Level, RequestType};

impl From<Level> for u32 {
    ghost from_gives = { λ level n. n ≡ level_number level };

    fn from(level: Level) -> u32 {
        match level {
            Level::Session => 0,
            Level::Rule => 1,
        }
    }
}

impl From<RequestType> for u32 {
    ghost from_gives = { λ request_type n. n ≡ type_number request_type };

    fn from(request_type: RequestType) -> u32 {
        match request_type {
            RequestType::Update => 2,
            RequestType::Termination => 3,
        }
    }
}
