ghost use Rattle.std.specs.Prelude.{◌≡◌};
ghost use Rattle.units.specs.Limits.{level_of, limits_of, type_of};

use crate::values::{Level, RequestType};
use avp::{Limits, Name};

/// The numbers that an AVP may hold; octets have others where they are granted than where they are used.
pub fn limits(name: Name, granted: bool) -> Limits
    ensures { result ≡ limits_of granted name }
{
    let least = u64::from(granted);
    match name {
        Name::CcInputOctets | Name::CcOutputOctets => Limits {
            least,
            most: 1_099_511_627_775,
        },
        Name::CcTotalOctets if !granted => Limits {
            least,
            most: 2_199_023_255_550,
        },
        Name::CcTotalOctets => Limits {
            least,
            most: 1_099_511_627_775,
        },
        Name::CcRequestNumber => Limits {
            least: 1,
            most: 1_048_575,
        },
        Name::CcRequestType => Limits { least: 2, most: 3 },
        Name::UsageMonitoringLevel => Limits { least: 0, most: 1 },
        _ => Limits { least: 0, most: 0 },
    }
}

impl Level {
    /// The level of a Usage-Monitoring-Level.
    pub fn of(n: u64) -> Level
        ensures { result ≡ level_of n }
    {
        if n == 0 { Level::Session } else { Level::Rule }
    }
}

impl RequestType {
    /// The type of a CC-Request-Type.
    pub fn of(n: u64) -> RequestType
        ensures { result ≡ type_of n }
    {
        if n == 2 {
            RequestType::Update
        } else {
            RequestType::Termination
        }
    }
}
