//! Whether a sound message can hold a value.
ghost use Rattle.std.specs.Prelude.{◌≡◌};
ghost use Rattle.wire.specs.Sound.{sound_key, sound_units};

use avp::Name;
use key::Key;
use units::{Units, limits};

pub(crate) fn is_sound_key(key: &Key) -> bool
    ensures { result ≡ sound_key key.now }
{
    Key::new(key.octets()).is_some_and(|again| again.is(key))
}

pub(crate) fn are_sound_units(granted: bool, units: Units) -> bool
    ensures { result ≡ sound_units granted units }
{
    match units {
        Units::Total(n) => limits(Name::CcTotalOctets, granted).allow(n),
        Units::Uplink(n) => limits(Name::CcInputOctets, granted).allow(n),
        Units::Downlink(n) => limits(Name::CcOutputOctets, granted).allow(n),
        Units::Both { uplink, downlink } => {
            limits(Name::CcInputOctets, granted).allow(uplink)
                && limits(Name::CcOutputOctets, granted).allow(downlink)
        }
    }
}
