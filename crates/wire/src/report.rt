ghost use Rattle.std.specs.Prelude.{◌≡◌};
ghost use Rattle.wire.specs.Octets.{report_data};
ghost use Rattle.wire.specs.Lengths.{report_four};
ghost use Rattle.wire.specs.Sound.{sound_report};

use crate::data::Data;
use crate::parts::Counted;
use crate::sound::{are_sound_units, is_sound_key};
use crate::written::Written;
use avp::Name;
use draft::Draft;
use fault::Fault;
use information::ReportGroup;

impl From<&ReportGroup> for Counted {
    ghost from_gives = { λ group c. c ≡ record { key = group.now.key; units = group.now.used; level = group.now.level } };

    fn from(group: &ReportGroup) -> Counted {
        Counted {
            key: group.key,
            units: group.used,
            level: group.level,
        }
    }
}

impl Data for ReportGroup {
    ghost octets = { report_data };

    ghost four = { report_four };

    fn size(&self) -> u16 {
        Counted::from(self).size()
    }

    fn put_data(&self, draft: &mut Draft) -> Result<(), Fault> {
        Counted::from(self).put(draft, Name::UsedServiceUnit)
    }
}

impl Written for ReportGroup {
    ghost sound = { sound_report };

    fn is_sound(&self) -> bool {
        is_sound_key(&self.key) && are_sound_units(false, self.used)
    }
}
