//! The parts of a Usage-Monitoring-Information.
ghost use Rattle.std.specs.Prelude.{◌≡◌, ◌+◌, ◌≤◌, length};
ghost use Rattle.draft.specs.Drafts.{Put};
ghost use Rattle.draft.specs.Octets.{key_avp};
ghost use Rattle.wire.specs.Octets.{counted_data, units_data};

use crate::data::{Data, put_avp};
use avp::Name;
use draft::Draft;
use fault::Fault;
use key::Key;
use units::{Level, Units};

// How many octets a Monitoring-Key takes up, with its padding.
pub(crate) fn key_size(key: &Key) -> u16
    ensures value { result ≡ length (key_avp key.now) }
    ensures bound { result ≤ 28 }
{
    let size = key.octets().len() as u16;
    12 + size.next_multiple_of(4)
}

/// A key with its units and its level, as reports and grants have them.
#[derive(Clone, Copy)]
pub(crate) struct Counted {
    pub(crate) key: Key,
    pub(crate) units: Units,
    pub(crate) level: Level,
}

impl Counted {
    // How many octets these have; a unit group has no vendor.
    pub(crate) fn size(&self) -> u16
        ensures { result ≡ length (key_avp self.now.key) + (8 + length (units_data self.now.units) + 16) }
    {
        key_size(&self.key) + 8 + self.units.size() + 16
    }

    // The key, the units in an AVP of this name, and the level.
    pub(crate) fn put(&self, draft: &mut Draft, avp: Name) -> Result<(), Fault>
        ensures { Put draft.old (counted_data avp self.now.key self.now.units self.now.level) result draft.new }
    {
        draft.put_key(&self.key)?;
        put_avp(draft, avp, &self.units)?;
        draft.put_number(Name::UsageMonitoringLevel, self.level.into())
    }
}
