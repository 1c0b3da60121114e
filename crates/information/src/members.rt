//! The members that a group of any message may have: a key, a level and a unit group.
ghost use Rattle.std.specs.Prelude.{◌≡◌};
ghost use Rattle.avp.specs.Fields.{value};
ghost use Rattle.avp.specs.Names.{is};
ghost use Rattle.group.specs.Members.{left};
ghost use Rattle.information.specs.Members.{begun, belongs, lacks, puts, stands, unit_group};

use avp::{Field, Name};
use fault::Fault;
use key::Key;
use units::{Level, Units, read_units};

/// What is known of these members so far, in the group that starts at `place`.
#[derive(Clone, Copy)]
pub struct Members {
    pub(crate) place: usize,
    pub(crate) key: Option<Key>,
    pub(crate) level: Option<Level>,
    pub(crate) units: Option<Units>,
}

// Whether this AVP is the unit group that is meant: of octets granted, or of octets used.
fn is_unit_group(granted: bool, name: Name) -> bool
    ensures { result ≡ is name (unit_group granted) }
{
    match name {
        Name::GrantedServiceUnit => granted,
        Name::UsedServiceUnit => !granted,
        _ => false,
    }
}

// Whether this AVP is one of these members.
fn is_member(granted: bool, name: Name) -> bool
    ensures { result ≡ belongs granted name }
{
    matches!(name, Name::MonitoringKey | Name::UsageMonitoringLevel) || is_unit_group(granted, name)
}

impl Members {
    /// No members so far.
    pub(crate) fn begin(place: usize) -> Members
        ensures { result ≡ begun place }
    {
        Members {
            place,
            key: None,
            level: None,
            units: None,
        }
    }

    /// Whether the member stands there already.
    pub(crate) fn have(&self, granted: bool, name: Name) -> bool
        ensures { result ≡ stands granted self.now name }
    {
        match name {
            Name::MonitoringKey => self.key.is_some(),
            Name::UsageMonitoringLevel => self.level.is_some(),
            _ => is_unit_group(granted, name) && self.units.is_some(),
        }
    }

    /// Whether it is one of these members, and stands there not yet.
    pub(crate) fn lack(&self, granted: bool, name: Name) -> bool
        ensures { result ≡ lacks granted self.now name }
    {
        is_member(granted, name) && !self.have(granted, name)
    }

    /// Takes one member more.
    pub(crate) fn put(&mut self, granted: bool, name: Name, field: Field) -> Result<(), Fault>
        ensures { left result self.new ≡ puts granted self.old name (value field.entry) }
    {
        match (name, field) {
            (Name::MonitoringKey, Field::Key(octets)) => self.key = Key::new(octets),
            (Name::UsageMonitoringLevel, Field::Number(n)) => self.level = Some(Level::of(n)),
            (_, Field::Group(part)) if is_unit_group(granted, name) => {
                self.units = Some(read_units(part, granted)?);
            }
            // no other member is admitted
            _ => {}
        }
        Ok(())
    }
}
