ghost use Rattle.std.specs.Prelude.{◌≡◌};
ghost use Rattle.avp.specs.Header.{span};
ghost use Rattle.units.specs.declared.values.Units.{Units};
ghost use Rattle.units.specs.declared.values.UnitsSoFar.{UnitsSoFar};
ghost use Rattle.units.specs.Units.{read_units, unit_rules};

use crate::numbers::limits;
use crate::values::{Units, UnitsSoFar};
use avp::{Field, Limits, Name, Part};
use fault::Fault;
use group::{Group, read};

impl Group for UnitsSoFar {
    type Whole = Units;

    ghost Sofar = { UnitsSoFar };

    ghost sofar = { λ u. u };

    ghost Meant = { Units };

    ghost meant = { λ u. u };

    ghost rules = { unit_rules };

    fn repeats(&self, name: Name) -> bool {
        match name {
            Name::CcTotalOctets => self.total.is_some(),
            Name::CcInputOctets => self.uplink.is_some(),
            Name::CcOutputOctets => self.downlink.is_some(),
            _ => false,
        }
    }

    fn admits(&self, name: Name) -> bool {
        match name {
            Name::CcTotalOctets => {
                self.total.is_none() && self.uplink.is_none() && self.downlink.is_none()
            }
            Name::CcInputOctets => self.uplink.is_none() && self.total.is_none(),
            Name::CcOutputOctets => self.downlink.is_none() && self.total.is_none(),
            _ => false,
        }
    }

    fn limits(&self, name: Name) -> Limits {
        limits(name, self.granted)
    }

    fn put(&mut self, name: Name, field: Field, _place: usize) -> Result<(), Fault> {
        match (name, field) {
            (Name::CcTotalOctets, Field::Number(n)) => self.total = Some(n),
            (Name::CcInputOctets, Field::Number(n)) => self.uplink = Some(n),
            (Name::CcOutputOctets, Field::Number(n)) => self.downlink = Some(n),
            // no other member is admitted
            _ => {}
        }
        Ok(())
    }

    fn whole(&self) -> Option<Units> {
        match (self.total, self.uplink, self.downlink) {
            (Some(total), None, None) => Some(Units::Total(total)),
            (None, Some(uplink), Some(downlink)) => Some(Units::Both { uplink, downlink }),
            (None, Some(uplink), None) => Some(Units::Uplink(uplink)),
            (None, None, Some(downlink)) => Some(Units::Downlink(downlink)),
            _ => None,
        }
    }
}

/// The octets that a Granted-Service-Unit or a Used-Service-Unit holds.
pub fn read_units(part: Part, granted: bool) -> Result<Units, Fault>
    ensures { result ≡ read_units granted (span part.entry) }
{
    let mut units = UnitsSoFar {
        granted,
        total: None,
        uplink: None,
        downlink: None,
    };
    read(&mut units, part)
}
