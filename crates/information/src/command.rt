ghost use Rattle.std.specs.Prelude.{◌≡◌};
ghost use Rattle.avp.specs.Header.{span};
ghost use Rattle.information.specs.declared.values.CommandGroup.{CommandGroup};
ghost use Rattle.information.specs.declared.values.CommandGroupSoFar.{CommandGroupSoFar};
ghost use Rattle.information.specs.Command.{read_command_group, rules as commandRules};

use crate::members::Members;
use crate::values::{CommandGroup, CommandGroupSoFar, Order};
use avp::{Field, Limits, Name, Part};
use fault::Fault;
use group::{Group, read};
use units::limits;

impl Group for CommandGroupSoFar {
    type Whole = CommandGroup;

    ghost Sofar = { CommandGroupSoFar };

    ghost sofar = { λ g. g };

    ghost Meant = { CommandGroup };

    ghost meant = { λ g. g };

    ghost rules = { commandRules };

    fn repeats(&self, name: Name) -> bool {
        match name {
            Name::UsageMonitoringReport => self.report,
            Name::UsageMonitoringSupport => self.support,
            _ => self.members.have(true, name),
        }
    }

    fn admits(&self, name: Name) -> bool {
        // the kinds that the members so far allow
        let bare = self.members.units.is_none() && self.members.level.is_none();
        let grant = !self.report && !self.support;
        let disable = bare && !self.report;
        let request = bare && !self.support;
        match name {
            Name::UsageMonitoringReport => !self.report && request,
            Name::UsageMonitoringSupport => !self.support && disable,
            Name::MonitoringKey => self.members.key.is_none() && (grant || disable || request),
            _ => self.members.lack(true, name) && grant,
        }
    }

    fn limits(&self, name: Name) -> Limits {
        limits(name, true)
    }

    fn put(&mut self, name: Name, field: Field, _place: usize) -> Result<(), Fault> {
        match (name, field) {
            (Name::UsageMonitoringReport, Field::Number(_)) => self.report = true,
            (Name::UsageMonitoringSupport, Field::Number(_)) => self.support = true,
            _ => self.members.put(true, name, field)?,
        }
        Ok(())
    }

    fn whole(&self) -> Option<CommandGroup> {
        let Members {
            place,
            key,
            level,
            units,
        } = self.members;
        let order = match (self.report, self.support, level, units) {
            (true, false, None, None) => Order::Request { key },
            (false, true, None, None) => Order::Disable { key: key? },
            (false, false, Some(level), Some(units)) => Order::Grant {
                key: key?,
                level,
                units,
            },
            _ => return None,
        };
        Some(CommandGroup { place, order })
    }
}

/// The group of a command that starts at `place`, and whose data are `part`.
pub fn read_command_group(place: usize, part: Part) -> Result<CommandGroup, Fault>
    ensures { result ≡ read_command_group place (span part.entry) }
{
    let mut group = CommandGroupSoFar {
        members: Members::begin(place),
        report: false,
        support: false,
    };
    read(&mut group, part)
}
