ghost use Rattle.std.specs.Prelude.{◌≡◌, List};
ghost use Rattle.group.specs.Members.{meaning};
ghost use Rattle.information.specs.declared.values.CommandGroup.{CommandGroup};
ghost use Rattle.message.specs.Commands.{orders, read_command, rules as commandRules};

use crate::entry::Entry;
use crate::groups::Groups;
use crate::values::Command;
use avp::{Field, Limits, Name, Part};
use fault::Fault;
use group::{Group, read};
use information::CommandGroup;
use units::limits;

impl Group for Command {
    type Whole = Command;

    ghost Sofar = { List CommandGroup };

    ghost sofar = { orders };

    ghost Meant = { List CommandGroup };

    ghost meant = { orders };

    ghost rules = { commandRules };

    fn repeats(&self, _name: Name) -> bool {
        false
    }

    fn admits(&self, name: Name) -> bool {
        matches!(name, Name::UsageMonitoringInformation)
    }

    fn limits(&self, name: Name) -> Limits {
        limits(name, false)
    }

    fn put(&mut self, name: Name, field: Field, place: usize) -> Result<(), Fault> {
        match (name, field) {
            (Name::UsageMonitoringInformation, Field::Group(part)) => self.groups.add(place, part),
            // no other member is admitted
            _ => Ok(()),
        }
    }

    fn whole(&self) -> Option<Command> {
        Some(*self)
    }
}

impl Command {
    /// The command of these octets.
    pub fn read(octets: &[u8]) -> Result<Command, Fault>
        ensures { meaning orders result ≡ read_command octets.now }
    {
        let mut command = Command {
            groups: Groups::new(CommandGroup::blank()),
        };
        read(&mut command, Part::message(octets))
    }
}
