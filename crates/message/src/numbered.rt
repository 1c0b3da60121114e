ghost use Rattle.std.specs.Prelude.{◌≡◌};
ghost use Rattle.group.specs.Members.{meaning};
ghost use Rattle.message.specs.Numbered.{Message, begun, message, Partial, partial, read_answer, read_report, rules as numberedRules};

use crate::entry::Entry;
use crate::groups::Groups;
use crate::values::{Answer, Numbered, NumberedSoFar, Report};
use avp::{Field, Limits, Name, Part};
use fault::Fault;
use group::{Group, read};
use information::{AnswerGroup, ReportGroup};
use units::{RequestType, limits};

impl<V: Entry> Group for NumberedSoFar<V> {
    type Whole = Numbered<V>;

    ghost Sofar = { Partial V };

    ghost sofar = { partial };

    ghost Meant = { Message V };

    ghost meant = { message };

    ghost rules = { numberedRules V.Entry.reads V.Entry.keyed };

    fn repeats(&self, name: Name) -> bool {
        match name {
            Name::CcRequestNumber => self.number.is_some(),
            Name::CcRequestType => self.request_type.is_some(),
            _ => false,
        }
    }

    fn admits(&self, name: Name) -> bool {
        match name {
            Name::CcRequestNumber => self.number.is_none(),
            Name::CcRequestType => self.request_type.is_none(),
            Name::UsageMonitoringInformation => true,
            _ => false,
        }
    }

    fn limits(&self, name: Name) -> Limits {
        limits(name, false)
    }

    fn put(&mut self, name: Name, field: Field, place: usize) -> Result<(), Fault> {
        match (name, field) {
            (Name::CcRequestNumber, Field::Number(n)) => self.number = Some(n),
            (Name::CcRequestType, Field::Number(n)) => self.request_type = Some(RequestType::of(n)),
            (Name::UsageMonitoringInformation, Field::Group(part)) => {
                self.groups.add(place, part)?;
            }
            // no other member is admitted
            _ => {}
        }
        Ok(())
    }

    fn whole(&self) -> Option<Numbered<V>> {
        Some(Numbered {
            number: self.number?,
            request_type: self.request_type?,
            groups: self.groups,
        })
    }
}

impl<V: Entry> NumberedSoFar<V> {
    /// No members so far.
    fn begin() -> NumberedSoFar<V>
        ensures { partial result ≡ begun }
    {
        NumberedSoFar {
            number: None,
            request_type: None,
            groups: Groups::new(V::blank()),
        }
    }
}

impl Numbered<ReportGroup> {
    /// The report of these octets.
    pub fn read(octets: &[u8]) -> Result<Report, Fault>
        ensures { meaning message result ≡ read_report octets.now }
    {
        read(&mut NumberedSoFar::begin(), Part::message(octets))
    }
}

impl Numbered<AnswerGroup> {
    /// The answer of these octets.
    pub fn read(octets: &[u8]) -> Result<Answer, Fault>
        ensures { meaning message result ≡ read_answer octets.now }
    {
        read(&mut NumberedSoFar::begin(), Part::message(octets))
    }
}
