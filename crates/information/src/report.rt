ghost use Rattle.std.specs.Prelude.{◌≡◌};
ghost use Rattle.avp.specs.Header.{span};
ghost use Rattle.information.specs.declared.members.Members.{Members};
ghost use Rattle.information.specs.declared.values.ReportGroup.{ReportGroup};
ghost use Rattle.information.specs.Report.{read_report_group, rules as reportRules};

use crate::members::Members;
use crate::values::{ReportGroup, ReportGroupSoFar};
use avp::{Field, Limits, Name, Part};
use fault::Fault;
use group::{Group, read};
use units::limits;

impl Group for ReportGroupSoFar {
    type Whole = ReportGroup;

    ghost Sofar = { Members };

    ghost sofar = { λ g. g.0 };

    ghost Meant = { ReportGroup };

    ghost meant = { λ g. g };

    ghost rules = { reportRules };

    fn repeats(&self, name: Name) -> bool {
        self.0.have(false, name)
    }

    fn admits(&self, name: Name) -> bool {
        self.0.lack(false, name)
    }

    fn limits(&self, name: Name) -> Limits {
        limits(name, false)
    }

    fn put(&mut self, name: Name, field: Field, _place: usize) -> Result<(), Fault> {
        self.0.put(false, name, field)
    }

    fn whole(&self) -> Option<ReportGroup> {
        Some(ReportGroup {
            place: self.0.place,
            key: self.0.key?,
            level: self.0.level?,
            used: self.0.units?,
        })
    }
}

/// The group of a report that starts at `place`, and whose data are `part`.
pub fn read_report_group(place: usize, part: Part) -> Result<ReportGroup, Fault>
    ensures { result ≡ read_report_group place (span part.entry) }
{
    read(&mut ReportGroupSoFar(Members::begin(place)), part)
}
