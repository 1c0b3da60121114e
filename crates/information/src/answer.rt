ghost use Rattle.std.specs.Prelude.{◌≡◌};
ghost use Rattle.avp.specs.Header.{span};
ghost use Rattle.information.specs.declared.members.Members.{Members};
ghost use Rattle.information.specs.declared.values.AnswerGroup.{AnswerGroup};
ghost use Rattle.information.specs.Answer.{read_answer_group, rules as answerRules};

use crate::members::Members;
use crate::values::{AnswerGroup, AnswerGroupSoFar};
use avp::{Field, Limits, Name, Part};
use fault::Fault;
use group::{Group, read};
use units::limits;

impl Group for AnswerGroupSoFar {
    type Whole = AnswerGroup;

    ghost Sofar = { Members };

    ghost sofar = { λ g. g.0 };

    ghost Meant = { AnswerGroup };

    ghost meant = { λ g. g };

    ghost rules = { answerRules };

    fn repeats(&self, name: Name) -> bool {
        self.0.have(true, name)
    }

    fn admits(&self, name: Name) -> bool {
        self.0.lack(true, name)
    }

    fn limits(&self, name: Name) -> Limits {
        limits(name, false)
    }

    fn put(&mut self, name: Name, field: Field, _place: usize) -> Result<(), Fault> {
        self.0.put(true, name, field)
    }

    fn whole(&self) -> Option<AnswerGroup> {
        Some(AnswerGroup {
            place: self.0.place,
            key: self.0.key?,
            level: self.0.level?,
            granted: self.0.units,
        })
    }
}

/// The group of an answer that starts at `place`, and whose data are `part`.
pub fn read_answer_group(place: usize, part: Part) -> Result<AnswerGroup, Fault>
    ensures { result ≡ read_answer_group place (span part.entry) }
{
    read(&mut AnswerGroupSoFar(Members::begin(place)), part)
}
