ghost use Rattle.std.specs.Prelude.{◌≡◌, ℕ, Option, Result};
ghost use Rattle.fault.specs.declared.Fault.{Fault};
ghost use Rattle.avp.specs.Header.{Span, span};
ghost use Rattle.key.specs.declared.key.Key.{Key};
ghost use Rattle.information.specs.Answer.{read_answer_group};
ghost use Rattle.information.specs.Command.{read_command_group};
ghost use Rattle.information.specs.Report.{read_report_group};
ghost use Rattle.message.specs.Keyed.{answer_key, command_key, report_key};

use avp::Part;
use fault::Fault;
use information::{
    AnswerGroup, CommandGroup, Order, ReportGroup, read_answer_group, read_command_group,
    read_report_group,
};
use key::Key;
use units::{Level, Units};

/// A Usage-Monitoring-Information of one kind of message.
pub trait Entry: Copy {
    ghost reads: { ℕ → Span → Result Self Fault };

    ghost keyed: { Self → Option Key };

    /// The group that starts at `place`, and whose data are `part`.
    fn read(place: usize, part: Part) -> Result<Self, Fault>
        ensures { result ≡ reads place (span part.entry) };

    /// The key that the group is about.
    fn key(&self) -> Option<Key>
        ensures { result ≡ keyed self.now };

    /// What stands in a table where there is no group yet.
    fn blank() -> Self;
}

impl Entry for ReportGroup {
    ghost reads = { read_report_group };

    ghost keyed = { report_key };

    fn read(place: usize, part: Part) -> Result<ReportGroup, Fault> {
        read_report_group(place, part)
    }

    fn key(&self) -> Option<Key> {
        Some(self.key)
    }

    fn blank() -> ReportGroup {
        ReportGroup {
            place: 0,
            key: Key::blank(),
            level: Level::Session,
            used: Units::Total(0),
        }
    }
}

impl Entry for AnswerGroup {
    ghost reads = { read_answer_group };

    ghost keyed = { answer_key };

    fn read(place: usize, part: Part) -> Result<AnswerGroup, Fault> {
        read_answer_group(place, part)
    }

    fn key(&self) -> Option<Key> {
        Some(self.key)
    }

    fn blank() -> AnswerGroup {
        AnswerGroup {
            place: 0,
            key: Key::blank(),
            level: Level::Session,
            granted: None,
        }
    }
}

impl Entry for CommandGroup {
    ghost reads = { read_command_group };

    ghost keyed = { command_key };

    fn read(place: usize, part: Part) -> Result<CommandGroup, Fault> {
        read_command_group(place, part)
    }

    fn key(&self) -> Option<Key> {
        match self.order {
            Order::Grant { key, .. } | Order::Disable { key } => Some(key),
            Order::Request { key } => key,
        }
    }

    fn blank() -> CommandGroup {
        CommandGroup {
            place: 0,
            order: Order::Request { key: None },
        }
    }
}
