//! A refusal in words: what to mend, and the AVP at the fault's place by its name.
use crate::call::call_sentence;
use crate::subject::Subject;
use avp::Name;
use fault::{Code, Fault};
use message::Kind;
use std::fmt;

/// A message that was refused.
#[derive(Clone, Copy)]
pub struct Refusal<'a> {
    pub kind: Kind,
    pub octets: &'a [u8],
    pub fault: Fault,
}

impl fmt::Display for Refusal<'_> {
    fn fmt<W: fmt::Write>(&self, f: &mut fmt::Formatter<W>) -> fmt::Result {
        let code = self.fault.code.number();
        let layer = self.fault.layer;
        let place = self.fault.place;
        write!(f, "refused {code} {layer} {place}: ")?;
        self.sentence(f)
    }
}

impl Refusal<'_> {
    fn sentence<W: fmt::Write>(&self, f: &mut fmt::Formatter<W>) -> fmt::Result {
        match self.fault.code {
            Code::Absent => {
                let message = message_members(self.kind);
                let group = group_members(self.kind);
                write!(
                    f,
                    "a member is missing from the group or message that ends here: {message}; {group}; {UNIT_MEMBERS}"
                )
            }
            Code::RepeatedKey => {
                f.write_str("this Usage-Monitoring-Information has the key of an earlier one")
            }
            Code::TooMany => {
                f.write_str("a message holds at most 16 Usage-Monitoring-Information")
            }
            code => self.subject_sentence(code, f),
        }
    }

    // A sentence about the AVP at the fault's place.
    fn subject_sentence<W: fmt::Write>(
        &self,
        code: Code,
        f: &mut fmt::Formatter<W>,
    ) -> fmt::Result {
        let at = Subject::of(self.octets, self.fault.place);
        match code {
            Code::Overrun => write!(
                f,
                "the header, length or padding of {at} overruns what it stands in, or its length is below its header"
            ),
            Code::UnknownAvp => {
                write!(
                    f,
                    "{at} is not known here, and its flag 40 forbids skipping it"
                )
            }
            Code::Repeated => write!(f, "{at} stands here a second time"),
            Code::Foreign => {
                let members = members(self.kind, at.group());
                write!(f, "{at} does not belong here: {members}")
            }
            Code::Width => {
                let width = at.width();
                write!(f, "{at} must have {width}")
            }
            Code::Range => {
                let range = at.range();
                write!(f, "{at} must be {range}")
            }
            other => f.write_str(call_sentence(other)),
        }
    }
}

const UNIT_MEMBERS: &str =
    "a unit group holds CC-Total-Octets alone, CC-Input-Octets alone, CC-Output-Octets alone, or both directions";

// What a group holds, or the message itself.
fn members(kind: Kind, group: Option<Name>) -> &'static str {
    match group {
        None => message_members(kind),
        Some(Name::UsageMonitoringInformation) => group_members(kind),
        Some(_) => UNIT_MEMBERS,
    }
}

fn message_members(kind: Kind) -> &'static str {
    match kind {
        Kind::Report => {
            "a report holds CC-Request-Number and CC-Request-Type once, and Usage-Monitoring-Information"
        }
        Kind::Answer => {
            "an answer holds CC-Request-Number and CC-Request-Type once, and Usage-Monitoring-Information"
        }
        Kind::Command => "a command holds Usage-Monitoring-Information",
    }
}

fn group_members(kind: Kind) -> &'static str {
    match kind {
        Kind::Report => {
            "a group of a report holds Monitoring-Key, Used-Service-Unit and Usage-Monitoring-Level"
        }
        Kind::Answer => {
            "a group of an answer holds Monitoring-Key, Usage-Monitoring-Level and perhaps Granted-Service-Unit"
        }
        Kind::Command => {
            "a group of a command is \
             a grant (Monitoring-Key, Granted-Service-Unit, Usage-Monitoring-Level), \
             a disable (Monitoring-Key, Usage-Monitoring-Support) \
             or a request (Usage-Monitoring-Report and perhaps Monitoring-Key)"
        }
    }
}
