//! The AVP that a refusal is about, as far as its octets tell.
use crate::walk::{code_at, find};
use avp::Name;
use std::fmt;

#[derive(Clone, Copy)]
pub(crate) enum Subject {
    /// A known AVP, and the group that it stands in.
    Known(Name, Option<Name>),
    /// Any other, by its code and vendor.
    Unknown(u32, Option<u32>),
    /// Too few octets for a code.
    Cut,
}

impl fmt::Display for Subject {
    fn fmt<W: fmt::Write>(&self, f: &mut fmt::Formatter<W>) -> fmt::Result {
        match self {
            Subject::Known(name, _) => write!(f, "{name}"),
            Subject::Unknown(code, Some(vendor)) => {
                write!(f, "the AVP with code {code} and vendor {vendor}")
            }
            Subject::Unknown(code, None) => write!(f, "the AVP with code {code}"),
            Subject::Cut => f.write_str("the AVP here"),
        }
    }
}

impl Subject {
    pub(crate) fn of(octets: &[u8], place: usize) -> Subject {
        let Some(found) = find(octets, place) else {
            return Subject::unread(octets, place);
        };
        match Name::of(found.code, found.vendor) {
            Some(name) => Subject::Known(name, found.group),
            None => Subject::Unknown(found.code, found.vendor),
        }
    }

    // An AVP whose header or length overruns still shows its code, if that is there.
    fn unread(octets: &[u8], place: usize) -> Subject {
        match code_at(octets, place) {
            Some(code) => Subject::Unknown(code, None),
            None => Subject::Cut,
        }
    }

    /// The group that it stands in, if it is known and stands in one.
    pub(crate) fn group(self) -> Option<Name> {
        match self {
            Subject::Known(_, group) => group,
            Subject::Unknown(_, _) | Subject::Cut => None,
        }
    }

    /// How many octets its data must have.
    pub(crate) fn width(self) -> &'static str {
        match self {
            Subject::Known(Name::MonitoringKey, _) => "1 to 16 octets",
            Subject::Known(Name::CcInputOctets | Name::CcOutputOctets | Name::CcTotalOctets, _) =>
                "8 octets",
            Subject::Known(_, _) => "4 octets",
            Subject::Unknown(_, _) | Subject::Cut => "another length",
        }
    }

    /// The numbers that it may hold.
    pub(crate) fn range(self) -> &'static str {
        match self {
            Subject::Known(name, Some(Name::GrantedServiceUnit)) => granted(name),
            Subject::Known(name, Some(Name::UsedServiceUnit)) => used(name),
            Subject::Known(name, _) => alone(name),
            Subject::Unknown(_, _) | Subject::Cut => "another value",
        }
    }
}

fn granted(name: Name) -> &'static str {
    match name {
        Name::CcInputOctets | Name::CcOutputOctets | Name::CcTotalOctets => "1 to 1099511627775",
        _ => alone(name),
    }
}

fn used(name: Name) -> &'static str {
    match name {
        Name::CcInputOctets | Name::CcOutputOctets => "0 to 1099511627775",
        Name::CcTotalOctets => "0 to 2199023255550",
        _ => alone(name),
    }
}

// The numbers of an AVP that stands in no unit group.
fn alone(name: Name) -> &'static str {
    match name {
        Name::CcRequestNumber => "1 to 1048575",
        Name::CcRequestType => "2 or 3",
        Name::UsageMonitoringLevel => "0 or 1",
        Name::UsageMonitoringReport | Name::UsageMonitoringSupport => "0",
        _ => "another value",
    }
}
