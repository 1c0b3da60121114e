//! The AVP that stands at a place of a message, for sentences about it.
use avp::{Avp, Name, Part};

/// What the header of an AVP says, and the group that it stands in.
#[derive(Clone, Copy)]
pub(crate) struct Found {
    pub(crate) code: u32,
    pub(crate) vendor: Option<u32>,
    pub(crate) group: Option<Name>,
}

/// The AVP at a place, if the octets before it can be read.
pub(crate) fn find(octets: &[u8], place: usize) -> Option<Found> {
    let mut part = Part::message(octets);
    let mut group = None;
    while let Ok(avp) = part.first() {
        if avp.place == place {
            return Some(Found {
                code: avp.code,
                vendor: avp.vendor,
                group,
            });
        }
        match group_of(avp) {
            Some(name) if place < avp.body.end() => {
                part = avp.body;
                group = Some(name);
            }
            _ => part = avp.rest,
        }
    }
    None
}

// The name of an AVP that holds others.
fn group_of(avp: Avp<'_>) -> Option<Name> {
    Name::of(avp.code, avp.vendor).filter(|name| {
        matches!(
            name,
            Name::UsageMonitoringInformation | Name::GrantedServiceUnit | Name::UsedServiceUnit
        )
    })
}

/// The code at a place, where an AVP's header may be cut short.
pub(crate) fn code_at(octets: &[u8], place: usize) -> Option<u32> {
    let code = octets.get(place..)?.first_chunk()?;
    Some(u32::from_be_bytes(*code))
}
