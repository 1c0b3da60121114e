ghost use Rattle.std.specs.Prelude.{◌≡◌, ◌+◌, ◌-◌, ◌^◌, ◌<◌, ◌≤◌, min, length, take, drop, if◌then◌else◌, Some, None, ◌==◌};
ghost use Rattle.avp.specs.Header.{first_avp, fits_in, flags_of, header_length, seen_of, span, stated, vendored};
ghost use Rattle.avp.specs.Octets.{padded as roundedUp, u32_at};

use crate::header::Avp;
use crate::octets::{u24_at, u32_at};
use crate::part::Part;
use fault::{Code, Fault};

fn header_length(flags: u8) -> usize
    ensures { result ≡ header_length flags }
{
    if flags & 0x80 != 0 { 12 } else { 8 }
}

fn vendor_of(octets: &[u8], flags: u8) -> Option<u32>
    requires { header_length flags ≤ length octets.now }
    ensures { result ≡ (if vendored flags then Some (u32_at octets.now 8) else None) }
{
    (flags & 0x80 != 0).then(|| u32_at(octets, 8))
}

fn padded(stated: usize) -> usize
    requires { stated < 2 ^ 24 }
    ensures { result ≡ roundedUp stated }
{
    (stated + 3) / 4 * 4
}

// How far the AVP at the head goes: its header, its data behind that, and its padding.
#[derive(Clone, Copy)]
struct Extent {
    header: usize,
    stated: usize,
    used: usize,
}

// The extent of the AVP at the head, if it lies within the octets.
fn measured(octets: &[u8]) -> Option<Extent>
    ensures { result ≡ (if fits_in octets.now then Some (record { header = header_length (flags_of octets.now); stated = stated octets.now; used = roundedUp (stated octets.now) }) else None) }
{
    if octets.len() < 8 {
        return None;
    }
    let header = header_length(octets[4]);
    let stated = u24_at(octets, 5) as usize;
    let used = padded(stated);
    (header <= stated && used <= octets.len()).then_some(Extent {
        header,
        stated,
        used,
    })
}

impl<'a> Part<'a> {
    /// A whole message.
    pub fn message(octets: &'a [u8]) -> Part<'a>
        ensures { span result ≡ record { place = 0; octets = octets.now } }
    {
        Part { octets, place: 0 }
    }

    /// The octets, as a part of the caller's.
    pub fn octets(&self) -> &'a [u8]
        ensures value { result.now ≡ (span self.now).octets }
        ensures bound { self.now.place + length result.now < 2 ^ 64 }
    {
        self.octets
    }

    // Some octets of the part, a part again.
    fn within(&self, from: usize, to: usize) -> Part<'a>
        requires start { from ≤ to }
        requires end { to ≤ length (span self.now).octets }
        ensures { span result ≡ record { place = (span self.now).place + from; octets = take (to - from) (drop from (span self.now).octets) } }
    {
        Part {
            octets: &self.octets[from..to],
            place: self.place + from,
        }
    }

    /// The place after the last octet.
    pub fn end(&self) -> usize
        ensures { result ≡ (span self.now).place + length (span self.now).octets }
    {
        self.place + self.octets.len()
    }

    pub fn is_empty(&self) -> bool
        ensures { result ≡ (length (span self.now).octets == 0) }
    {
        self.octets.is_empty()
    }

    /// The AVP at the head.
    pub fn first(&self) -> Result<Avp<'a>, Fault>
        ensures { seen_of result ≡ first_avp (span self.now).place (span self.now).octets }
    {
        let octets = self.octets;
        let Some(extent) = measured(octets) else {
            return Err(Fault::message(Code::Overrun, self.place));
        };
        let flags = octets[4];
        Ok(Avp {
            code: u32_at(octets, 0),
            flags,
            vendor: vendor_of(octets, flags),
            place: self.place,
            body: self.within(extent.header, extent.stated),
            rest: self.within(extent.used, octets.len()),
        })
    }
}
