ghost use Rattle.std.specs.Prelude.{◌≡◌, ◌<◌, length};
ghost use Rattle.draft.specs.Drafts.{Put};
ghost use Rattle.draft.specs.Octets.{be64, head, header_of, key_avp, number_avp, vendor_header, written};

use crate::draft::Draft;
use avp::Name;
use fault::Fault;
use key::Key;

// The code, the flags, and how many octets the AVP has without its padding.
fn head(code: u32, flags: u8, size: u32) -> [u8; 8]
    ensures { result ≡ head code flags size }
{
    let code = code.to_be_bytes();
    let size = size.to_be_bytes();
    [
        code[0], code[1], code[2], code[3], flags, size[1], size[2], size[3],
    ]
}

// The header of an AVP with a vendor, in one piece: it is written whole or not at all.
fn vendor_header(code: u32, vendor: u32, size: u16) -> [u8; 12]
    ensures { result ≡ vendor_header code vendor size }
{
    let head = head(code, 0x80, 12 + u32::from(size));
    let vendor = vendor.to_be_bytes();
    [
        head[0], head[1], head[2], head[3], head[4], head[5], head[6], head[7], vendor[0],
        vendor[1], vendor[2], vendor[3],
    ]
}

impl Draft<'_> {
    /// The header of an AVP with so many octets of data.
    pub fn put_header(&mut self, avp: Name, size: u16) -> Result<(), Fault>
        ensures { Put self.old (header_of avp size) result self.new }
    {
        match avp.vendor() {
            None => self.put(&head(avp.code(), 0x40, 8 + u32::from(size))),
            Some(vendor) => self.put(&vendor_header(avp.code(), vendor, size)),
        }
    }

    // An AVP that holds these octets, and zeros up to a multiple of 4.
    fn put_avp(&mut self, avp: Name, octets: &[u8]) -> Result<(), Fault>
        requires { length octets.now < 65536 }
        ensures { Put self.old (written avp octets.now) result self.new }
    {
        self.put_header(avp, octets.len() as u16)?;
        self.put(octets)?;
        let padding = octets.len().next_multiple_of(4) - octets.len();
        self.put(&[0; 4][0..padding])
    }

    /// An AVP that holds a number of 32 bits.
    pub fn put_number(&mut self, avp: Name, n: u32) -> Result<(), Fault>
        ensures { Put self.old (number_avp avp n) result self.new }
    {
        self.put_avp(avp, &n.to_be_bytes())
    }

    /// An AVP that holds a number of 64 bits.
    pub fn put_octets(&mut self, avp: Name, n: u64) -> Result<(), Fault>
        ensures { Put self.old (written avp (be64 n)) result self.new }
    {
        self.put_avp(avp, &n.to_be_bytes())
    }

    /// A Monitoring-Key.
    pub fn put_key(&mut self, key: &Key) -> Result<(), Fault>
        ensures { Put self.old (key_avp key.now) result self.new }
    {
        self.put_avp(Name::MonitoringKey, key.octets())
    }
}
