//! AVPs that hold other AVPs.
ghost use Rattle.std.specs.Prelude.{◌≡◌, ℕ, ◌%◌, ◌≤◌, List, length};
ghost use Rattle.draft.specs.Drafts.{Put};
ghost use Rattle.draft.specs.Octets.{written};
ghost use Rattle.wire.specs.Octets.{units_data};
ghost use Rattle.wire.specs.Lengths.{units_four};

use avp::Name;
use draft::Draft;
use fault::Fault;
use units::Units;

/// AVPs that are the data of another.
pub trait Data {
    ghost octets: { Self → List ℕ };

    /// How many octets they have.
    fn size(&self) -> u16
        ensures { result ≡ length (octets self.now) };

    /// Writes them.
    fn put_data(&self, draft: &mut Draft) -> Result<(), Fault>
        ensures { Put draft.old (octets self.now) result draft.new };

    ghost four: { (x : Self) → length (octets x) % 4 ≡ 0 };
}

// An AVP with these data.
pub(crate) fn put_avp<D: Data>(draft: &mut Draft, avp: Name, data: &D) -> Result<(), Fault>
    ensures { Put draft.old (written avp (D.octets «data».now)) result draft.new }
{
    draft.put_header(avp, data.size())?;
    data.put_data(draft)
}

impl Data for Units {
    ghost octets = { units_data };

    ghost four = { units_four };

    fn size(&self) -> u16
        ensures value { result ≡ length (units_data self.now) }
        ensures bound { result ≤ 32 }
    {
        match self {
            Units::Total(_) | Units::Uplink(_) | Units::Downlink(_) => 16,
            Units::Both { .. } => 32,
        }
    }

    fn put_data(&self, draft: &mut Draft) -> Result<(), Fault> {
        match *self {
            Units::Total(n) => draft.put_octets(Name::CcTotalOctets, n),
            Units::Uplink(n) => draft.put_octets(Name::CcInputOctets, n),
            Units::Downlink(n) => draft.put_octets(Name::CcOutputOctets, n),
            Units::Both { uplink, downlink } => {
                draft.put_octets(Name::CcInputOctets, uplink)?;
                draft.put_octets(Name::CcOutputOctets, downlink)
            }
        }
    }
}
