ghost use Rattle.std.specs.Prelude.{◌≡◌, false, length, MatchResult, ◌==◌};
ghost use Rattle.fault.specs.declared.Code.TheVariants.{Width};
ghost use Rattle.fault.specs.Numbers.{message_fault};
ghost use Rattle.avp.specs.Fields.{allows, key_in, number_in, ranged, value_of, value_of_result};
ghost use Rattle.avp.specs.Header.{mandatory, seen};
ghost use Rattle.avp.specs.Names.{code_of, name_of, vendor_of};
ghost use Rattle.avp.specs.Octets.{u32_at, u64_at};

use crate::field::{Field, Limits};
use crate::header::Avp;
use crate::name::Name;
use crate::octets::{u32_at, u64_at};
use fault::{Code, Fault};

impl Name {
    /// The AVP of a code and vendor, if it is known.
    pub fn of(code: u32, vendor: Option<u32>) -> Option<Name>
        ensures { result ≡ name_of code vendor }
    {
        match (code, vendor) {
            (412, None) => Some(Name::CcInputOctets),
            (414, None) => Some(Name::CcOutputOctets),
            (415, None) => Some(Name::CcRequestNumber),
            (416, None) => Some(Name::CcRequestType),
            (421, None) => Some(Name::CcTotalOctets),
            (431, None) => Some(Name::GrantedServiceUnit),
            (446, None) => Some(Name::UsedServiceUnit),
            (1066, Some(10415)) => Some(Name::MonitoringKey),
            (1067, Some(10415)) => Some(Name::UsageMonitoringInformation),
            (1068, Some(10415)) => Some(Name::UsageMonitoringLevel),
            (1069, Some(10415)) => Some(Name::UsageMonitoringReport),
            (1070, Some(10415)) => Some(Name::UsageMonitoringSupport),
            _ => None,
        }
    }
}

impl Name {
    /// The code.
    pub fn code(self) -> u32
        ensures { result ≡ code_of self }
    {
        match self {
            Name::CcInputOctets => 412,
            Name::CcOutputOctets => 414,
            Name::CcRequestNumber => 415,
            Name::CcRequestType => 416,
            Name::CcTotalOctets => 421,
            Name::GrantedServiceUnit => 431,
            Name::UsedServiceUnit => 446,
            Name::MonitoringKey => 1066,
            Name::UsageMonitoringInformation => 1067,
            Name::UsageMonitoringLevel => 1068,
            Name::UsageMonitoringReport => 1069,
            Name::UsageMonitoringSupport => 1070,
        }
    }

    /// The vendor, for those of 3GPP.
    pub fn vendor(self) -> Option<u32>
        ensures { result ≡ vendor_of self }
    {
        match self {
            Name::MonitoringKey
            | Name::UsageMonitoringInformation
            | Name::UsageMonitoringLevel
            | Name::UsageMonitoringReport
            | Name::UsageMonitoringSupport => Some(10415),
            _ => None,
        }
    }
}

impl Limits {
    pub fn allow(&self, n: u64) -> bool
        ensures { result ≡ allows self.now n }
    {
        (self.least..=self.most).contains(&n)
    }
}

impl<'a> Avp<'a> {
    /// Whether flag 40 forbids skipping the AVP where it is not known.
    pub fn is_mandatory(&self) -> bool
        ensures { result ≡ mandatory self.now.flags }
    {
        self.flags & 0x40 != 0
    }

    /// What the AVP holds as the one of this name; a number has to lie within the limits.
    pub fn field(&self, name: Name, limits: Limits) -> Result<Field<'a>, Fault>
        ensures { value_of_result result ≡ value_of name limits (seen self.now) }
    {
        match name {
            Name::CcRequestNumber
            | Name::CcRequestType
            | Name::UsageMonitoringLevel
            | Name::UsageMonitoringReport
            | Name::UsageMonitoringSupport => {
                self.number(u64::from(u32_at(self.wide(4)?, 0)), limits)
            }
            Name::CcInputOctets | Name::CcOutputOctets | Name::CcTotalOctets => {
                self.number(u64_at(self.wide(8)?, 0), limits)
            }
            Name::MonitoringKey => self.key(),
            Name::GrantedServiceUnit | Name::UsedServiceUnit | Name::UsageMonitoringInformation =>
                Ok(Field::Group(self.body)),
        }
    }

    // The data, which must have so many octets.
    fn wide(&self, width: usize) -> Result<&'a [u8], Fault>
        ensures { MatchResult result (λ octets. (octets.now ≡ (seen self.now).body.octets) × (length octets.now ≡ width)) (λ fault. (fault ≡ message_fault Width self.now.place) × ((length (seen self.now).body.octets == width) ≡ false)) }
    {
        let octets = self.body.octets();
        if octets.len() != width {
            return Err(Fault::message(Code::Width, self.place));
        }
        Ok(octets)
    }

    fn number(&self, n: u64, limits: Limits) -> Result<Field<'a>, Fault>
        ensures { value_of_result result ≡ ranged n limits (seen self.now) }
    {
        if !limits.allow(n) {
            return Err(Fault::message(Code::Range, self.place));
        }
        Ok(Field::Number(n))
    }

    fn key(&self) -> Result<Field<'a>, Fault>
        ensures { value_of_result result ≡ key_in (seen self.now) }
    {
        let octets = self.body.octets();
        if !(1..=16).contains(&octets.len()) {
            return Err(Fault::message(Code::Width, self.place));
        }
        Ok(Field::Key(octets))
    }
}
