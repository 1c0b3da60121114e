ghost use Rattle.std.specs.Prelude.{Some};
ghost use Rattle.avp.specs.Words.{name_word};

use crate::name::Name;
use std::fmt;

/// The AVP's name, as its documents write it.
impl fmt::Display for Name {
    ghost output = { λ name. Some (name_word name) };

    fn fmt<W: fmt::Write>(&self, f: &mut fmt::Formatter<W>) -> fmt::Result {
        f.write_str(match self {
            Name::CcInputOctets => "CC-Input-Octets",
            Name::CcOutputOctets => "CC-Output-Octets",
            Name::CcRequestNumber => "CC-Request-Number",
            Name::CcRequestType => "CC-Request-Type",
            Name::CcTotalOctets => "CC-Total-Octets",
            Name::GrantedServiceUnit => "Granted-Service-Unit",
            Name::UsedServiceUnit => "Used-Service-Unit",
            Name::MonitoringKey => "Monitoring-Key",
            Name::UsageMonitoringInformation => "Usage-Monitoring-Information",
            Name::UsageMonitoringLevel => "Usage-Monitoring-Level",
            Name::UsageMonitoringReport => "Usage-Monitoring-Report",
            Name::UsageMonitoringSupport => "Usage-Monitoring-Support",
        })
    }
}
