/// The twelve AVPs that are known here, each by its code and vendor. Any other pair is unknown.
#[derive(Clone, Copy, Debug, PartialEq, Eq)]
pub enum Name {
    CcInputOctets,
    CcOutputOctets,
    CcRequestNumber,
    CcRequestType,
    CcTotalOctets,
    GrantedServiceUnit,
    UsedServiceUnit,
    MonitoringKey,
    UsageMonitoringInformation,
    UsageMonitoringLevel,
    UsageMonitoringReport,
    UsageMonitoringSupport,
}
