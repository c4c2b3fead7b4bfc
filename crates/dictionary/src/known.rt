// Document 01's dictionary: at each entry's position what it says, from the constants of its kind.
use crate::kinds;
use rules::Entry;

macro_rules! entry {
    ($kind:ident) => {
        Entry {
            vendor: kinds::$kind::VENDOR,
            code: kinds::$kind::CODE,
            m: kinds::$kind::M,
            form: kinds::$kind::FORM,
        }
    };
}

pub(crate) static ENTRIES: [Entry; kinds::ENTRIES] = [
    entry!(AuthApplicationId),
    entry!(AcctApplicationId),
    entry!(RedirectHostUsage),
    entry!(RedirectMaxCacheTime),
    entry!(VendorId),
    entry!(ResultCode),
    entry!(AuthSessionState),
    entry!(OriginStateId),
    entry!(ExperimentalResultCode),
    entry!(SessionId),
    entry!(OriginHost),
    entry!(OriginRealm),
    entry!(DestinationHost),
    entry!(DestinationRealm),
    entry!(RedirectHost),
    entry!(ProxyHost),
    entry!(ProxyState),
    entry!(RouteRecord),
    entry!(FailedAvp),
    entry!(ErrorMessage),
    entry!(ErrorReportingHost),
    entry!(VendorSpecificApplicationId),
    entry!(ExperimentalResult),
    entry!(ProxyInfo),
    entry!(RatingGroup),
    entry!(CcInputOctets),
    entry!(CcOutputOctets),
    entry!(CcTotalOctets),
    entry!(Drmp),
    entry!(OcSupportedFeatures),
    entry!(OcOlr),
    entry!(Load),
    entry!(FeatureListId),
    entry!(FeatureList),
    entry!(ApplicationServiceProviderIdentity),
    entry!(PcrfAddress),
    entry!(SupportedFeatures),
    entry!(MaxRequestedBandwidthDl),
    entry!(MaxRequestedBandwidthUl),
    entry!(TransferRequestType),
    entry!(TransferEndTime),
    entry!(TransferStartTime),
    entry!(TransferPolicyId),
    entry!(NumberOfUes),
    entry!(NetworkAreaInfoList),
    entry!(ReferenceId),
    entry!(TimeWindow),
    entry!(TransferPolicy),
];
