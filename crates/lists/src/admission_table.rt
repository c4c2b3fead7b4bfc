// 01, Rows, as a table over the dictionary's entries for all lists: at the place of a list and an entry stands the row
// of the list that names the entry, with its mark. Each is a number of one octet: an `Option<Admission>` takes 16
// octets at each of the 432 places, and `AdmissionTable` is a rule of numbers.
ghost use Rattle.lists.specs.Tables.{AdmissionTable};

use crate::places;
use dictionary::kinds;

pub(crate) const NUMBERS: usize = places::LISTS * kinds::ENTRIES;

// The marks, multiples of `MARK`: ! first and once, 1 once, ? at most once, * any number. "At most once and first if
// present" says of a member what ! says. Multiples of 32 leave numbers above the last mark; with multiples of 64 the
// compiled match on the mark is a jump through a table, which is slower, and so it is with a fifth mark.
pub(crate) const MARK: u8 = 32;

pub(crate) const FIRST: u8 = 0;

const FIRST_IF_PRESENT: u8 = FIRST;

pub(crate) const ONCE: u8 = MARK;

pub(crate) const AT_MOST_ONCE: u8 = 2 * MARK;

const ANY_NUMBER: u8 = 3 * MARK;

// No row of the list names the entry.
const NO_ROW: u8 = places::ROW_PLACES as u8;

// Behind each number stands the kind of the entry.
static TABLE: [u8; NUMBERS] = [
    // BTR
    NO_ROW, // AuthApplicationId
    NO_ROW, // AcctApplicationId
    NO_ROW, // RedirectHostUsage
    NO_ROW, // RedirectMaxCacheTime
    NO_ROW, // VendorId
    NO_ROW, // ResultCode
    ONCE + 3, // AuthSessionState
    NO_ROW, // OriginStateId
    NO_ROW, // ExperimentalResultCode
    FIRST + 0, // SessionId
    ONCE + 4, // OriginHost
    ONCE + 5, // OriginRealm
    AT_MOST_ONCE + 7, // DestinationHost
    ONCE + 6, // DestinationRealm
    NO_ROW, // RedirectHost
    NO_ROW, // ProxyHost
    NO_ROW, // ProxyState
    ANY_NUMBER + 20, // RouteRecord
    NO_ROW, // FailedAvp
    NO_ROW, // ErrorMessage
    NO_ROW, // ErrorReportingHost
    ONCE + 2, // VendorSpecificApplicationId
    NO_ROW, // ExperimentalResult
    ANY_NUMBER + 19, // ProxyInfo
    NO_ROW, // RatingGroup
    AT_MOST_ONCE + 11, // CcInputOctets
    AT_MOST_ONCE + 10, // CcOutputOctets
    AT_MOST_ONCE + 12, // CcTotalOctets
    AT_MOST_ONCE + 1, // Drmp
    AT_MOST_ONCE + 18, // OcSupportedFeatures
    NO_ROW, // OcOlr
    NO_ROW, // Load
    NO_ROW, // FeatureListId
    NO_ROW, // FeatureList
    AT_MOST_ONCE + 9, // ApplicationServiceProviderIdentity
    NO_ROW, // PcrfAddress
    ANY_NUMBER + 21, // SupportedFeatures
    NO_ROW, // MaxRequestedBandwidthDl
    NO_ROW, // MaxRequestedBandwidthUl
    ONCE + 8, // TransferRequestType
    NO_ROW, // TransferEndTime
    NO_ROW, // TransferStartTime
    AT_MOST_ONCE + 17, // TransferPolicyId
    AT_MOST_ONCE + 13, // NumberOfUes
    AT_MOST_ONCE + 15, // NetworkAreaInfoList
    AT_MOST_ONCE + 16, // ReferenceId
    AT_MOST_ONCE + 14, // TimeWindow
    NO_ROW, // TransferPolicy
    // BTA
    NO_ROW, // AuthApplicationId
    NO_ROW, // AcctApplicationId
    AT_MOST_ONCE + 12, // RedirectHostUsage
    AT_MOST_ONCE + 13, // RedirectMaxCacheTime
    NO_ROW, // VendorId
    AT_MOST_ONCE + 6, // ResultCode
    ONCE + 3, // AuthSessionState
    NO_ROW, // OriginStateId
    NO_ROW, // ExperimentalResultCode
    FIRST + 0, // SessionId
    ONCE + 4, // OriginHost
    ONCE + 5, // OriginRealm
    NO_ROW, // DestinationHost
    NO_ROW, // DestinationRealm
    ANY_NUMBER + 11, // RedirectHost
    NO_ROW, // ProxyHost
    NO_ROW, // ProxyState
    ANY_NUMBER + 20, // RouteRecord
    AT_MOST_ONCE + 10, // FailedAvp
    AT_MOST_ONCE + 8, // ErrorMessage
    AT_MOST_ONCE + 9, // ErrorReportingHost
    ONCE + 2, // VendorSpecificApplicationId
    AT_MOST_ONCE + 7, // ExperimentalResult
    ANY_NUMBER + 19, // ProxyInfo
    NO_ROW, // RatingGroup
    NO_ROW, // CcInputOctets
    NO_ROW, // CcOutputOctets
    NO_ROW, // CcTotalOctets
    AT_MOST_ONCE + 1, // Drmp
    AT_MOST_ONCE + 15, // OcSupportedFeatures
    AT_MOST_ONCE + 16, // OcOlr
    ANY_NUMBER + 22, // Load
    NO_ROW, // FeatureListId
    NO_ROW, // FeatureList
    NO_ROW, // ApplicationServiceProviderIdentity
    AT_MOST_ONCE + 18, // PcrfAddress
    ANY_NUMBER + 21, // SupportedFeatures
    NO_ROW, // MaxRequestedBandwidthDl
    NO_ROW, // MaxRequestedBandwidthUl
    NO_ROW, // TransferRequestType
    NO_ROW, // TransferEndTime
    NO_ROW, // TransferStartTime
    NO_ROW, // TransferPolicyId
    NO_ROW, // NumberOfUes
    NO_ROW, // NetworkAreaInfoList
    AT_MOST_ONCE + 14, // ReferenceId
    NO_ROW, // TimeWindow
    ANY_NUMBER + 17, // TransferPolicy
    // 260 Vendor-Specific-Application-Id
    AT_MOST_ONCE + 1, // AuthApplicationId
    AT_MOST_ONCE + 2, // AcctApplicationId
    NO_ROW, // RedirectHostUsage
    NO_ROW, // RedirectMaxCacheTime
    ONCE + 0, // VendorId
    NO_ROW, // ResultCode
    NO_ROW, // AuthSessionState
    NO_ROW, // OriginStateId
    NO_ROW, // ExperimentalResultCode
    NO_ROW, // SessionId
    NO_ROW, // OriginHost
    NO_ROW, // OriginRealm
    NO_ROW, // DestinationHost
    NO_ROW, // DestinationRealm
    NO_ROW, // RedirectHost
    NO_ROW, // ProxyHost
    NO_ROW, // ProxyState
    NO_ROW, // RouteRecord
    NO_ROW, // FailedAvp
    NO_ROW, // ErrorMessage
    NO_ROW, // ErrorReportingHost
    NO_ROW, // VendorSpecificApplicationId
    NO_ROW, // ExperimentalResult
    NO_ROW, // ProxyInfo
    NO_ROW, // RatingGroup
    NO_ROW, // CcInputOctets
    NO_ROW, // CcOutputOctets
    NO_ROW, // CcTotalOctets
    NO_ROW, // Drmp
    NO_ROW, // OcSupportedFeatures
    NO_ROW, // OcOlr
    NO_ROW, // Load
    NO_ROW, // FeatureListId
    NO_ROW, // FeatureList
    NO_ROW, // ApplicationServiceProviderIdentity
    NO_ROW, // PcrfAddress
    NO_ROW, // SupportedFeatures
    NO_ROW, // MaxRequestedBandwidthDl
    NO_ROW, // MaxRequestedBandwidthUl
    NO_ROW, // TransferRequestType
    NO_ROW, // TransferEndTime
    NO_ROW, // TransferStartTime
    NO_ROW, // TransferPolicyId
    NO_ROW, // NumberOfUes
    NO_ROW, // NetworkAreaInfoList
    NO_ROW, // ReferenceId
    NO_ROW, // TimeWindow
    NO_ROW, // TransferPolicy
    // 297 Experimental-Result
    NO_ROW, // AuthApplicationId
    NO_ROW, // AcctApplicationId
    NO_ROW, // RedirectHostUsage
    NO_ROW, // RedirectMaxCacheTime
    ONCE + 0, // VendorId
    NO_ROW, // ResultCode
    NO_ROW, // AuthSessionState
    NO_ROW, // OriginStateId
    ONCE + 1, // ExperimentalResultCode
    NO_ROW, // SessionId
    NO_ROW, // OriginHost
    NO_ROW, // OriginRealm
    NO_ROW, // DestinationHost
    NO_ROW, // DestinationRealm
    NO_ROW, // RedirectHost
    NO_ROW, // ProxyHost
    NO_ROW, // ProxyState
    NO_ROW, // RouteRecord
    NO_ROW, // FailedAvp
    NO_ROW, // ErrorMessage
    NO_ROW, // ErrorReportingHost
    NO_ROW, // VendorSpecificApplicationId
    NO_ROW, // ExperimentalResult
    NO_ROW, // ProxyInfo
    NO_ROW, // RatingGroup
    NO_ROW, // CcInputOctets
    NO_ROW, // CcOutputOctets
    NO_ROW, // CcTotalOctets
    NO_ROW, // Drmp
    NO_ROW, // OcSupportedFeatures
    NO_ROW, // OcOlr
    NO_ROW, // Load
    NO_ROW, // FeatureListId
    NO_ROW, // FeatureList
    NO_ROW, // ApplicationServiceProviderIdentity
    NO_ROW, // PcrfAddress
    NO_ROW, // SupportedFeatures
    NO_ROW, // MaxRequestedBandwidthDl
    NO_ROW, // MaxRequestedBandwidthUl
    NO_ROW, // TransferRequestType
    NO_ROW, // TransferEndTime
    NO_ROW, // TransferStartTime
    NO_ROW, // TransferPolicyId
    NO_ROW, // NumberOfUes
    NO_ROW, // NetworkAreaInfoList
    NO_ROW, // ReferenceId
    NO_ROW, // TimeWindow
    NO_ROW, // TransferPolicy
    // 284 Proxy-Info
    NO_ROW, // AuthApplicationId
    NO_ROW, // AcctApplicationId
    NO_ROW, // RedirectHostUsage
    NO_ROW, // RedirectMaxCacheTime
    NO_ROW, // VendorId
    NO_ROW, // ResultCode
    NO_ROW, // AuthSessionState
    NO_ROW, // OriginStateId
    NO_ROW, // ExperimentalResultCode
    NO_ROW, // SessionId
    NO_ROW, // OriginHost
    NO_ROW, // OriginRealm
    NO_ROW, // DestinationHost
    NO_ROW, // DestinationRealm
    NO_ROW, // RedirectHost
    ONCE + 0, // ProxyHost
    ONCE + 1, // ProxyState
    NO_ROW, // RouteRecord
    NO_ROW, // FailedAvp
    NO_ROW, // ErrorMessage
    NO_ROW, // ErrorReportingHost
    NO_ROW, // VendorSpecificApplicationId
    NO_ROW, // ExperimentalResult
    NO_ROW, // ProxyInfo
    NO_ROW, // RatingGroup
    NO_ROW, // CcInputOctets
    NO_ROW, // CcOutputOctets
    NO_ROW, // CcTotalOctets
    NO_ROW, // Drmp
    NO_ROW, // OcSupportedFeatures
    NO_ROW, // OcOlr
    NO_ROW, // Load
    NO_ROW, // FeatureListId
    NO_ROW, // FeatureList
    NO_ROW, // ApplicationServiceProviderIdentity
    NO_ROW, // PcrfAddress
    NO_ROW, // SupportedFeatures
    NO_ROW, // MaxRequestedBandwidthDl
    NO_ROW, // MaxRequestedBandwidthUl
    NO_ROW, // TransferRequestType
    NO_ROW, // TransferEndTime
    NO_ROW, // TransferStartTime
    NO_ROW, // TransferPolicyId
    NO_ROW, // NumberOfUes
    NO_ROW, // NetworkAreaInfoList
    NO_ROW, // ReferenceId
    NO_ROW, // TimeWindow
    NO_ROW, // TransferPolicy
    // 628 Supported-Features
    NO_ROW, // AuthApplicationId
    NO_ROW, // AcctApplicationId
    NO_ROW, // RedirectHostUsage
    NO_ROW, // RedirectMaxCacheTime
    ONCE + 0, // VendorId
    NO_ROW, // ResultCode
    NO_ROW, // AuthSessionState
    NO_ROW, // OriginStateId
    NO_ROW, // ExperimentalResultCode
    NO_ROW, // SessionId
    NO_ROW, // OriginHost
    NO_ROW, // OriginRealm
    NO_ROW, // DestinationHost
    NO_ROW, // DestinationRealm
    NO_ROW, // RedirectHost
    NO_ROW, // ProxyHost
    NO_ROW, // ProxyState
    NO_ROW, // RouteRecord
    NO_ROW, // FailedAvp
    NO_ROW, // ErrorMessage
    NO_ROW, // ErrorReportingHost
    NO_ROW, // VendorSpecificApplicationId
    NO_ROW, // ExperimentalResult
    NO_ROW, // ProxyInfo
    NO_ROW, // RatingGroup
    NO_ROW, // CcInputOctets
    NO_ROW, // CcOutputOctets
    NO_ROW, // CcTotalOctets
    NO_ROW, // Drmp
    NO_ROW, // OcSupportedFeatures
    NO_ROW, // OcOlr
    NO_ROW, // Load
    ONCE + 1, // FeatureListId
    ONCE + 2, // FeatureList
    NO_ROW, // ApplicationServiceProviderIdentity
    NO_ROW, // PcrfAddress
    NO_ROW, // SupportedFeatures
    NO_ROW, // MaxRequestedBandwidthDl
    NO_ROW, // MaxRequestedBandwidthUl
    NO_ROW, // TransferRequestType
    NO_ROW, // TransferEndTime
    NO_ROW, // TransferStartTime
    NO_ROW, // TransferPolicyId
    NO_ROW, // NumberOfUes
    NO_ROW, // NetworkAreaInfoList
    NO_ROW, // ReferenceId
    NO_ROW, // TimeWindow
    NO_ROW, // TransferPolicy
    // 4204 Time-Window
    NO_ROW, // AuthApplicationId
    NO_ROW, // AcctApplicationId
    NO_ROW, // RedirectHostUsage
    NO_ROW, // RedirectMaxCacheTime
    NO_ROW, // VendorId
    NO_ROW, // ResultCode
    NO_ROW, // AuthSessionState
    NO_ROW, // OriginStateId
    NO_ROW, // ExperimentalResultCode
    NO_ROW, // SessionId
    NO_ROW, // OriginHost
    NO_ROW, // OriginRealm
    NO_ROW, // DestinationHost
    NO_ROW, // DestinationRealm
    NO_ROW, // RedirectHost
    NO_ROW, // ProxyHost
    NO_ROW, // ProxyState
    NO_ROW, // RouteRecord
    NO_ROW, // FailedAvp
    NO_ROW, // ErrorMessage
    NO_ROW, // ErrorReportingHost
    NO_ROW, // VendorSpecificApplicationId
    NO_ROW, // ExperimentalResult
    NO_ROW, // ProxyInfo
    NO_ROW, // RatingGroup
    NO_ROW, // CcInputOctets
    NO_ROW, // CcOutputOctets
    NO_ROW, // CcTotalOctets
    NO_ROW, // Drmp
    NO_ROW, // OcSupportedFeatures
    NO_ROW, // OcOlr
    NO_ROW, // Load
    NO_ROW, // FeatureListId
    NO_ROW, // FeatureList
    NO_ROW, // ApplicationServiceProviderIdentity
    NO_ROW, // PcrfAddress
    NO_ROW, // SupportedFeatures
    NO_ROW, // MaxRequestedBandwidthDl
    NO_ROW, // MaxRequestedBandwidthUl
    NO_ROW, // TransferRequestType
    ONCE + 1, // TransferEndTime
    ONCE + 0, // TransferStartTime
    NO_ROW, // TransferPolicyId
    NO_ROW, // NumberOfUes
    NO_ROW, // NetworkAreaInfoList
    NO_ROW, // ReferenceId
    NO_ROW, // TimeWindow
    NO_ROW, // TransferPolicy
    // 4207 Transfer-Policy
    NO_ROW, // AuthApplicationId
    NO_ROW, // AcctApplicationId
    NO_ROW, // RedirectHostUsage
    NO_ROW, // RedirectMaxCacheTime
    NO_ROW, // VendorId
    NO_ROW, // ResultCode
    NO_ROW, // AuthSessionState
    NO_ROW, // OriginStateId
    NO_ROW, // ExperimentalResultCode
    NO_ROW, // SessionId
    NO_ROW, // OriginHost
    NO_ROW, // OriginRealm
    NO_ROW, // DestinationHost
    NO_ROW, // DestinationRealm
    NO_ROW, // RedirectHost
    NO_ROW, // ProxyHost
    NO_ROW, // ProxyState
    NO_ROW, // RouteRecord
    NO_ROW, // FailedAvp
    NO_ROW, // ErrorMessage
    NO_ROW, // ErrorReportingHost
    NO_ROW, // VendorSpecificApplicationId
    NO_ROW, // ExperimentalResult
    NO_ROW, // ProxyInfo
    AT_MOST_ONCE + 2, // RatingGroup
    NO_ROW, // CcInputOctets
    NO_ROW, // CcOutputOctets
    NO_ROW, // CcTotalOctets
    NO_ROW, // Drmp
    NO_ROW, // OcSupportedFeatures
    NO_ROW, // OcOlr
    NO_ROW, // Load
    NO_ROW, // FeatureListId
    NO_ROW, // FeatureList
    NO_ROW, // ApplicationServiceProviderIdentity
    NO_ROW, // PcrfAddress
    NO_ROW, // SupportedFeatures
    AT_MOST_ONCE + 3, // MaxRequestedBandwidthDl
    AT_MOST_ONCE + 4, // MaxRequestedBandwidthUl
    NO_ROW, // TransferRequestType
    NO_ROW, // TransferEndTime
    NO_ROW, // TransferStartTime
    ONCE + 0, // TransferPolicyId
    NO_ROW, // NumberOfUes
    NO_ROW, // NetworkAreaInfoList
    NO_ROW, // ReferenceId
    AT_MOST_ONCE + 1, // TimeWindow
    NO_ROW, // TransferPolicy
    // an answer with E
    NO_ROW, // AuthApplicationId
    NO_ROW, // AcctApplicationId
    NO_ROW, // RedirectHostUsage
    NO_ROW, // RedirectMaxCacheTime
    NO_ROW, // VendorId
    ONCE + 3, // ResultCode
    NO_ROW, // AuthSessionState
    AT_MOST_ONCE + 4, // OriginStateId
    NO_ROW, // ExperimentalResultCode
    FIRST_IF_PRESENT + 0, // SessionId
    ONCE + 1, // OriginHost
    ONCE + 2, // OriginRealm
    NO_ROW, // DestinationHost
    NO_ROW, // DestinationRealm
    NO_ROW, // RedirectHost
    NO_ROW, // ProxyHost
    NO_ROW, // ProxyState
    NO_ROW, // RouteRecord
    AT_MOST_ONCE + 7, // FailedAvp
    AT_MOST_ONCE + 5, // ErrorMessage
    AT_MOST_ONCE + 6, // ErrorReportingHost
    NO_ROW, // VendorSpecificApplicationId
    AT_MOST_ONCE + 8, // ExperimentalResult
    ANY_NUMBER + 9, // ProxyInfo
    NO_ROW, // RatingGroup
    NO_ROW, // CcInputOctets
    NO_ROW, // CcOutputOctets
    NO_ROW, // CcTotalOctets
    NO_ROW, // Drmp
    NO_ROW, // OcSupportedFeatures
    NO_ROW, // OcOlr
    NO_ROW, // Load
    NO_ROW, // FeatureListId
    NO_ROW, // FeatureList
    NO_ROW, // ApplicationServiceProviderIdentity
    NO_ROW, // PcrfAddress
    NO_ROW, // SupportedFeatures
    NO_ROW, // MaxRequestedBandwidthDl
    NO_ROW, // MaxRequestedBandwidthUl
    NO_ROW, // TransferRequestType
    NO_ROW, // TransferEndTime
    NO_ROW, // TransferStartTime
    NO_ROW, // TransferPolicyId
    NO_ROW, // NumberOfUes
    NO_ROW, // NetworkAreaInfoList
    NO_ROW, // ReferenceId
    NO_ROW, // TimeWindow
    NO_ROW, // TransferPolicy
];

// A function hands it out, since a static has no clause that says its rule (`AdmissionTable`).
pub(crate) fn table() -> &'static [u8; NUMBERS]
    ensures { AdmissionTable result.now }
{
    &TABLE
}
