// The AVP kinds of document 01's dictionary, in the order of its entries: Vendor-Id, AVP code and, where it is fixed,
// the width of the data; the number of its entry, which is its position; and whether M must be set and the form of the
// data, from which the table of entries is written.
use rules::limits::{NO_VENDOR, VENDOR_3GPP};
use rules::{Form, Grammar};

// The number of a name that has no entry: behind the last one. No Option: `entry_by` promises what any lent table leads
// to, a log keeps the number of each AVP, and both tables of rows have a place for it.
pub const NO_ENTRY: u8 = 48;

// How many entries there are.
pub const ENTRIES: usize = NO_ENTRY as usize;

// The code names an AVP by a kind's constants alone; in `lists::admission_table` a place has its kind as a comment. No
// trait has them, which would be no plainer: the table may not name a constant that a trait provides, and a clause
// reads one only by a ghost member beside it.

// RFC 6733: four octets

#[derive(Drop)]
pub struct AuthApplicationId;

impl AuthApplicationId {
    pub const VENDOR: u32 = NO_VENDOR;

    pub const CODE: u32 = 258;

    pub const WIDTH: u32 = 4;

    pub const ENTRY: u8 = 0;

    pub(crate) const M: bool = true;

    pub(crate) const FORM: Form = Form::Fixed(AuthApplicationId::WIDTH);
}

#[derive(Drop)]
pub struct AcctApplicationId;

impl AcctApplicationId {
    pub const VENDOR: u32 = NO_VENDOR;

    pub const CODE: u32 = 259;

    pub const WIDTH: u32 = 4;

    pub const ENTRY: u8 = 1;

    pub(crate) const M: bool = true;

    pub(crate) const FORM: Form = Form::Fixed(AcctApplicationId::WIDTH);
}

#[derive(Drop)]
pub struct RedirectHostUsage;

impl RedirectHostUsage {
    pub const VENDOR: u32 = NO_VENDOR;

    pub const CODE: u32 = 261;

    pub const WIDTH: u32 = 4;

    pub const ENTRY: u8 = 2;

    pub(crate) const M: bool = true;

    pub(crate) const FORM: Form = Form::Fixed(RedirectHostUsage::WIDTH);
}

#[derive(Drop)]
pub struct RedirectMaxCacheTime;

impl RedirectMaxCacheTime {
    pub const VENDOR: u32 = NO_VENDOR;

    pub const CODE: u32 = 262;

    pub const WIDTH: u32 = 4;

    pub const ENTRY: u8 = 3;

    pub(crate) const M: bool = true;

    pub(crate) const FORM: Form = Form::Fixed(RedirectMaxCacheTime::WIDTH);
}

#[derive(Drop)]
pub struct VendorId;

impl VendorId {
    pub const VENDOR: u32 = NO_VENDOR;

    pub const CODE: u32 = 266;

    pub const WIDTH: u32 = 4;

    pub const ENTRY: u8 = 4;

    pub(crate) const M: bool = true;

    pub(crate) const FORM: Form = Form::Fixed(VendorId::WIDTH);
}

#[derive(Drop)]
pub struct ResultCode;

impl ResultCode {
    pub const VENDOR: u32 = NO_VENDOR;

    pub const CODE: u32 = 268;

    pub const WIDTH: u32 = 4;

    pub const ENTRY: u8 = 5;

    pub(crate) const M: bool = true;

    pub(crate) const FORM: Form = Form::Fixed(ResultCode::WIDTH);
}

#[derive(Drop)]
pub struct AuthSessionState;

impl AuthSessionState {
    pub const VENDOR: u32 = NO_VENDOR;

    pub const CODE: u32 = 277;

    pub const WIDTH: u32 = 4;

    pub const ENTRY: u8 = 6;

    pub(crate) const M: bool = true;

    pub(crate) const FORM: Form = Form::Fixed(AuthSessionState::WIDTH);
}

#[derive(Drop)]
pub struct OriginStateId;

impl OriginStateId {
    pub const VENDOR: u32 = NO_VENDOR;

    pub const CODE: u32 = 278;

    pub const WIDTH: u32 = 4;

    pub const ENTRY: u8 = 7;

    pub(crate) const M: bool = true;

    pub(crate) const FORM: Form = Form::Fixed(OriginStateId::WIDTH);
}

#[derive(Drop)]
pub struct ExperimentalResultCode;

impl ExperimentalResultCode {
    pub const VENDOR: u32 = NO_VENDOR;

    pub const CODE: u32 = 298;

    pub const WIDTH: u32 = 4;

    pub const ENTRY: u8 = 8;

    pub(crate) const M: bool = true;

    pub(crate) const FORM: Form = Form::Fixed(ExperimentalResultCode::WIDTH);
}

// RFC 6733: any length

#[derive(Drop)]
pub struct SessionId;

impl SessionId {
    pub const VENDOR: u32 = NO_VENDOR;

    pub const CODE: u32 = 263;

    pub const ENTRY: u8 = 9;

    pub(crate) const M: bool = true;

    pub(crate) const FORM: Form = Form::Any;
}

#[derive(Drop)]
pub struct OriginHost;

impl OriginHost {
    pub const VENDOR: u32 = NO_VENDOR;

    pub const CODE: u32 = 264;

    pub const ENTRY: u8 = 10;

    pub(crate) const M: bool = true;

    pub(crate) const FORM: Form = Form::Any;
}

#[derive(Drop)]
pub struct OriginRealm;

impl OriginRealm {
    pub const VENDOR: u32 = NO_VENDOR;

    pub const CODE: u32 = 296;

    pub const ENTRY: u8 = 11;

    pub(crate) const M: bool = true;

    pub(crate) const FORM: Form = Form::Any;
}

#[derive(Drop)]
pub struct DestinationHost;

impl DestinationHost {
    pub const VENDOR: u32 = NO_VENDOR;

    pub const CODE: u32 = 293;

    pub const ENTRY: u8 = 12;

    pub(crate) const M: bool = true;

    pub(crate) const FORM: Form = Form::Any;
}

#[derive(Drop)]
pub struct DestinationRealm;

impl DestinationRealm {
    pub const VENDOR: u32 = NO_VENDOR;

    pub const CODE: u32 = 283;

    pub const ENTRY: u8 = 13;

    pub(crate) const M: bool = true;

    pub(crate) const FORM: Form = Form::Any;
}

#[derive(Drop)]
pub struct RedirectHost;

impl RedirectHost {
    pub const VENDOR: u32 = NO_VENDOR;

    pub const CODE: u32 = 292;

    pub const ENTRY: u8 = 14;

    pub(crate) const M: bool = true;

    pub(crate) const FORM: Form = Form::Any;
}

#[derive(Drop)]
pub struct ProxyHost;

impl ProxyHost {
    pub const VENDOR: u32 = NO_VENDOR;

    pub const CODE: u32 = 280;

    pub const ENTRY: u8 = 15;

    pub(crate) const M: bool = true;

    pub(crate) const FORM: Form = Form::Any;
}

#[derive(Drop)]
pub struct ProxyState;

impl ProxyState {
    pub const VENDOR: u32 = NO_VENDOR;

    pub const CODE: u32 = 33;

    pub const ENTRY: u8 = 16;

    pub(crate) const M: bool = true;

    pub(crate) const FORM: Form = Form::Any;
}

#[derive(Drop)]
pub struct RouteRecord;

impl RouteRecord {
    pub const VENDOR: u32 = NO_VENDOR;

    pub const CODE: u32 = 282;

    pub const ENTRY: u8 = 17;

    pub(crate) const M: bool = true;

    pub(crate) const FORM: Form = Form::Any;
}

#[derive(Drop)]
pub struct FailedAvp;

impl FailedAvp {
    pub const VENDOR: u32 = NO_VENDOR;

    pub const CODE: u32 = 279;

    pub const ENTRY: u8 = 18;

    pub(crate) const M: bool = true;

    pub(crate) const FORM: Form = Form::Any;
}

// RFC 6733: any length, M free

#[derive(Drop)]
pub struct ErrorMessage;

impl ErrorMessage {
    pub const VENDOR: u32 = NO_VENDOR;

    pub const CODE: u32 = 281;

    pub const ENTRY: u8 = 19;

    pub(crate) const M: bool = false;

    pub(crate) const FORM: Form = Form::Any;
}

#[derive(Drop)]
pub struct ErrorReportingHost;

impl ErrorReportingHost {
    pub const VENDOR: u32 = NO_VENDOR;

    pub const CODE: u32 = 294;

    pub const ENTRY: u8 = 20;

    pub(crate) const M: bool = false;

    pub(crate) const FORM: Form = Form::Any;
}

// RFC 6733: groups

#[derive(Drop)]
pub struct VendorSpecificApplicationId;

impl VendorSpecificApplicationId {
    pub const VENDOR: u32 = NO_VENDOR;

    pub const CODE: u32 = 260;

    pub const ENTRY: u8 = 21;

    pub(crate) const M: bool = true;

    pub(crate) const FORM: Form = Form::Group(Grammar::VendorSpecificApplicationId);
}

#[derive(Drop)]
pub struct ExperimentalResult;

impl ExperimentalResult {
    pub const VENDOR: u32 = NO_VENDOR;

    pub const CODE: u32 = 297;

    pub const ENTRY: u8 = 22;

    pub(crate) const M: bool = true;

    pub(crate) const FORM: Form = Form::Group(Grammar::ExperimentalResult);
}

#[derive(Drop)]
pub struct ProxyInfo;

impl ProxyInfo {
    pub const VENDOR: u32 = NO_VENDOR;

    pub const CODE: u32 = 284;

    pub const ENTRY: u8 = 23;

    pub(crate) const M: bool = true;

    pub(crate) const FORM: Form = Form::Group(Grammar::ProxyInfo);
}

// RFC 4006: four octets

#[derive(Drop)]
pub struct RatingGroup;

impl RatingGroup {
    pub const VENDOR: u32 = NO_VENDOR;

    pub const CODE: u32 = 432;

    pub const WIDTH: u32 = 4;

    pub const ENTRY: u8 = 24;

    pub(crate) const M: bool = true;

    pub(crate) const FORM: Form = Form::Fixed(RatingGroup::WIDTH);
}

// RFC 4006: eight octets

#[derive(Drop)]
pub struct CcInputOctets;

impl CcInputOctets {
    pub const VENDOR: u32 = NO_VENDOR;

    pub const CODE: u32 = 412;

    pub const WIDTH: u32 = 8;

    pub const ENTRY: u8 = 25;

    pub(crate) const M: bool = true;

    pub(crate) const FORM: Form = Form::Fixed(CcInputOctets::WIDTH);
}

#[derive(Drop)]
pub struct CcOutputOctets;

impl CcOutputOctets {
    pub const VENDOR: u32 = NO_VENDOR;

    pub const CODE: u32 = 414;

    pub const WIDTH: u32 = 8;

    pub const ENTRY: u8 = 26;

    pub(crate) const M: bool = true;

    pub(crate) const FORM: Form = Form::Fixed(CcOutputOctets::WIDTH);
}

#[derive(Drop)]
pub struct CcTotalOctets;

impl CcTotalOctets {
    pub const VENDOR: u32 = NO_VENDOR;

    pub const CODE: u32 = 421;

    pub const WIDTH: u32 = 8;

    pub const ENTRY: u8 = 27;

    pub(crate) const M: bool = true;

    pub(crate) const FORM: Form = Form::Fixed(CcTotalOctets::WIDTH);
}

// No vendor, M free: four octets

#[derive(Drop)]
pub struct Drmp;

impl Drmp {
    pub const VENDOR: u32 = NO_VENDOR;

    pub const CODE: u32 = 301;

    pub const WIDTH: u32 = 4;

    pub const ENTRY: u8 = 28;

    pub(crate) const M: bool = false;

    pub(crate) const FORM: Form = Form::Fixed(Drmp::WIDTH);
}

// No vendor, M free: any length

#[derive(Drop)]
pub struct OcSupportedFeatures;

impl OcSupportedFeatures {
    pub const VENDOR: u32 = NO_VENDOR;

    pub const CODE: u32 = 621;

    pub const ENTRY: u8 = 29;

    pub(crate) const M: bool = false;

    pub(crate) const FORM: Form = Form::Any;
}

#[derive(Drop)]
pub struct OcOlr;

impl OcOlr {
    pub const VENDOR: u32 = NO_VENDOR;

    pub const CODE: u32 = 623;

    pub const ENTRY: u8 = 30;

    pub(crate) const M: bool = false;

    pub(crate) const FORM: Form = Form::Any;
}

#[derive(Drop)]
pub struct Load;

impl Load {
    pub const VENDOR: u32 = NO_VENDOR;

    pub const CODE: u32 = 650;

    pub const ENTRY: u8 = 31;

    pub(crate) const M: bool = false;

    pub(crate) const FORM: Form = Form::Any;
}

// 3GPP, M free: four octets

#[derive(Drop)]
pub struct FeatureListId;

impl FeatureListId {
    pub const VENDOR: u32 = VENDOR_3GPP;

    pub const CODE: u32 = 629;

    pub const WIDTH: u32 = 4;

    pub const ENTRY: u8 = 32;

    pub(crate) const M: bool = false;

    pub(crate) const FORM: Form = Form::Fixed(FeatureListId::WIDTH);
}

#[derive(Drop)]
pub struct FeatureList;

impl FeatureList {
    pub const VENDOR: u32 = VENDOR_3GPP;

    pub const CODE: u32 = 630;

    pub const WIDTH: u32 = 4;

    pub const ENTRY: u8 = 33;

    pub(crate) const M: bool = false;

    pub(crate) const FORM: Form = Form::Fixed(FeatureList::WIDTH);
}

// 3GPP, M free: any length

#[derive(Drop)]
pub struct ApplicationServiceProviderIdentity;

impl ApplicationServiceProviderIdentity {
    pub const VENDOR: u32 = VENDOR_3GPP;

    pub const CODE: u32 = 532;

    pub const ENTRY: u8 = 34;

    pub(crate) const M: bool = false;

    pub(crate) const FORM: Form = Form::Any;
}

#[derive(Drop)]
pub struct PcrfAddress;

impl PcrfAddress {
    pub const VENDOR: u32 = VENDOR_3GPP;

    pub const CODE: u32 = 2207;

    pub const ENTRY: u8 = 35;

    pub(crate) const M: bool = false;

    pub(crate) const FORM: Form = Form::Any;
}

// 3GPP, M free: a group

#[derive(Drop)]
pub struct SupportedFeatures;

impl SupportedFeatures {
    pub const VENDOR: u32 = VENDOR_3GPP;

    pub const CODE: u32 = 628;

    pub const ENTRY: u8 = 36;

    pub(crate) const M: bool = false;

    pub(crate) const FORM: Form = Form::Group(Grammar::SupportedFeatures);
}

// 3GPP: four octets

#[derive(Drop)]
pub struct MaxRequestedBandwidthDl;

impl MaxRequestedBandwidthDl {
    pub const VENDOR: u32 = VENDOR_3GPP;

    pub const CODE: u32 = 515;

    pub const WIDTH: u32 = 4;

    pub const ENTRY: u8 = 37;

    pub(crate) const M: bool = true;

    pub(crate) const FORM: Form = Form::Fixed(MaxRequestedBandwidthDl::WIDTH);
}

#[derive(Drop)]
pub struct MaxRequestedBandwidthUl;

impl MaxRequestedBandwidthUl {
    pub const VENDOR: u32 = VENDOR_3GPP;

    pub const CODE: u32 = 516;

    pub const WIDTH: u32 = 4;

    pub const ENTRY: u8 = 38;

    pub(crate) const M: bool = true;

    pub(crate) const FORM: Form = Form::Fixed(MaxRequestedBandwidthUl::WIDTH);
}

#[derive(Drop)]
pub struct TransferRequestType;

impl TransferRequestType {
    pub const VENDOR: u32 = VENDOR_3GPP;

    pub const CODE: u32 = 4203;

    pub const WIDTH: u32 = 4;

    pub const ENTRY: u8 = 39;

    pub(crate) const M: bool = true;

    pub(crate) const FORM: Form = Form::Fixed(TransferRequestType::WIDTH);
}

#[derive(Drop)]
pub struct TransferEndTime;

impl TransferEndTime {
    pub const VENDOR: u32 = VENDOR_3GPP;

    pub const CODE: u32 = 4205;

    pub const WIDTH: u32 = 4;

    pub const ENTRY: u8 = 40;

    pub(crate) const M: bool = true;

    pub(crate) const FORM: Form = Form::Fixed(TransferEndTime::WIDTH);
}

#[derive(Drop)]
pub struct TransferStartTime;

impl TransferStartTime {
    pub const VENDOR: u32 = VENDOR_3GPP;

    pub const CODE: u32 = 4206;

    pub const WIDTH: u32 = 4;

    pub const ENTRY: u8 = 41;

    pub(crate) const M: bool = true;

    pub(crate) const FORM: Form = Form::Fixed(TransferStartTime::WIDTH);
}

#[derive(Drop)]
pub struct TransferPolicyId;

impl TransferPolicyId {
    pub const VENDOR: u32 = VENDOR_3GPP;

    pub const CODE: u32 = 4208;

    pub const WIDTH: u32 = 4;

    pub const ENTRY: u8 = 42;

    pub(crate) const M: bool = true;

    pub(crate) const FORM: Form = Form::Fixed(TransferPolicyId::WIDTH);
}

#[derive(Drop)]
pub struct NumberOfUes;

impl NumberOfUes {
    pub const VENDOR: u32 = VENDOR_3GPP;

    pub const CODE: u32 = 4209;

    pub const WIDTH: u32 = 4;

    pub const ENTRY: u8 = 43;

    pub(crate) const M: bool = true;

    pub(crate) const FORM: Form = Form::Fixed(NumberOfUes::WIDTH);
}

// 3GPP: any length

#[derive(Drop)]
pub struct NetworkAreaInfoList;

impl NetworkAreaInfoList {
    pub const VENDOR: u32 = VENDOR_3GPP;

    pub const CODE: u32 = 4201;

    pub const ENTRY: u8 = 44;

    pub(crate) const M: bool = true;

    pub(crate) const FORM: Form = Form::Any;
}

#[derive(Drop)]
pub struct ReferenceId;

impl ReferenceId {
    pub const VENDOR: u32 = VENDOR_3GPP;

    pub const CODE: u32 = 4202;

    pub const ENTRY: u8 = 45;

    pub(crate) const M: bool = true;

    pub(crate) const FORM: Form = Form::Any;
}

// 3GPP: groups

#[derive(Drop)]
pub struct TimeWindow;

impl TimeWindow {
    pub const VENDOR: u32 = VENDOR_3GPP;

    pub const CODE: u32 = 4204;

    pub const ENTRY: u8 = 46;

    pub(crate) const M: bool = true;

    pub(crate) const FORM: Form = Form::Group(Grammar::TimeWindow);
}

#[derive(Drop)]
pub struct TransferPolicy;

impl TransferPolicy {
    pub const VENDOR: u32 = VENDOR_3GPP;

    pub const CODE: u32 = 4207;

    pub const ENTRY: u8 = 47;

    pub(crate) const M: bool = true;

    pub(crate) const FORM: Form = Form::Group(Grammar::TransferPolicy);
}
