// The codes that 3GPP has for Nt alone, from 4201 on: at each code's place stands the number of its entry.
use crate::kinds;

pub(crate) const CODES: usize = 9;

pub(crate) static TABLE: [u8; CODES] = [
    kinds::NetworkAreaInfoList::ENTRY,
    kinds::ReferenceId::ENTRY,
    kinds::TransferRequestType::ENTRY,
    kinds::TimeWindow::ENTRY,
    kinds::TransferEndTime::ENTRY,
    kinds::TransferStartTime::ENTRY,
    kinds::TransferPolicy::ENTRY,
    kinds::TransferPolicyId::ENTRY,
    kinds::NumberOfUes::ENTRY,
];
