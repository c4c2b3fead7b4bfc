// The values of the flags in their octet, from the top.

// Command flags (01, Header). The four bits below them are reserved and ignored.
pub const REQUEST: u8 = 128;

pub const PROXIABLE: u8 = 64;

pub const ERROR: u8 = 32;

pub const RETRANSMITTED: u8 = 16;

// AVP flags (01, AVP): V, M and P. The five bits below them are reserved and clear.
pub const VENDOR: u8 = 128;

pub const MANDATORY: u8 = 64;

pub const PROTECTED: u8 = 32;
