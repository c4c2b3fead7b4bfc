// The numbers of documents 01 and 02 that are not AVP codes: the Nt application and its command code, the vendors, and
// the limits. Those of a log and of a record at the boundary are this repository's own.

pub const APPLICATION_NT: u32 = 16777348;

pub const CODE_BACKGROUND_DATA_TRANSFER: u32 = 8388723;

// The vendor of an AVP whose V flag is clear, and 3GPP.
pub const NO_VENDOR: u32 = 0;

pub const VENDOR_3GPP: u32 = 10415;

pub const HEADER_SIZE: usize = 20;

pub const LONGEST_COMMAND: usize = 16384;

pub const MOST_AVPS: usize = 256;

// The octets of an AVP's header, without Vendor-Id and with it.
pub const AVP_HEADER_SIZE: usize = 8;

pub const AVP_HEADER_SIZE_WITH_VENDOR: usize = 12;

// The numbers that the log keeps of an AVP, and those of a whole log.
pub const LOGGED_NUMBERS: usize = 9;

pub const LOG_NUMBERS: usize = 2304;

// The numbers that a record has at the boundary: seven of the command, then seven of each place.
pub const HEAD_NUMBERS: usize = 7;

pub const AVP_NUMBERS: usize = 7;

pub const RECORD_NUMBERS: usize = 1799;

// The deepest that an AVP stands.
pub const DEEPEST: u32 = 4;

// A book: the octets of its head, the most that it has, and the room in which every listing fits.
pub const BOOK_HEAD: usize = 5;

pub const LONGEST_BOOK: usize = 65536;

pub const LISTING_ROOM: usize = 262144;

// The room in which every line fits, also with numbers of 64 bits.
pub const LINE_ROOM: usize = 96;

// Half of the values that a Time has (request [5]).
pub const HALF_RANGE: u32 = 2147483648;
