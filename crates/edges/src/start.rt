// What a command starts with, in the notation: the header of H (01, The book and its listing) with its length still to
// come, with the flags of a BTR, of a BTA or of an answer with E, and none or some of the AVPs of S (01, Commands at
// the edges).

// Up to 20: no AVP.
pub(crate) const REQUEST: &str = "#01000000C0800073010000840000000100000002";

pub(crate) const ANSWER: &str = "#0100000040800073010000840000000100000002";

pub(crate) const ERROR_ANSWER: &str = "#0100000060800073010000840000000100000002";

// Up to 100: 263, 260, 277, 264, 296 and 283.
pub(crate) const BEGUN_REQUEST: &str =
    "#01000000C0800073010000840000000100000002 M263:73 M260(M266=10415) M277=1 M264:6F M296:72 M283:64";

// Up to 88: 263, 260, 277, 264 and 296, the rows of BTA that are marked ! and 1.
pub(crate) const BEGUN_ANSWER: &str =
    "#0100000040800073010000840000000100000002 M263:73 M260(M266=10415) M277=1 M264:6F M296:72";

// Up to 160: the whole of S.
pub(crate) const S: &str =
    "#01000000C0800073010000840000000100000002 M263:73 M260(M266=10415) M277=1 M264:6F M296:72 M283:64 VM4203=1 M293:68 VM4202:72 VM4208=1";
