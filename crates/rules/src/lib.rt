// The terms of document 01 as types: what a command is read into, and what comes back. No function stands here; the
// rules are in specs/, in the order of document 01, and the laws that the proofs above cite in proofs/.
#![tactic(auto)]

pub mod flags;
pub mod limits;

// What comes back for a command (01, What comes back): the number, 0 where it is accepted, the place, and the Vendor-Id
// and code of the AVP at fault. The number is one of 01's, which each definition of a check names in its answer
// (`refused 5008 ..`), the C interface gives, and `avp::refusal` takes whatever it is: an enum would be turned into it
// at once.
#[repr(C)]
#[derive(Clone, Copy, Debug, Default, PartialEq, Eq)]
pub struct Verdict {
    pub number: u32,
    pub place: u32,
    pub vendor: u32,
    pub code: u32,
}

// What some of the checks say of a command: that it passes, or the refusal.
pub type Outcome = Result<(), Verdict>;

// An AVP of the record: depth (1 in the command's own list), name, the flags M and P, and its data. Vendor and code are
// two fields, as `Verdict` and the C interface have them.
#[derive(Clone, Copy, Debug, Default, PartialEq, Eq)]
pub struct Avp {
    pub depth: u32,
    pub vendor: u32,
    pub code: u32,
    pub m: bool,
    pub p: bool,
    pub start: u32,
    pub length: u32,
}

// The record of a command: command flags, identifiers, and room for 256 AVPs, of which `count` are used. Memory is
// fixed: 01 asks for this room.
#[derive(Clone, Copy, Debug, PartialEq, Eq)]
pub struct Record {
    pub r: bool,
    pub p: bool,
    pub e: bool,
    pub t: bool,
    pub hop_by_hop: u32,
    pub end_to_end: u32,
    pub count: u32,
    pub avps: [Avp; limits::MOST_AVPS],
}

// What reading a command gives. It is no Result: 01 gives the empty record with every refusal (`reading`).
#[derive(Clone, Copy, Debug, PartialEq, Eq)]
pub struct Reading {
    pub verdict: Verdict,
    pub record: Record,
}

// What writing a draft gives: the verdict, and how many octets were written, none with a refusal. It is no Result: it
// crosses the C interface.
#[repr(C)]
#[derive(Clone, Copy, Debug, PartialEq, Eq)]
pub struct Written {
    pub verdict: Verdict,
    pub length: u32,
}

// The answer of a search for the nth AVP at depth 1 with a vendor and code (02, [9]): what it finds, and how many of
// them there are, which is told with none too.
#[derive(Clone, Copy, Debug, PartialEq, Eq)]
pub struct Sought {
    pub found: Option<usize>,
    pub number: usize,
}

// The lists that have rows: the request, the answer, each grouped AVP that is read, and the answer with E (02, [1]).
#[derive(Clone, Copy, Debug, PartialEq, Eq)]
pub enum Grammar {
    Request,
    Answer,
    VendorSpecificApplicationId,
    ExperimentalResult,
    ProxyInfo,
    SupportedFeatures,
    TimeWindow,
    TransferPolicy,
    ErrorAnswer,
}

// The exchange rules that apply to a command: those of a request or of an answer, each with the window rule; or the
// window rule alone (02, [1]).
#[derive(Clone, Copy, Debug, PartialEq, Eq)]
pub enum ExchangeRules {
    OfRequest,
    OfAnswer,
    WindowsAlone,
}

// What a command is judged by, chosen from its header: the rows of its own list, and the exchange rules.
#[derive(Clone, Copy, Debug, PartialEq, Eq)]
pub struct CommandRules {
    pub rows: Grammar,
    pub exchange: ExchangeRules,
}

// The form of an AVP's data: of any length, of a fixed width, or a list of AVPs that is read.
#[derive(Clone, Copy, Debug, PartialEq, Eq)]
pub enum Form {
    Any,
    Fixed(u32),
    Group(Grammar),
}

// An entry of the dictionary: the name, whether M must be set, and the form of the data.
#[derive(Clone, Copy, Debug, PartialEq, Eq)]
pub struct Entry {
    pub vendor: u32,
    pub code: u32,
    pub m: bool,
    pub form: Form,
}

// The mark of a row: ! first and once, 1 once, ? at most once, * any number; and that of request [1], at most once and
// first if present.
#[derive(Clone, Copy, Debug, PartialEq, Eq)]
pub enum Mark {
    First,
    FirstIfPresent,
    Once,
    AtMostOnce,
    AnyNumber,
}

// The row that admits a name in a list: its position among the rows, and its mark.
#[derive(Clone, Copy, Debug, PartialEq, Eq)]
pub struct Admission {
    pub row: usize,
    pub mark: Mark,
}
