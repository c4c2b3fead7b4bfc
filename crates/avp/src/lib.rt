// An AVP of a walk: its name, its place, and refusals at it; and the blank AVP of an unused place.
#![tactic(auto)]

ghost use Rattle.std.specs.Prelude.{◌≡◌};
ghost use Rattle.rules.specs.Verdict.{refused, verdict_of, Answers};
ghost use Rattle.rules.specs.Avp.{named, place_of};
ghost use Rattle.rules.specs.RowChecks.{member_fault};
ghost use Rattle.rules.specs.Search.{blank};

use rules::{Avp, Outcome, Verdict, limits};

// All numbers 0: an unused place of the record. Public, so kept: what it promises is `blank`.
pub fn blank() -> Avp
    ensures { result ≡ blank }
{
    Avp::default()
}

// An AVP is named by vendor and code together.
pub fn is_named(a: Avp, vendor: u32, code: u32) -> bool
    ensures { result ≡ named a vendor code }
{
    a.vendor == vendor && a.code == code
}

// The first octet of an AVP, whose V is set exactly where its vendor is not 0.
fn place_of(a: Avp) -> u32
    ensures { result ≡ place_of a }
{
    let header = if a.vendor == limits::NO_VENDOR {
        limits::AVP_HEADER_SIZE
    } else {
        limits::AVP_HEADER_SIZE_WITH_VENDOR
    };
    a.start.saturating_sub(header as u32)
}

pub fn refusal(number: u32, place: u32, vendor: u32, code: u32) -> Outcome
    ensures { Answers verdict_of (refused number place vendor code) result }
{
    Err(Verdict {
        number,
        place,
        vendor,
        code,
    })
}

// A refusal at an AVP that is there.
pub fn member_fault(number: u32, a: Avp) -> Outcome
    ensures { Answers verdict_of (member_fault number a) result }
{
    refusal(number, place_of(a), a.vendor, a.code)
}
