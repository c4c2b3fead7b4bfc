// The flags octets of an AVP and of a command; reserved bits are 0.
ghost use Rattle.std.specs.Prelude.{◌≡◌, List, ℕ};
ghost use Rattle.rules.specs.Wire.{avp_flags, flags_octet};
ghost use Rattle.rules.specs.Draft.{draft_of, draft_meaning};
ghost use Rattle.numbers.specs.Numbers.{numbered_record};
ghost use Rattle.draft.specs.Drafts.{draft_cell};
ghost use Rattle.encoding.specs.Promise.{IsFlag};

use numbers::Numbers;
use rules::{Avp, flags, limits};

// The value of a flag that is set.
fn flag(on: bool, value: u8) -> u8
    ensures { IsFlag on value result }
{
    if on { value } else { 0 }
}

// V, M, P; V is set exactly when the vendor is not 0.
#[tactic(auto, unfolding(rules::specs::Wire::avp_flags))]
pub(crate) fn avp_flags(a: Avp) -> u8
    ensures { (s : List ℕ) → result ≡ avp_flags (draft_cell s a) }
{
    flag(a.vendor != limits::NO_VENDOR, flags::VENDOR)
        + flag(a.m, flags::MANDATORY)
        + flag(a.p, flags::PROTECTED)
}

// R, P, E, T.
#[tactic(auto, unfolding(rules::specs::Wire::flags_octet))]
pub(crate) fn command_flags(numbers: &Numbers) -> u8
    ensures { (s : List ℕ) → result ≡ flags_octet (draft_meaning (draft_of (numbered_record numbers.now) s)) }
{
    let head = numbers::head_of(numbers);
    flag(head.r, flags::REQUEST)
        + flag(head.p, flags::PROXIABLE)
        + flag(head.e, flags::ERROR)
        + flag(head.t, flags::RETRANSMITTED)
}
