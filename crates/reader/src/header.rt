// 01, Order of checks, Header: length and version, application and command code, command flags.
ghost use Rattle.std.specs.Prelude.{◌≡◌};
ghost use Rattle.rules.specs.Verdict.{refused};
ghost use Rattle.rules.specs.Header.{length_outcome, application_outcome, flags_outcome, header_outcome};

use octets::has_flag;
use rules::{Outcome, Verdict, flags, limits};

// A refusal at a place of the header, where no AVP is at fault. Written out: no longer than a call with two zeros.
fn refusal(number: u32, place: u32) -> Outcome
    ensures { result ≡ refused number place 0 0 }
{
    Err(Verdict {
        number,
        place,
        ..Verdict::default()
    })
}

// Length and version.
#[tactic(auto, unfolding(rules::specs::Header::length_outcome))]
fn length_outcome(s: &[u8]) -> Outcome
    ensures { result ≡ length_outcome s.now }
{
    if s.len() < limits::HEADER_SIZE {
        return refusal(5015, 0);
    }
    if s[0] != 1 {
        return refusal(5011, 0);
    }
    let length = octets::number3(s, 1) as usize;
    if length < limits::HEADER_SIZE || length % 4 != 0 || length != s.len() {
        return refusal(5015, 1);
    }
    if limits::LONGEST_COMMAND < length {
        return refusal(7001, 1);
    }
    Ok(())
}

// Application, then command code.
#[tactic(auto, unfolding(rules::specs::Header::application_outcome))]
fn application_outcome(s: &[u8]) -> Outcome
    ensures { result ≡ application_outcome s.now }
{
    if octets::number4(s, 8) != limits::APPLICATION_NT {
        return refusal(3007, 8);
    }
    if octets::number3(s, 5) != limits::CODE_BACKGROUND_DATA_TRANSFER {
        return refusal(3001, 5);
    }
    Ok(())
}

// R and E both set, or P clear; in an answer with E, P may be clear (02, [1]).
#[tactic(auto, unfolding(rules::specs::Header::flags_outcome))]
fn flags_outcome(flags: u8) -> Outcome
    ensures { result ≡ flags_outcome flags }
{
    if has_flag(flags, flags::REQUEST) && has_flag(flags, flags::ERROR) {
        return refusal(3008, 4);
    }
    if has_flag(flags, flags::PROXIABLE) || has_flag(flags, flags::ERROR) {
        return Ok(());
    }
    refusal(3008, 4)
}

#[tactic(auto, unfolding(rules::specs::Header::header_outcome))]
pub(crate) fn header_outcome(s: &[u8]) -> Outcome
    ensures { result ≡ header_outcome s.now }
{
    length_outcome(s)?;
    application_outcome(s)?;
    flags_outcome(s[4])
}
