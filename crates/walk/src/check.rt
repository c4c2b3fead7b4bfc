// 01, Walk: the seven checks of an AVP. Check 2, its frame, is in frame.rt.
ghost use Rattle.std.specs.Prelude.{◌≡◌, false, ◌+◌, ◌≤◌, length};
ghost use Rattle.rules.specs.Octets.{number_at};
ghost use Rattle.rules.specs.Avp.{header_of};
ghost use Rattle.rules.specs.Dictionary.{dictionary};
ghost use Rattle.rules.specs.Walk.{wrong_flags, unsupported, wrong_width, wrong_value, too_deep, contents, checked};
ghost use Rattle.dictionary.specs.Entries.{definition_at};
ghost use Rattle.dictionary.specs.Table.{dictionary_by};
ghost use Rattle.walk.specs.Promise.{standing_of, number_by, passed_of};

use crate::frame;
use crate::standing::Standing;
use avp::is_named;
use dictionary::kinds::{AuthSessionState, TransferRequestType};
use dictionary::plain;
use octets::has_flag;
use rules::{Avp, Outcome, Verdict, flags, limits};

// An AVP that passed its checks, the number of its entry, and whether its data is read as a list.
#[derive(Clone, Copy)]
pub(crate) struct Passed {
    pub(crate) avp: Avp,
    pub(crate) entry: u8,
    pub(crate) is_group: bool,
}

// Check 3. Each check takes AVP and entry, as 01's definitions do (`wrong_flags flags a d`); Passed is made when all
// have passed.
#[tactic(auto, unfolding(rules::specs::Walk::wrong_flags))]
fn wrong_flags(flags: u8, a: Avp, entry: u8) -> bool
    ensures { result ≡ wrong_flags flags a (definition_at dictionary entry) }
{
    flags % 32 != 0
        || has_flag(flags, flags::VENDOR) && a.vendor == limits::NO_VENDOR
        || dictionary::requires_m(entry) && !a.m
}

// Check 4.
#[tactic(auto, unfolding(rules::specs::Walk::unsupported))]
fn unsupported_name(a: Avp, entry: u8) -> bool
    ensures { result ≡ unsupported a (definition_at dictionary entry) }
{
    !dictionary::is_known(entry) && a.m
}

// Check 5.
#[tactic(auto, unfolding(rules::specs::Walk::wrong_width))]
fn wrong_width(a: Avp, entry: u8) -> bool
    ensures { result ≡ wrong_width a (definition_at dictionary entry) }
{
    let width = dictionary::width(entry);
    width != 0 && a.length != width
}

// Check 6, by the value of the AVP's first four octets.
#[tactic(auto, unfolding(rules::specs::Walk::wrong_value))]
fn wrong_value(s: &[u8], a: Avp) -> bool
    ensures { result ≡ wrong_value a (number_at 4 s.now a.start) }
{
    let start = a.start as usize;
    if is_named(a, AuthSessionState::VENDOR, AuthSessionState::CODE) {
        octets::number4(s, start) != 1
    } else if is_named(a, TransferRequestType::VENDOR, TransferRequestType::CODE) {
        let n = octets::number4(s, start);
        n != 0 && n != 1
    } else {
        false
    }
}

// Check 7.
#[tactic(auto, unfolding(rules::specs::Walk::too_deep))]
fn too_deep(a: Avp, entry: u8) -> bool
    ensures { result ≡ too_deep a (definition_at dictionary entry) }
{
    dictionary::is_group(entry) && limits::DEEPEST <= a.depth
}

// Checks 3 to 7 of the AVP where a walk stands, with the entry of its name.
#[tactic(auto, unfolding(rules::specs::Walk::contents))]
fn content(w: Standing<'_>, a: Avp, entry: u8) -> Outcome
    requires { w.at + header_of false ≤ length w.s.now }
    ensures { result ≡ contents w.entry.s.now w.entry.at a (definition_at dictionary entry) }
{
    let s = w.s;
    let number = if wrong_flags(s[w.at + 4], a, entry) {
        3009
    } else if unsupported_name(a, entry) {
        5001
    } else if wrong_width(a, entry) {
        5014
    } else if wrong_value(s, a) {
        5004
    } else if too_deep(a, entry) {
        7003
    } else {
        return Ok(());
    };
    Err(w.fault(number, a.vendor, a.code))
}

// The seven checks of the AVP where a walk stands, by a table of plain codes, which leads to the entry.
#[tactic(auto, unfolding(rules::specs::Walk::checked))]
pub(crate) fn check(w: Standing<'_>, table: &[u8; plain::PLAIN_CODES]) -> Result<Passed, Verdict>
    ensures { result ≡ passed_of (number_by table.now) (checked (dictionary_by table.now) w.entry.s.now (standing_of w.entry)) }
{
    if limits::MOST_AVPS <= w.count {
        return Err(w.fault(7002, 0, 0));
    }
    let a = frame::framed(w)?;
    let entry = dictionary::entry_by(table, a.vendor, a.code);
    content(w, a, entry)?;
    let is_group = dictionary::is_group(entry);
    Ok(Passed {
        avp: a,
        entry,
        is_group,
    })
}
