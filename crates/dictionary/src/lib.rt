// 01, Dictionary: the number of a name's entry, for plain codes through the constant table of request [6], for 3GPP's
// through a table of nine numbers or by a `match`; and what an entry says, from the table of entries.
#![tactic(auto)]

ghost use Rattle.std.specs.Prelude.{◌≡◌, ◌≤◌, ◌<◌};
ghost use Rattle.std.specs.List.{slice_get};
ghost use Rattle.rules.specs.Header.{vendor_3gpp};
ghost use Rattle.rules.specs.Verdict.{Answers};
ghost use Rattle.rules.specs.Dictionary.{dictionary, requires_m, is_known, members_of, is_group, fixed_width, rows_number};
ghost use Rattle.rules.specs.Meaning.{is_read_group};
ghost use Rattle.dictionary.specs.Entries.{entry_of, least_nt_code, vendor_of, code_of, definition_at};
ghost use Rattle.dictionary.specs.Table.{plain_entry, entry_by, IsTable, IsNtTable};

use rules::{Entry, Form, Grammar, limits};

pub mod kinds;
mod known;
mod nt;
pub mod plain;

// The entry with a number, none where the number is no entry's.
#[tactic(auto, using(crate::proofs::Entries::copied_is), unfolding(rules::specs::Dictionary::dictionary))]
fn entry_at(entry: u8) -> Option<Entry>
    ensures { result ≡ slice_get dictionary entry }
{
    known::ENTRIES.get(usize::from(entry)).copied()
}

// The Vendor-Id of an entry, 0 where the number is no entry's.
#[tactic(auto, using(crate::proofs::Entries::said), unfolding(crate::specs::Entries::vendor_of))]
pub fn vendor_of(entry: u8) -> u32
    ensures { result ≡ vendor_of dictionary entry }
{
    entry_at(entry).map_or(limits::NO_VENDOR, |e| e.vendor)
}

// The AVP code of an entry, 0 where the number is no entry's.
#[tactic(auto, using(crate::proofs::Entries::said), unfolding(crate::specs::Entries::code_of))]
pub fn code_of(entry: u8) -> u32
    ensures { result ≡ code_of dictionary entry }
{
    entry_at(entry).map_or(0, |e| e.code)
}

// The table of 3GPP's codes for Nt alone, which are dense. A function hands it out, since a static has no clause that
// says its rule (`IsNtTable`).
#[tactic(auto, using(crate::proofs::Table::nt_rule), unfolding(rules::specs::Dictionary::dictionary, crate::specs::Entries::number_where))]
fn nt_codes() -> &'static [u8; nt::CODES]
    ensures { IsNtTable result.now }
{
    &nt::TABLE
}

// The entry of a code that 3GPP has for Nt alone.
#[tactic(auto, unfolding(rules::specs::Dictionary::dictionary))]
fn entry_of_nt(code: u32) -> u8
    requires { least_nt_code ≤ code }
    ensures { result ≡ entry_of dictionary vendor_3gpp code }
{
    let place = (code - kinds::NetworkAreaInfoList::CODE) as usize;
    nt_codes().get(place).copied().unwrap_or(kinds::NO_ENTRY)
}

// The entry of a code that 3GPP has for other applications too, which Nt re-uses.
#[tactic(auto, unfolding(crate::specs::Entries::number_where, rules::specs::Dictionary::dictionary))]
fn entry_of_reused(code: u32) -> u8
    requires { code < least_nt_code }
    ensures { result ≡ entry_of dictionary vendor_3gpp code }
{
    match code {
        kinds::FeatureListId::CODE => kinds::FeatureListId::ENTRY,
        kinds::FeatureList::CODE => kinds::FeatureList::ENTRY,
        kinds::ApplicationServiceProviderIdentity::CODE =>
            kinds::ApplicationServiceProviderIdentity::ENTRY,
        kinds::PcrfAddress::CODE => kinds::PcrfAddress::ENTRY,
        kinds::SupportedFeatures::CODE => kinds::SupportedFeatures::ENTRY,
        kinds::MaxRequestedBandwidthDl::CODE => kinds::MaxRequestedBandwidthDl::ENTRY,
        kinds::MaxRequestedBandwidthUl::CODE => kinds::MaxRequestedBandwidthUl::ENTRY,
        _ => kinds::NO_ENTRY,
    }
}

// The search of the dictionary for a name of 3GPP.
fn entry_of_3gpp(code: u32) -> u8
    ensures { result ≡ entry_of dictionary vendor_3gpp code }
{
    if kinds::NetworkAreaInfoList::CODE <= code {
        entry_of_nt(code)
    } else {
        entry_of_reused(code)
    }
}

// The table of plain codes. A function hands it out, since a static has no clause that says its rule (`IsTable`).
pub fn plain_codes() -> &'static [u8; plain::PLAIN_CODES]
    ensures { IsTable result.now }
{
    &plain::TABLE
}

// A copy of that table.
pub fn plain_table() -> [u8; plain::PLAIN_CODES]
    ensures { IsTable result }
{
    *plain_codes()
}

// What a table leads a code without vendor to.
#[tactic(auto, using(crate::proofs::Table::plain_entry_is), unfolding(rules::specs::Dictionary::dictionary))]
fn plain_entry(table: &[u8; plain::PLAIN_CODES], code: u32) -> u8
    ensures { result ≡ plain_entry table.now code }
{
    table.get(code as usize).copied().unwrap_or(kinds::NO_ENTRY)
}

// The entry of a name by a table of plain codes: a name without vendor through the table, another as the search finds
// it; only 3GPP has entries. By the table above it is always as the search finds it.
#[tactic(auto, unfolding(crate::specs::Table::entry_by))]
pub fn entry_by(table: &[u8; plain::PLAIN_CODES], vendor: u32, code: u32) -> u8
    ensures { result ≡ entry_by table.now vendor code }
{
    match vendor {
        limits::NO_VENDOR => plain_entry(table, code),
        limits::VENDOR_3GPP => entry_of_3gpp(code),
        _ => kinds::NO_ENTRY,
    }
}

// Whether a number is an entry's.
#[tactic(auto, using(crate::proofs::Entries::said), unfolding(crate::specs::Entries::definition_at))]
pub fn is_known(entry: u8) -> bool
    ensures { result ≡ is_known (definition_at dictionary entry) }
{
    entry_at(entry).is_some()
}

// Whether M must be set.
#[tactic(auto, using(crate::proofs::Entries::said), unfolding(crate::specs::Entries::definition_at))]
pub fn requires_m(entry: u8) -> bool
    ensures { result ≡ requires_m (definition_at dictionary entry) }
{
    entry_at(entry).is_some_and(|e| e.m)
}

// The width of the data where it is fixed, 0 where any length passes.
#[tactic(auto, using(crate::proofs::Entries::said), unfolding(crate::specs::Entries::definition_at))]
pub fn width(entry: u8) -> u32
    ensures { result ≡ fixed_width (definition_at dictionary entry) }
{
    match entry_at(entry).map(|e| e.form) {
        Some(Form::Fixed(width)) => width,
        _ => 0,
    }
}

// The rows that the members of an entry's group go by.
#[tactic(auto, using(crate::proofs::Entries::said), unfolding(crate::specs::Entries::definition_at))]
pub fn members_of(entry: u8) -> Option<Grammar>
    ensures { Answers rows_number (members_of (definition_at dictionary entry)) result }
{
    match entry_at(entry)?.form {
        Form::Group(grammar) => Some(grammar),
        _ => None,
    }
}

// Whether the data is read as a list.
pub fn is_group(entry: u8) -> bool
    ensures { result ≡ is_group (definition_at dictionary entry) }
{
    members_of(entry).is_some()
}

// A name whose data is read as a list.
#[tactic(auto, using(crate::proofs::Table::table_finds, crate::proofs::Entries::found_is))]
pub fn is_read_group(vendor: u32, code: u32) -> bool
    ensures { result ≡ is_read_group dictionary vendor code }
{
    is_group(entry_by(plain_codes(), vendor, code))
}
