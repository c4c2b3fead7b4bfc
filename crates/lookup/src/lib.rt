// 01, The record: what is looked up in a record, the data of a position and, with 02 [9], the nth AVP at depth 1 with a
// vendor and code. A search goes over the record's numbers: a record is laid out as numbers first.
#![tactic(auto)]

ghost use Rattle.std.specs.Prelude.{◌≡◌, ◌+◌, ◌<◌, length};
ghost use Rattle.rules.specs.Walk.{most_avps};
ghost use Rattle.rules.specs.Search.{is_at};
ghost use Rattle.rules.specs.Record.{data_start, data_at};
ghost use Rattle.numbers.specs.Numbers.{numbered_record};
ghost use Rattle.lookup.specs.Promise.{SoughtNext, IsSought};

use numbers::Numbers;
use rules::{Avp, Record, Sought, limits};

// What a search looks for: an AVP at depth 1 with a vendor and code.
fn matches(a: Avp, vendor: u32, code: u32) -> bool
    ensures { result ≡ is_at a 1 vendor code }
{
    a.depth == 1 && avp::is_named(a, vendor, code)
}

// The data of the AVP at a position, as that part of the slice; the empty part at its start where the position is
// unused or the part does not lie in the slice.
pub fn data<'a>(record: Record, position: usize, s: &'a [u8]) -> &'a [u8]
    ensures block { result.ref_ptr.0 ≡ s.entry.ref_ptr.0 }
    ensures place { result.ref_ptr.1 ≡ data_start «record» position (length s.now) + s.entry.ref_ptr.1 }
    ensures octets { result.now ≡ data_at «record» position s.now }
{
    let nothing = &s[..0];
    if position >= limits::MOST_AVPS.min(record.count as usize) {
        return nothing;
    }
    let a = record.avps[position];
    let start = a.start as usize;
    let end = start + a.length as usize;
    // What may not change, `block` and `place`, asks where the part lies: `s.get(start..end)` says only what it holds.
    if end > s.len() {
        return nothing;
    }
    &s[start..end]
}

// What a search gives that has looked at some AVPs, once it looks at the next one too.
fn with_next(
    before: Sought,
    a: Avp,
    position: usize,
    vendor: u32,
    code: u32,
    ordinal: usize,
) -> Sought
    requires { before.number < most_avps }
    ensures { SoughtNext before a position vendor code ordinal result }
{
    if matches(a, vendor, code) {
        let so_far = before.number;
        let number = so_far + 1;
        if so_far == ordinal {
            let found = Some(position);
            return Sought { found, number };
        }
        let found = before.found;
        return Sought { found, number };
    }
    before
}

// The AVP at depth 1 with a vendor and code that has as many of them before it as the ordinal says, and how many there
// are, in the record that the numbers stand for.
pub fn search_numbers(numbers: &Numbers, vendor: u32, code: u32, ordinal: usize) -> Sought
    ensures { IsSought (numbered_record numbers.now) vendor code ordinal result }
{
    let mut sought = Sought {
        found: None,
        number: 0,
    };
    for position in 0..numbers::used(numbers) {
        let a = numbers::get(numbers, position);
        // Most AVPs have another code: so each of them takes one test. With the three of `matches` for each the compiler
        // does the counting for them too.
        if a.code == code {
            sought = with_next(sought, a, position, vendor, code, ordinal);
        }
    }
    sought
}

// The same in a record. Both stand, since both are promised.
pub fn search(record: Record, vendor: u32, code: u32, ordinal: usize) -> Sought
    ensures { IsSought «record» vendor code ordinal result }
{
    let mut numbers = [0u32; limits::RECORD_NUMBERS];
    numbers::put(&mut numbers, record);
    search_numbers(&numbers, vendor, code, ordinal)
}
