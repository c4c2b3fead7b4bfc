// A record as numbers in a lent array, its form in the C interface: written whole, also straight from a command and its
// log, and read place by place, so that no record is made to write a command's numbers or to read one AVP.
#![tactic(auto)]

ghost use Rattle.std.specs.Prelude.{◌≡◌, [], ◌-◌, ◌<◌, min, length};
ghost use Rattle.std.proofs.lemmas.List.Edits.{sets};
ghost use Rattle.rules.specs.Header.{command_flags};
ghost use Rattle.rules.specs.Search.{blank};
ghost use Rattle.rules.specs.Walk.{most_avps};
ghost use Rattle.rules.specs.Record.{record_of, empty_record};
ghost use Rattle.walk_log.specs.Log.{avps_in};
ghost use Rattle.numbers.specs.Numbers.{head_of, head_numbers, avp_numbers, numbers_of};
ghost use Rattle.numbers.specs.Numbers.{numbered_place, numbered_avp, numbered_count, numbered_head};
ghost use Rattle.numbers.specs.Flags.{head_flags_fit, avp_flags_fit, flags_fit};

use octets::has_flag;
use rules::{Avp, Record, flags, limits};
use walk_log::Log;

// The C interface spells this type out.
pub type Numbers = [u32; limits::RECORD_NUMBERS];

// The command's part of a record: its flags and identifiers. A Record has these fields itself, since README and
// `record_of` (rules/specs/Record) name them.
#[derive(Clone, Copy, Debug, PartialEq, Eq)]
pub struct Head {
    pub r: bool,
    pub p: bool,
    pub e: bool,
    pub t: bool,
    pub hop_by_hop: u32,
    pub end_to_end: u32,
}

// Where the count stands, and the numbers of an AVP behind its first, the depth.
const COUNT: usize = 6;

const VENDOR: usize = 1;

const CODE: usize = 2;

const M: usize = 3;

const P: usize = 4;

const START: usize = 5;

const LENGTH: usize = 6;

fn put_head(numbers: &mut Numbers, head: Head, count: u32)
    ensures { numbers.new ≡ sets numbers.old 0 (head_numbers head count) }
{
    numbers[..limits::HEAD_NUMBERS].copy_from_slice(&[
        u32::from(head.r),
        u32::from(head.p),
        u32::from(head.e),
        u32::from(head.t),
        head.hop_by_hop,
        head.end_to_end,
        count,
    ]);
}

// The C interface has the length in the last place. Stored number by number: as one part by `copy_from_slice` it was
// tried, and slower by 48 instructions an AVP. Each position comes from a `for`: a type for one below 256 would be made
// and taken apart at each call.
fn put_avp(numbers: &mut Numbers, position: usize, a: Avp)
    requires { position < most_avps }
    ensures { numbers.new ≡ sets numbers.old (numbered_place position) (avp_numbers a) }
{
    let at = position * limits::AVP_NUMBERS + limits::HEAD_NUMBERS;
    numbers[at] = a.depth;
    numbers[at + VENDOR] = a.vendor;
    numbers[at + CODE] = a.code;
    numbers[at + M] = u32::from(a.m);
    numbers[at + P] = u32::from(a.p);
    numbers[at + START] = a.start;
    numbers[at + LENGTH] = a.length;
}

// The numbers of a record.
pub fn put(numbers: &mut Numbers, record: Record)
    ensures { numbers.new ≡ numbers_of «record» }
{
    let head = Head {
        r: record.r,
        p: record.p,
        e: record.e,
        t: record.t,
        hop_by_hop: record.hop_by_hop,
        end_to_end: record.end_to_end,
    };
    put_head(numbers, head, record.count);
    for (position, &a) in record.avps.iter().enumerate() {
        put_avp(numbers, position, a);
    }
}

// The flags of a command, 0 where the octets end before them.
fn flags_of(s: &[u8]) -> u8
    ensures { result ≡ command_flags s.now }
{
    s.get(4).copied().unwrap_or(0)
}

// The command's part of its record, whatever AVPs it has.
fn head_in(s: &[u8]) -> Head
    ensures { result ≡ head_of (record_of s.now []) }
{
    let flags = flags_of(s);
    Head {
        r: has_flag(flags, flags::REQUEST),
        p: has_flag(flags, flags::PROXIABLE),
        e: has_flag(flags, flags::ERROR),
        t: has_flag(flags, flags::RETRANSMITTED),
        hop_by_hop: octets::number4(s, 12),
        end_to_end: octets::number4(s, 16),
    }
}

// The record of a command whose AVPs stand in a log; a count above 256 is read as 256. No record is made on the way.
pub fn put_command(numbers: &mut Numbers, s: &[u8], log: &Log, count: usize)
    ensures { numbers.new ≡ numbers_of (record_of s.now (avps_in log.now count)) }
{
    let used = walk_log::used(count);
    put_empty(numbers);
    put_head(numbers, head_in(s), used as u32);
    for position in 0..used {
        put_avp(numbers, position, walk_log::get(log, position));
    }
}

// The empty record.
pub fn put_empty(numbers: &mut Numbers)
    ensures { numbers.new ≡ numbers_of empty_record }
{
    numbers.fill(0);
}

// The count as it stands.
pub fn count(numbers: &Numbers) -> usize
    ensures { result ≡ numbered_count numbers.now }
{
    numbers[COUNT] as usize
}

// How many positions are used; a count above 256 is read as 256.
pub fn used(numbers: &Numbers) -> usize
    ensures { result ≡ min (numbered_count numbers.now) most_avps }
{
    walk_log::used(count(numbers))
}

// The AVP at a position, the blank one from 256 on.
pub fn get(numbers: &Numbers, position: usize) -> Avp
    ensures { result ≡ numbered_avp numbers.now position }
{
    if position >= limits::MOST_AVPS {
        return Avp::default();
    }
    let at = position * limits::AVP_NUMBERS + limits::HEAD_NUMBERS;
    let &[depth, vendor, code, m, p, start, length] = &numbers[at..at + limits::AVP_NUMBERS] else {
        unreachable!()
    };
    Avp {
        depth,
        vendor,
        code,
        m: m == 1,
        p: p == 1,
        start,
        length,
    }
}

// The command's flags and identifiers.
#[tactic(auto, unfolding(crate::specs::Numbers::numbered_record))]
pub fn head_of(numbers: &Numbers) -> Head
    ensures { result ≡ numbered_head numbers.now }
{
    let &[r, p, e, t, hop_by_hop, end_to_end, ..] = numbers;
    Head {
        r: r == 1,
        p: p == 1,
        e: e == 1,
        t: t == 1,
        hop_by_hop,
        end_to_end,
    }
}

#[tactic(auto, unfolding(crate::specs::Flags::head_flags_fit))]
fn head_flags_fit(numbers: &Numbers) -> bool
    ensures { result ≡ head_flags_fit numbers.now }
{
    let &[r, p, e, t, ..] = numbers;
    r <= 1 && p <= 1 && e <= 1 && t <= 1
}

#[tactic(auto, unfolding(crate::specs::Flags::avp_flags_fit))]
fn avp_flags_fit(numbers: &Numbers, position: usize) -> bool
    requires { position < most_avps }
    ensures { result ≡ avp_flags_fit numbers.now position }
{
    let at = position * limits::AVP_NUMBERS + limits::HEAD_NUMBERS;
    numbers[at + M] <= 1 && numbers[at + P] <= 1
}

// Whether each flag is 0 or 1.
pub fn flags_fit(numbers: &Numbers) -> bool
    ensures { result ≡ flags_fit numbers.now }
{
    head_flags_fit(numbers)
        && (0..limits::MOST_AVPS).all(|position| avp_flags_fit(numbers, position))
}
