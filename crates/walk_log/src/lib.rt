// The log that a walk is written into: nine numbers for each AVP in an array that the caller lends. The walk, the rows
// and the exchange rules work on it, so that no record is copied from one AVP to the next. It is a lent array of
// numbers, since a caller in C lends it.
#![tactic(auto)]

ghost use Rattle.std.specs.Prelude.{◌≡◌, ◌≤◌, min, length, MatchOption};
ghost use Rattle.rules.specs.Avp.{end_of};
ghost use Rattle.rules.specs.Walk.{most_avps};
ghost use Rattle.walk_log.specs.Log.{bit, log_numbers, put_avp, put_family, AreNumbersOf, avp_of, entry_at, after_at};

use rules::{Avp, limits};

// The numbers of a log.
pub type Log = [u32; limits::LOG_NUMBERS];

// Where the numbers of an AVP stand; `END` is that of its data.
const DEPTH: usize = 0;

const VENDOR: usize = 1;

const CODE: usize = 2;

const M: usize = 3;

const P: usize = 4;

const START: usize = 5;

const END: usize = 6;

const ENTRY: usize = 7;

const AFTER: usize = 8;

// How many numbers a log has, as its type says too.
pub fn size(log: &Log) -> usize
    ensures { (result ≡ log_numbers) × (length log.now ≡ log_numbers) }
{
    log.len()
}

// A flag as a number. Public, so kept: what it promises is `bit`.
pub fn bit_of(flag: bool) -> u32
    ensures { result ≡ bit flag }
{
    u32::from(flag)
}

// A count above 256 is read as 256.
pub fn used(count: usize) -> usize
    ensures { result ≡ min count most_avps }
{
    count.min(limits::MOST_AVPS)
}

// Keeps an AVP at a position; `put_family` keeps the rest of what stands there. A position from 256 on, or data whose
// end does not fit four octets, leaves the log as it was. It is stored number by number: as one part it was tried in
// `numbers`, and slower. The end is kept in the place of the length, since a group's list ends there (`data_end`).
#[tactic(auto, using(crate::proofs::Log::put_avp_laws))]
pub fn put(log: &mut Log, position: usize, a: Avp)
    ensures { log.new ≡ put_avp log.old position a }
{
    if limits::MOST_AVPS <= position {
        return;
    }
    let Some(end) = a.start.checked_add(a.length) else {
        return;
    };
    let at = position * limits::LOGGED_NUMBERS;
    log[at + DEPTH] = a.depth;
    log[at + VENDOR] = a.vendor;
    log[at + CODE] = a.code;
    log[at + M] = bit_of(a.m);
    log[at + P] = bit_of(a.p);
    log[at + START] = a.start;
    log[at + END] = end;
}

// Keeps of the AVP at a position the number of its entry, and the position after its last descendant. A position from
// 256 on, or one after it above 256, leaves the log as it was.
#[tactic(auto, using(crate::proofs::Log::put_family_laws))]
pub fn put_family(log: &mut Log, position: usize, entry: u8, after: usize)
    ensures { log.new ≡ put_family log.old position entry after }
{
    if limits::MOST_AVPS <= position || limits::MOST_AVPS < after {
        return;
    }
    let at = position * limits::LOGGED_NUMBERS;
    log[at + ENTRY] = u32::from(entry);
    log[at + AFTER] = after as u32;
}

// The nine numbers of the AVP at a position, none from 256 on.
fn numbers_of(log: &Log, position: usize) -> Option<&[u32; limits::LOGGED_NUMBERS]>
    ensures { MatchOption result (most_avps ≤ position) (λ numbers. AreNumbersOf log.now position numbers.now) }
{
    if limits::MOST_AVPS <= position {
        return None;
    }
    let at = position * limits::LOGGED_NUMBERS;
    log[at..at + limits::LOGGED_NUMBERS].first_chunk()
}

// The AVP at a position, the blank one from 256 on.
#[tactic(auto, using(crate::proofs::Log::avp_of_out, crate::proofs::Log::avp_told))]
pub fn get(log: &Log, position: usize) -> Avp
    ensures { result ≡ avp_of log.now position }
{
    let Some(numbers) = numbers_of(log, position) else {
        return avp::blank();
    };
    Avp {
        depth: numbers[DEPTH],
        vendor: numbers[VENDOR],
        code: numbers[CODE],
        m: numbers[M] == 1,
        p: numbers[P] == 1,
        start: numbers[START],
        length: numbers[END].saturating_sub(numbers[START]),
    }
}

// Where the data of the AVP at a position ends, 0 from 256 on.
#[tactic(auto, using(crate::proofs::Log::data_end_out, crate::proofs::Log::data_end_told))]
pub fn data_end(log: &Log, position: usize) -> u32
    ensures { result ≡ end_of (avp_of log.now position) }
{
    let Some(numbers) = numbers_of(log, position) else {
        return 0;
    };
    numbers[START].max(numbers[END])
}

// The depth of the AVP at a position, 0 from 256 on.
#[tactic(auto, using(crate::proofs::Log::depth_out, crate::proofs::Log::depth_told))]
pub fn depth_at(log: &Log, position: usize) -> u32
    ensures { result ≡ (avp_of log.now position).depth }
{
    let Some(numbers) = numbers_of(log, position) else {
        return 0;
    };
    numbers[DEPTH]
}

// What stands for the number of an entry from position 256 on, and where it is no octet; no entry has it. No Option:
// `entry_at` (specs/Log) says it of any log.
const NO_NUMBER: u8 = 255;

// The number of the entry of the AVP at a position.
#[tactic(auto, using(crate::proofs::Log::entry_at_out, crate::proofs::Log::entry_told))]
pub fn entry_at(log: &Log, position: usize) -> u8
    ensures { result ≡ entry_at log.now position }
{
    let Some(numbers) = numbers_of(log, position) else {
        return NO_NUMBER;
    };
    numbers[ENTRY].min(u32::from(NO_NUMBER)) as u8
}

// The position after the last descendant of the AVP at a position, at least the next one; 256 from 256 on.
#[tactic(auto, using(crate::proofs::Log::after_at_out, crate::proofs::Log::after_told))]
pub fn after_at(log: &Log, position: usize) -> usize
    ensures { result ≡ after_at log.now position }
{
    let Some(numbers) = numbers_of(log, position) else {
        return limits::MOST_AVPS;
    };
    (numbers[AFTER] as usize).max(position + 1)
}
