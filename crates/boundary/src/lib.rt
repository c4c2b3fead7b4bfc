// The boundary for C and Rust callers: the verdict, the record as numbers, the data of a position, the search, the
// writer, the canonical form, the seconds between two times, and commands from a link. The names, the numbers of a
// progress and for none, and the forms of what is handed over are the C interface (include/talazumir.h).
#![tactic(auto)]

ghost use Rattle.std.specs.Prelude.{◌≡◌};
ghost use Rattle.rules.specs.Times.{seconds};
ghost use Rattle.reader.specs.Promise.{Judged};
ghost use Rattle.numbers.specs.Draft.{numbered_draft};
ghost use Rattle.writer.specs.Promise.{IsWritten};
ghost use Rattle.canonical.specs.Promise.{IsCanonical};
ghost use Rattle.boundary.specs.Parts.{IsRead, IsData, search_numbers};

use reader::Judgement;
use rules::{Verdict, Written, limits};

mod link;

// A part of a slice, by its start and its length.
#[repr(C)]
#[derive(Clone, Copy, Debug, Default, PartialEq, Eq)]
pub struct Part {
    pub start: usize,
    pub length: usize,
}

// The answer of a search: a position, 256 for none, and how many AVPs with the vendor and code there are at depth 1.
#[repr(C)]
#[derive(Clone, Copy, Debug, PartialEq, Eq)]
pub struct SoughtNumbers {
    pub position: u32,
    pub number: u32,
}

// The verdict of a command. The lent log is scratch memory for its walk: after a refusal what it holds is no record.
#[unsafe(no_mangle)]
pub extern "C" fn talazumir_verdict(s: &[u8], log: &mut [u32; limits::LOG_NUMBERS]) -> Verdict
    ensures { Judged s.now log.old result log.new }
{
    reader::verdict(s, log)
}

// The verdict of a command, and its record as numbers, written straight from a log; all 0 with a refusal.
#[unsafe(no_mangle)]
pub extern "C" fn talazumir_read(s: &[u8], numbers: &mut [u32; limits::RECORD_NUMBERS]) -> Verdict
    ensures { IsRead s.now result numbers.new }
{
    let mut log = [0u32; limits::LOG_NUMBERS];
    let Judgement { outcome, count } = reader::judged(s, &mut log);
    match outcome {
        Ok(()) => {
            numbers::put_command(numbers, s, &log, count);
            reader::accepted()
        }
        Err(verdict) => {
            numbers::put_empty(numbers);
            verdict
        }
    }
}

// The part of a slice that is the data of the AVP at a position; the empty part at 0 where the position is unused or
// the part does not lie in the slice. By the numbers: `lookup::data` takes a record and answers with a slice, of which
// C takes start and length.
#[unsafe(no_mangle)]
pub extern "C" fn talazumir_data(
    numbers: &[u32; limits::RECORD_NUMBERS],
    position: usize,
    s: &[u8],
) -> Part
    ensures { IsData numbers.now position s.now result }
{
    let a = numbers::get(numbers, position);
    let start = a.start as usize;
    let length = a.length as usize;
    if position < numbers::used(numbers) && start + length <= s.len() {
        Part { start, length }
    } else {
        Part::default()
    }
}

// The position of the AVP at depth 1 with a vendor and code that has as many of them before it as the ordinal says, 256
// for none, and how many there are.
#[unsafe(no_mangle)]
pub extern "C" fn talazumir_search(
    numbers: &[u32; limits::RECORD_NUMBERS],
    vendor: u32,
    code: u32,
    ordinal: usize,
) -> SoughtNumbers
    ensures { result ≡ search_numbers numbers.now vendor code ordinal }
{
    let sought = lookup::search_numbers(numbers, vendor, code, ordinal);
    SoughtNumbers {
        position: sought.found.unwrap_or(limits::MOST_AVPS) as u32,
        number: sought.number as u32,
    }
}

// Writes the draft that the numbers and the octets stand for; a flag that is neither 0 nor 1 is 7006.
#[unsafe(no_mangle)]
pub extern "C" fn talazumir_write(
    numbers: &[u32; limits::RECORD_NUMBERS],
    s: &[u8],
    out: &mut [u8],
) -> Written
    ensures { IsWritten (numbered_draft numbers.now s.now) out.old result out.new }
{
    writer::write_numbers(numbers, s, out)
}

// Writes an accepted command in its canonical form.
#[unsafe(no_mangle)]
pub extern "C" fn talazumir_canonical(s: &[u8], out: &mut [u8]) -> Written
    ensures { IsCanonical s.now out.old result out.new }
{
    canonical::canonical(s, out)
}

// The signed number of seconds from one Time to another.
#[unsafe(no_mangle)]
pub extern "C" fn talazumir_seconds(start: u32, end: u32) -> i64
    ensures { result ≡ seconds start end }
{
    times::seconds(start, end)
}
