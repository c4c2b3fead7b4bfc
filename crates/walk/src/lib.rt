// 01, Order of checks, Walk: the AVPs of a command in walk order, written into a lent log, or the first fault. The list
// walk and the AVP walk call each other; the depth that is left falls at each group.
#![tactic(auto)]

ghost use Rattle.std.specs.Prelude.{◌≡◌};
ghost use Rattle.dictionary.specs.Table.{dictionary_by};
ghost use Rattle.walk.specs.Promise.{number_by, standing_of, met_in, AvpWalked, ListWalked, CommandWalked};

use crate::standing::Standing;
use dictionary::plain;
use rules::{Verdict, limits};
use walk_log::Log;

mod check;
mod frame;
mod standing;

// The fault at which a walk stopped, and how many AVPs stand in the log by then.
#[derive(Clone, Copy, Debug, PartialEq, Eq)]
pub struct Stopped {
    pub count: usize,
    pub verdict: Verdict,
}

// How many AVPs stand in the log after a walk: a method of Result gives the one or the other, not the count of both.
fn met_in(walk: Result<usize, Stopped>) -> usize
    ensures { result ≡ met_in walk }
{
    match walk {
        Ok(count) => count,
        Err(stopped) => stopped.count,
    }
}

// One AVP where a walk stands; then the walk stands behind it. The log is no field of a Standing, which is copied, as a
// `&mut` is not; nor is the table, which the checks alone read and each field is carried through the list walk's loop.
#[cycle(walk_avp_walk_list)]
fn walk_avp<'a>(
    w: Standing<'a>,
    table: &[u8; plain::PLAIN_CODES],
    log: &mut Log,
) -> Result<Standing<'a>, Stopped>
    ensures { AvpWalked (dictionary_by table.now) (number_by table.now) w.entry.s.now (standing_of w.entry) log.old result log.new }
{
    // A fault that carries the count from where it is found, so that `?` does here too, was tried, and slower by 11
    // instructions an AVP. With `map_err(|verdict| Stopped { .. })?` the proof did not close.
    let passed = match check::check(w, table) {
        Ok(passed) => passed,
        Err(verdict) => return Err(Stopped {
            count: w.count,
            verdict,
        }),
    };
    let a = passed.avp;
    let next = frame::next_after(a);
    walk_log::put(log, w.count, a);
    if !passed.is_group {
        walk_log::put_family(log, w.count, passed.entry, w.count + 1);
        return Ok(w.behind(next, w.count + 1));
    }
    let start = a.start as usize;
    let list = Standing {
        s: w.s,
        at: start,
        end: start + a.length as usize,
        depth: w.depth + 1,
        count: w.count + 1,
    };
    let members = walk_list(list, table, log);
    walk_log::put_family(log, w.count, passed.entry, met_in(members));
    Ok(w.behind(next, members?))
}

// The AVPs from where a walk stands to the end of its list.
#[cycle(walk_avp_walk_list)]
fn walk_list(
    w: Standing<'_>,
    table: &[u8; plain::PLAIN_CODES],
    log: &mut Log,
) -> Result<usize, Stopped>
    ensures { ListWalked (dictionary_by table.now) (number_by table.now) w.entry.s.now (standing_of w.entry) log.old result log.new }
{
    let mut here = w;
    while here.at < here.end {
        here = walk_avp(here, table, log)?;
    }
    Ok(here.count)
}

// The walk of a command's own list, by a table of plain codes. A command without the octets of a header has no list;
// one that is longer than any is refused as by its header.
pub fn walk_command(
    s: &[u8],
    table: &[u8; plain::PLAIN_CODES],
    log: &mut Log,
) -> Result<usize, Stopped>
    ensures { CommandWalked (dictionary_by table.now) (number_by table.now) s.now log.old result log.new }
{
    if limits::LONGEST_COMMAND < s.len() {
        return Err(Stopped {
            count: 0,
            verdict: Verdict {
                number: 7001,
                place: 1,
                ..Verdict::default()
            },
        });
    }
    if s.len() < limits::HEADER_SIZE {
        return Ok(0);
    }
    let own = Standing {
        s,
        at: limits::HEADER_SIZE,
        end: s.len(),
        depth: 1,
        count: 0,
    };
    walk_list(own, table, log)
}
