// 01, Exchange rules: a time window.
#![tactic(auto, using(walk_log::proofs::Log::avps_used), unfolding(rules::specs::Dictionary::dictionary, dictionary::specs::Entries::vendor_of, dictionary::specs::Entries::code_of, rules::specs::Exchange::window_in))]

ghost use Rattle.std.specs.Prelude.{◌≡◌, ◌<◌, min};
ghost use Rattle.rules.specs.Verdict.{verdict_of, Answers};
ghost use Rattle.rules.specs.Exchange.{times_by, window_in};
ghost use Rattle.rules.specs.Walk.{most_avps};
ghost use Rattle.walk_log.specs.Log.{avps_in};
ghost use Rattle.exchange.specs.Firsts.{find_in};

use crate::search::{List, Members};
use avp::member_fault;
use dictionary::kinds;
use dictionary::kinds::{TransferEndTime, TransferStartTime};
use rules::Outcome;
use times::is_before;
use walk_log::Log;

// A window by the positions of its start and end: the start is before the end.
fn times_by(list: List, start: usize, end: usize) -> Outcome
    requires start { start < list.members.count }
    requires end { end < list.members.count }
    ensures { result ≡ times_by (avps_in list.entry.log.now list.entry.members.count) list.entry.s.now start end }
{
    if is_before(list.number(start), list.number(end)) {
        return Ok(());
    }
    member_fault(5004, list.avp(end))
}

// A time window by the first positions of its members: it ends at `end`, and its start is before its end.
pub fn window_in(
    s: &[u8],
    log: &Log,
    firsts: &[u16; kinds::ENTRIES],
    count: usize,
    end: u32,
) -> Outcome
    ensures { Answers verdict_of (window_in (find_in firsts.now (min count most_avps)) (avps_in log.now count) s.now end) result }
{
    let members = Members::new(firsts, count, end);
    let Some(from) = members.search(TransferStartTime::ENTRY) else {
        return members.missing(TransferStartTime::ENTRY);
    };
    let Some(to) = members.search(TransferEndTime::ENTRY) else {
        return members.missing(TransferEndTime::ENTRY);
    };
    times_by(List { s, log, members }, from, to)
}
