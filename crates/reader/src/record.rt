// 01, The record: the record of an accepted command, and the empty record.
ghost use Rattle.std.specs.Prelude.{◌≡◌, ◌≤◌, length, replicate};
ghost use Rattle.rules.specs.Search.{blank};
ghost use Rattle.rules.specs.Header.{header_size};
ghost use Rattle.rules.specs.Walk.{most_avps};
ghost use Rattle.rules.specs.Record.{in_room, record_of, empty_record};
ghost use Rattle.walk_log.specs.Log.{avps_in};

use octets::has_flag;
use rules::{Avp, Record, flags, limits};
use walk_log::Log;

// An array of 256 blank places.
fn blank_avps() -> [Avp; limits::MOST_AVPS]
    ensures { result ≡ replicate most_avps blank }
{
    [Avp::default(); limits::MOST_AVPS]
}

// The AVPs of a log in room for 256. Indexed: `iter_mut`, `enumerate` and `take` would say no more, and a proof knows
// the length alone after an adapter of `iter_mut`.
fn avps_of(log: &Log, count: usize) -> [Avp; limits::MOST_AVPS]
    requires { count ≤ most_avps }
    ensures { result ≡ in_room (avps_in log.now count) }
{
    let mut avps = blank_avps();
    for i in 0..count {
        avps[i] = walk_log::get(log, i);
    }
    avps
}

// All numbers 0, written out: std has no Default for an array of 256.
#[tactic(auto, unfolding(rules::specs::Record::empty_record))]
pub(crate) fn empty_record() -> Record
    ensures { result ≡ empty_record }
{
    Record {
        r: false,
        p: false,
        e: false,
        t: false,
        hop_by_hop: 0,
        end_to_end: 0,
        count: 0,
        avps: blank_avps(),
    }
}

// The record of a command whose AVPs stand in a log. The bound is of one call: a type for it would be made and taken
// apart there.
pub(crate) fn record_of(s: &[u8], log: &Log, count: usize) -> Record
    requires { (header_size ≤ length s.now) × (count ≤ most_avps) }
    ensures { result ≡ record_of s.now (avps_in log.now count) }
{
    let flags = s[4];
    Record {
        r: has_flag(flags, flags::REQUEST),
        p: has_flag(flags, flags::PROXIABLE),
        e: has_flag(flags, flags::ERROR),
        t: has_flag(flags, flags::RETRANSMITTED),
        hop_by_hop: octets::number4(s, 12),
        end_to_end: octets::number4(s, 16),
        count: count as u32,
        avps: avps_of(log, count),
    }
}
