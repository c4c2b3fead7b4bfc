// A list of a command as the exchange rules read it: searches for the first AVP of a kind by the positions that the row
// checks kept, and what is read at a position that was found.
ghost use Rattle.std.specs.Prelude.{◌≡◌, ◌≤◌, ◌<◌, min};
ghost use Rattle.rules.specs.Octets.{number_at};
ghost use Rattle.rules.specs.Search.{avp_in};
ghost use Rattle.rules.specs.Verdict.{refused};
ghost use Rattle.rules.specs.Exchange.{require as require_in};
ghost use Rattle.rules.specs.Walk.{most_avps};
ghost use Rattle.walk_log.specs.Log.{avps_in};
ghost use Rattle.rules.specs.Dictionary.{dictionary};
ghost use Rattle.dictionary.specs.Entries.{vendor_of, code_of};
ghost use Rattle.exchange.specs.Positions.{IsFoundAmong};
ghost use Rattle.exchange.specs.Firsts.{find_in};

use avp::refusal;
use dictionary::kinds;
use rules::{Avp, Outcome};
use walk_log::Log;

// The members of a list among the AVPs of a record, by the first position of each entry; the list ends at `end`. What
// may not change: `policy_in`, `window_in` and `judge` take any positions and any count (`min count most_avps`), so a
// Members is made inside.
#[derive(Clone, Copy)]
pub(crate) struct Members<'a> {
    firsts: &'a [u16; kinds::ENTRIES],
    count: usize,
    end: u32,
    ghost in_record: { count ≤ most_avps },
}

impl<'a> Members<'a> {
    // A count above 256 is read as 256.
    pub(crate) fn new(firsts: &'a [u16; kinds::ENTRIES], count: usize, end: u32) -> Self
        ensures { (result.firsts.now ≡ firsts.now) × (result.count ≡ min count most_avps) × (result.end ≡ end) }
    {
        Members {
            firsts,
            count: walk_log::used(count),
            end,
        }
    }

    // The first AVP of an entry's kind.
    pub(crate) fn search(self, entry: u8) -> Option<usize>
        ensures { IsFoundAmong (find_in self.entry.firsts.now self.entry.count (vendor_of dictionary entry) (code_of dictionary entry)) self.entry.count result }
    {
        let firsts = self.firsts;
        let i = usize::from(*firsts.get(usize::from(entry))?);
        (i < self.count).then_some(i)
    }

    // An AVP of an entry's kind is missing. The rows of `lists` say the same of a list that has no Members yet.
    pub(crate) fn missing(self, entry: u8) -> Outcome
        ensures { result ≡ refused 5005 self.entry.end (vendor_of dictionary entry) (code_of dictionary entry) }
    {
        refusal(
            5005,
            self.end,
            dictionary::vendor_of(entry),
            dictionary::code_of(entry),
        )
    }

    // An AVP of an entry's kind that the list must have.
    pub(crate) fn require(self, entry: u8) -> Outcome
        ensures { result ≡ require_in (find_in self.entry.firsts.now self.entry.count) self.entry.end (vendor_of dictionary entry) (code_of dictionary entry) }
    {
        let Some(_) = self.search(entry) else {
            return self.missing(entry);
        };
        Ok(())
    }
}

// A list of the command `s`, whose walk is in the log.
#[derive(Clone, Copy)]
pub(crate) struct List<'a> {
    pub(crate) s: &'a [u8],
    pub(crate) log: &'a Log,
    pub(crate) members: Members<'a>,
}

impl List<'_> {
    // The AVP at a position.
    #[tactic(auto, using(walk_log::proofs::Log::avps_at_lem))]
    pub(crate) fn avp(self, i: usize) -> Avp
        requires { i < self.members.count }
        ensures { result ≡ avp_in (avps_in self.entry.log.now self.entry.members.count) i }
    {
        walk_log::get(self.log, i)
    }

    // The number in the first four octets of the data of the AVP at a position.
    pub(crate) fn number(self, i: usize) -> u32
        requires { i < self.members.count }
        ensures { result ≡ number_at 4 self.entry.s.now (avp_in (avps_in self.entry.log.now self.entry.members.count) i).start }
    {
        octets::number4(self.s, self.avp(i).start as usize)
    }
}
