// 01, Exchange rules: those of a request, of an answer, of a transfer policy and of a time window, by the first
// position of each entry in a list, and by the number of policies. A search for an AVP is in `search`, the rules in the
// modules of their names.
#![tactic(auto)]

ghost use Rattle.std.specs.Prelude.{◌≡◌, min};
ghost use Rattle.rules.specs.Verdict.{verdict_of, Answers};
ghost use Rattle.rules.specs.Exchange.{by_command, exchange_by};
ghost use Rattle.rules.specs.Walk.{most_avps};
ghost use Rattle.walk_log.specs.Log.{avps_in};
ghost use Rattle.exchange.specs.Firsts.{find_in};

use crate::search::{List, Members};
use dictionary::kinds;
use rules::{ExchangeRules, Outcome};
use walk_log::Log;

pub mod answer;
mod request;
mod search;
pub mod window;

// What is said of a command's groups: how many transfer policies its own list has, the first fault of these, and the
// first of the time windows at any depth.
#[derive(Clone, Copy, Debug, PartialEq, Eq)]
pub struct Groups {
    pub number: usize,
    pub policies: Outcome,
    pub windows: Outcome,
}

// The rules of a request, of an answer, or none: one match of 01's cases, where closures would need a case each all the
// same.
fn by_command(rules: ExchangeRules, list: List, groups: Groups) -> Outcome
    ensures { let m = list.entry.members in result ≡ by_command (find_in m.firsts.now m.count) rules (avps_in list.entry.log.now m.count) list.entry.s.now m.end groups.number groups.policies }
{
    match rules {
        ExchangeRules::OfRequest => request::request_outcome(list),
        ExchangeRules::OfAnswer => answer::answer_outcome(list, groups.number, groups.policies),
        ExchangeRules::WindowsAlone => Ok(()),
    }
}

// What the exchange rules say of the command `s`, whose walk is in the log and whose own list ends at `end`, by the
// first position of each entry in that list, and by what is said of its groups.
#[tactic(auto, using(walk_log::proofs::Log::avps_used), unfolding(rules::specs::Exchange::exchange_by))]
pub fn judge(
    rules: ExchangeRules,
    s: &[u8],
    log: &Log,
    firsts: &[u16; kinds::ENTRIES],
    count: usize,
    end: u32,
    groups: Groups,
) -> Outcome
    ensures { Answers verdict_of (exchange_by (find_in firsts.now (min count most_avps)) rules (avps_in log.now count) s.now end groups.number groups.policies groups.windows) result }
{
    let members = Members::new(firsts, count, end);
    by_command(rules, List { s, log, members }, groups)?;
    groups.windows
}
