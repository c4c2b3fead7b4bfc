// 01, Exchange rules of an answer: its result, and its transfer policies.
#![tactic(auto, unfolding(rules::specs::Dictionary::dictionary, dictionary::specs::Entries::vendor_of, dictionary::specs::Entries::code_of, rules::specs::Exchange::result_outcome, rules::specs::Exchange::policies_outcome, rules::specs::Exchange::policy_in, rules::specs::Exchange::answer_outcome))]

ghost use Rattle.std.specs.Prelude.{◌≡◌, min};
ghost use Rattle.rules.specs.Verdict.{verdict_of, Answers};
ghost use Rattle.rules.specs.Exchange.{result_outcome, policies_outcome, policy_in, answer_outcome};
ghost use Rattle.rules.specs.Walk.{most_avps};
ghost use Rattle.walk_log.specs.Log.{avps_in};
ghost use Rattle.exchange.specs.Firsts.{find_in};

use crate::search::{List, Members};
use avp::member_fault;
use dictionary::kinds;
use dictionary::kinds::{
    ExperimentalResult, PcrfAddress, RatingGroup, ReferenceId, ResultCode, TimeWindow,
};
use rules::Outcome;

// Result-Code or Experimental-Result, and not both.
fn result_outcome(list: List) -> Outcome
    ensures { let m = list.entry.members in result ≡ result_outcome (find_in m.firsts.now m.count) (avps_in list.entry.log.now m.count) m.end }
{
    let members = list.members;
    let Some(i) = members.search(ExperimentalResult::ENTRY) else {
        return members.require(ResultCode::ENTRY);
    };
    let Some(_) = members.search(ResultCode::ENTRY) else {
        return Ok(());
    };
    member_fault(5008, list.avp(i))
}

// With any policy a Reference-Id, with two or more a PCRF-Address; `number` is how many there are.
fn policies_outcome(members: Members, number: usize) -> Outcome
    ensures { result ≡ policies_outcome (find_in members.entry.firsts.now members.entry.count) members.entry.end number }
{
    if number < 1 {
        return Ok(());
    }
    members.require(ReferenceId::ENTRY)?;
    if number < 2 {
        return Ok(());
    }
    members.require(PcrfAddress::ENTRY)
}

// A transfer policy by the first positions of its members: it ends at `end`, and holds a Time-Window and a
// Rating-Group.
pub fn policy_in(firsts: &[u16; kinds::ENTRIES], count: usize, end: u32) -> Outcome
    ensures { Answers verdict_of (policy_in (find_in firsts.now (min count most_avps)) end) result }
{
    let members = Members::new(firsts, count, end);
    members.require(TimeWindow::ENTRY)?;
    members.require(RatingGroup::ENTRY)
}

// The rules of an answer; `number` is how many policies there are, `policies` what is said of each: two fields of
// `Groups`, as the definition `answer_outcome` takes them.
pub(crate) fn answer_outcome(list: List, number: usize, policies: Outcome) -> Outcome
    ensures { let m = list.entry.members in result ≡ answer_outcome (find_in m.firsts.now m.count) (avps_in list.entry.log.now m.count) m.end number policies }
{
    result_outcome(list)?;
    policies_outcome(list.members, number)?;
    policies
}
