// 01, Exchange rules of a request, by its Transfer-Request-Type.
#![tactic(auto, using(rules::proofs::Outcomes::or_pass, rules::proofs::Outcomes::or_assoc), unfolding(rules::specs::Dictionary::dictionary, dictionary::specs::Entries::vendor_of, dictionary::specs::Entries::code_of, rules::specs::Exchange::direction, rules::specs::Exchange::volume, rules::specs::Exchange::total_alone, rules::specs::Exchange::first_request, rules::specs::Exchange::later_request, rules::specs::Exchange::request_outcome))]

ghost use Rattle.std.specs.Prelude.{◌≡◌};
ghost use Rattle.rules.specs.Exchange.{direction as direction_of};
ghost use Rattle.rules.specs.Exchange.{first_request, later_request, by_request_type, request_outcome};
ghost use Rattle.walk_log.specs.Log.{avps_in};
ghost use Rattle.exchange.specs.Positions.{volumes as volumes_of};
ghost use Rattle.exchange.specs.Firsts.{find_in};

use crate::search::{List, Members};
use avp::member_fault;
use dictionary::kinds::{
    ApplicationServiceProviderIdentity, CcInputOctets, CcOutputOctets, CcTotalOctets,
    DestinationHost, NumberOfUes, ReferenceId, TimeWindow, TransferPolicyId, TransferRequestType,
};
use rules::Outcome;

// The volume of a direction, uplink or downlink.
fn direction(members: Members) -> Option<usize>
    ensures { result ≡ direction_of (find_in members.entry.firsts.now members.entry.count) }
{
    let Some(i) = members.search(CcInputOctets::ENTRY) else {
        return members.search(CcOutputOctets::ENTRY);
    };
    Some(i)
}

// One of three is enough; where none is there, CC-Output-Octets is missing. Request [2]: the total is not allowed
// beside a direction.
fn volumes(list: List) -> Outcome
    ensures { let m = list.entry.members in result ≡ volumes_of (find_in m.firsts.now m.count) (avps_in list.entry.log.now m.count) m.end }
{
    let members = list.members;
    let direction = direction(members);
    let Some(i) = members.search(CcTotalOctets::ENTRY) else {
        let Some(_) = direction else {
            return members.missing(CcOutputOctets::ENTRY);
        };
        return Ok(());
    };
    let Some(_) = direction else {
        return Ok(());
    };
    member_fault(5008, list.avp(i))
}

// Transfer-Request-Type 0: the first request of a transfer.
fn first_request(list: List) -> Outcome
    ensures { let m = list.entry.members in result ≡ first_request (find_in m.firsts.now m.count) (avps_in list.entry.log.now m.count) m.end }
{
    let members = list.members;
    members.require(ApplicationServiceProviderIdentity::ENTRY)?;
    volumes(list)?;
    members.require(NumberOfUes::ENTRY)?;
    members.require(TimeWindow::ENTRY)
}

// Transfer-Request-Type 1: the policy is chosen.
fn later_request(members: Members) -> Outcome
    ensures { result ≡ later_request (find_in members.entry.firsts.now members.entry.count) members.entry.end }
{
    members.require(ReferenceId::ENTRY)?;
    members.require(TransferPolicyId::ENTRY)?;
    members.require(DestinationHost::ENTRY)
}

fn by_request_type(list: List, value: u32) -> Outcome
    ensures { let m = list.entry.members in result ≡ by_request_type (find_in m.firsts.now m.count) (avps_in list.entry.log.now m.count) m.end value }
{
    match value {
        0 => first_request(list),
        1 => later_request(list.members),
        _ => Ok(()),
    }
}

pub(crate) fn request_outcome(list: List) -> Outcome
    ensures { let m = list.entry.members in result ≡ request_outcome (find_in m.firsts.now m.count) (avps_in list.entry.log.now m.count) list.entry.s.now m.end }
{
    let members = list.members;
    let Some(i) = members.search(TransferRequestType::ENTRY) else {
        return members.missing(TransferRequestType::ENTRY);
    };
    by_request_type(list, list.number(i))
}
