// Time values (request [5]): their order across 7 February 2036, and the number of seconds from one to another.
#![tactic(auto)]

ghost use Rattle.std.specs.Prelude.{◌≡◌};
ghost use Rattle.rules.specs.Times.{moment, is_before, seconds};

use rules::limits;

// The moment that a Time says.
#[tactic(auto, unfolding(rules::specs::Times::moment))]
fn moment(time: u32) -> u32
    ensures { result ≡ moment time }
{
    time.wrapping_add(limits::HALF_RANGE)
}

// The order of two times.
#[tactic(auto, unfolding(rules::specs::Times::is_before))]
pub fn is_before(start: u32, end: u32) -> bool
    ensures { result ≡ is_before start end }
{
    moment(start) < moment(end)
}

// The signed number of seconds from start to end.
#[tactic(auto, unfolding(rules::specs::Times::seconds))]
pub fn seconds(start: u32, end: u32) -> i64
    ensures { result ≡ seconds start end }
{
    i64::from(moment(end)) - i64::from(moment(start))
}
