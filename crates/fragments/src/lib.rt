// Commands from a link (02, [7]): a reader that takes octets as they come, in fragments that end anywhere, into a
// buffer that the caller lends, and gives the reader's verdict as soon as a command is whole.
#![tactic(auto)]

ghost use Rattle.std.specs.Prelude.{◌≡◌, ◌-◌, ◌≤◌, ◌<◌, min, length};
ghost use Rattle.rules.specs.Header.{longest_command};
ghost use Rattle.fragments.specs.Link.{fresh, is_length, is_usable, length_refusal, refused_call, step_by};
ghost use Rattle.fragments.specs.Promise.{Filled, CanTake, TakenFrom, Taken};

use reader::Log;
use rules::{Verdict, limits};

// What is kept between two fragments: how many octets of a command the buffer holds from its start on, and whether the
// run has stopped. It is of the C interface: a number in place of a bool, of which every one but 0 says that it has, so
// that each state that a caller makes up has a meaning.
#[repr(C)]
#[derive(Clone, Copy, Debug, Default, PartialEq, Eq)]
pub struct State {
    pub held: u32,
    pub stopped: u32,
}

// What the octets that were taken came to: no whole command yet; a whole one, with the reader's verdict on it; or a
// refusal, of the call (7004, 7009) or of the run at the fourth octet (5015, 7001). No Result in an Option: the verdict
// of a whole command may be a refusal too, and the run goes on behind it (`step_by`).
#[derive(Clone, Copy, Debug, PartialEq, Eq)]
pub enum Progress {
    Unfinished,
    Command(Verdict),
    Refusal(Verdict),
}

// The answer to a fragment: how many of its octets were taken, what they came to, and the state to hand back.
#[derive(Clone, Copy, Debug, PartialEq, Eq)]
pub struct Step {
    pub taken: usize,
    pub progress: Progress,
    pub state: State,
}

// The octets up to the end of the length field.
const FIELD_END: usize = 4;

// The state to start with. Handing it in forgets what is held.
pub fn fresh() -> State
    ensures { result ≡ fresh }
{
    State::default()
}

#[tactic(auto, unfolding(crate::specs::Link::is_length))]
fn is_length(n: usize) -> bool
    ensures { result ≡ is_length n }
{
    (limits::HEADER_SIZE..=limits::LONGEST_COMMAND).contains(&n)
}

// Whether a state can be gone on with. Below four octets nothing in the buffer can contradict it.
#[tactic(auto, unfolding(crate::specs::Link::is_usable))]
fn is_usable(state: State, buffer: &[u8]) -> bool
    ensures { result ≡ is_usable state buffer.now }
{
    let held = state.held as usize;
    let field = octets::number3(buffer, 1) as usize;
    state.stopped == 0 && (held < FIELD_END || is_length(field) && held < field)
}

// Stores the first octets of a fragment behind those held, up to a goal, and returns how many.
fn fill(buffer: &mut [u8], held: usize, fragment: &[u8], goal: usize) -> usize
    requires { (held ≤ length buffer.old) × (goal ≤ length buffer.old) }
    ensures { Filled buffer.old held fragment.now goal result buffer.new }
{
    let count = goal.saturating_sub(held).min(fragment.len());
    output::put_octets(buffer, held, &fragment[..count]);
    count
}

// A call that is refused takes nothing and keeps the state. Verdicts are written out here: no longer than a call with
// zeros.
fn refused_call(number: u32, state: State) -> Step
    ensures { result ≡ refused_call number state }
{
    Step {
        taken: 0,
        progress: Progress::Refusal(Verdict {
            number,
            ..Verdict::default()
        }),
        state,
    }
}

// The refusal of a length field under 20 or above 16,384, at which the run stops.
fn length_refusal(length: usize) -> Verdict
    ensures { result ≡ length_refusal length }
{
    Verdict {
        number: if length < limits::HEADER_SIZE {
            5015
        } else {
            7001
        },
        place: 1,
        ..Verdict::default()
    }
}

// An answer with the state after it: the octets are held, none after a command, and a refusal stops the run.
fn step_by(taken: usize, held: usize, progress: Progress) -> Step
    requires { held < longest_command }
    ensures { result ≡ step_by taken held progress }
{
    let state = match progress {
        Progress::Unfinished => State {
            held: held as u32,
            stopped: 0,
        },
        Progress::Command(_) => fresh(),
        Progress::Refusal(_) => State {
            held: held as u32,
            stopped: 1,
        },
    };
    Step {
        taken,
        progress,
        state,
    }
}

// Octets are stored up to the fourth, where the length field stands, then up to the command's end.
fn take_octets(held: usize, fragment: &[u8], buffer: &mut [u8], log: &mut Log) -> Step
    requires { CanTake held buffer.old }
    ensures { TakenFrom held fragment.now buffer.old log.old result buffer.new log.new }
{
    let first = fill(buffer, held, fragment, FIELD_END);
    let begun = held + first;
    if begun < FIELD_END {
        return step_by(first, begun, Progress::Unfinished);
    }
    let length = octets::number3(buffer, 1) as usize;
    if !is_length(length) {
        return step_by(first, begun, Progress::Refusal(length_refusal(length)));
    }
    let taken = first + fill(buffer, begun, &fragment[first..], length);
    if held + taken < length {
        return step_by(taken, held + taken, Progress::Unfinished);
    }
    let verdict = reader::verdict(&buffer[..length], log);
    step_by(taken, 0, Progress::Command(verdict))
}

// Takes a fragment up to its end, the end of one whole command or a refusal. The command then stands at the buffer's
// start, as long as the octets held before and those taken together, where the reader's entries give its record.
pub fn take(state: State, fragment: &[u8], buffer: &mut [u8], log: &mut Log) -> Step
    ensures { Taken state fragment.now buffer.old log.old result buffer.new log.new }
{
    if buffer.len() < limits::LONGEST_COMMAND {
        return refused_call(7004, state);
    }
    if is_usable(state, buffer) {
        return take_octets(state.held as usize, fragment, buffer, log);
    }
    refused_call(7009, state)
}
