// Commands from a link (02, [7]) over the boundary: an answer's progress is a number and a verdict.
ghost use Rattle.std.specs.Prelude.{◌≡◌};
ghost use Rattle.fragments.specs.Link.{fresh};
ghost use Rattle.boundary.specs.Links.{no_verdict, link_step, IsTaken};

use fragments::{Progress, State, Step};
use rules::{Verdict, limits};

// The progress of an answer: its numbers are of the C interface (include/talazumir.h).
const UNFINISHED: u32 = 0;

const COMMAND: u32 = 1;

const REFUSAL: u32 = 2;

// The answer to a fragment.
#[repr(C)]
#[derive(Clone, Copy, Debug, PartialEq, Eq)]
pub struct LinkStep {
    pub taken: usize,
    pub progress: u32,
    pub verdict: Verdict,
    pub state: State,
}

// The verdict of an unfinished command has the largest number, so that no caller takes it for an acceptance.
fn no_verdict() -> Verdict
    ensures { result ≡ no_verdict }
{
    Verdict {
        number: u32::MAX,
        ..Verdict::default()
    }
}

// By the cases of 02 [7] and their numbers in C.
fn numbered(step: Step) -> LinkStep
    ensures { result ≡ link_step step }
{
    let (progress, verdict) = match step.progress {
        Progress::Unfinished => (UNFINISHED, no_verdict()),
        Progress::Command(verdict) => (COMMAND, verdict),
        Progress::Refusal(verdict) => (REFUSAL, verdict),
    };
    LinkStep {
        taken: step.taken,
        progress,
        verdict,
        state: step.state,
    }
}

// The state to start with. Handing it in forgets what is held.
#[unsafe(no_mangle)]
pub extern "C" fn talazumir_link_fresh() -> State
    ensures { result ≡ fresh }
{
    fragments::fresh()
}

// Takes a fragment up to its end, the end of one whole command or a refusal.
#[unsafe(no_mangle)]
pub extern "C" fn talazumir_link_take(
    state: State,
    fragment: &[u8],
    buffer: &mut [u8],
    log: &mut [u32; limits::LOG_NUMBERS],
) -> LinkStep
    ensures { IsTaken state fragment.now buffer.old log.old result buffer.new log.new }
{
    numbered(fragments::take(state, fragment, buffer, log))
}
