// The octets of a draft's command, in an array that has room for the longest. The writer's own refusals, 7006, 7001 and
// 7004, come first; the reader is not asked here.
#![tactic(auto)]

ghost use Rattle.std.specs.Prelude.{◌≡◌};
ghost use Rattle.std.proofs.lemmas.List.Edits.{sets};
ghost use Rattle.rules.specs.Verdict.{verdict};
ghost use Rattle.numbers.specs.Draft.{numbered_draft};
ghost use Rattle.encoding.specs.Encoding.{IsEncoded};
ghost use Rattle.encoding.specs.Promise.{CanPutCommand, numbered_command};

use numbers::Numbers;
use rules::{Verdict, limits};

mod avps;
mod flags;
mod header;

// A refusal of the writer's own: place, vendor and code are 0. Written out: no longer than a call with three zeros.
fn refusal(number: u32) -> Verdict
    ensures { result ≡ verdict number 0 0 0 }
{
    Verdict {
        number,
        ..Verdict::default()
    }
}

// The command of a draft, of this size.
fn put_command(out: &mut [u8], numbers: &Numbers, s: &[u8], size: usize)
    requires { CanPutCommand out.old numbers.now s.now size }
    ensures { out.new ≡ sets out.old 0 (numbered_command numbers.now s.now) }
{
    header::put_start(out, numbers, size);
    header::put_identifiers(out, numbers);
    avps::put_list(out, numbers, s);
}

// The draft of numbers and octets, encoded for an output of this room: how many octets its command has, which then
// stand at the start of the array; or the writer's own refusal, and the array stays as it was.
pub fn encode(
    numbers: &Numbers,
    s: &[u8],
    room: usize,
    command: &mut [u8; limits::LONGEST_COMMAND],
) -> Result<usize, Verdict>
    ensures { IsEncoded (numbered_draft numbers.now s.now) room command.old result command.new }
{
    if !draft::is_well_formed(numbers, s) {
        return Err(refusal(7006));
    }
    let size = draft::command_size(numbers);
    if size > limits::LONGEST_COMMAND {
        return Err(refusal(7001));
    }
    if size > room {
        return Err(refusal(7004));
    }
    put_command(command, numbers, s, size);
    Ok(size)
}
