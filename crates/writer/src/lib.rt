// The writer of commands: from a draft, a record over lent octets, to a command in a lent output. A refused output
// stays as it was, so the command is first put into an array of the longest command's size, and there the reader judges
// it.
#![tactic(auto)]

ghost use Rattle.std.specs.Prelude.{length, Err};
ghost use Rattle.rules.specs.Draft.{draft_of};
ghost use Rattle.numbers.specs.Draft.{numbered_draft};
ghost use Rattle.writer.specs.Promise.{IsWritten, IsWrittenBy};

use numbers::Numbers;
use rules::{Record, Verdict, Written, limits};

// Writes the draft that the numbers and the octets stand for, and gives how many octets its command has: 7006, 7001 and
// 7004, then what the reader says of the octets; accepted, they stand at the start of the output.
fn write_octets(numbers: &Numbers, s: &[u8], out: &mut [u8]) -> Result<usize, Verdict>
    ensures { IsWrittenBy (numbered_draft numbers.now s.now) out.old result out.new }
{
    let mut command = [0; limits::LONGEST_COMMAND];
    let size = encoding::encode(numbers, s, out.len(), &mut command)?;
    let octets = &command[..size];
    let mut log = [0; limits::LOG_NUMBERS];
    reader::outcome(octets, &mut log)?;
    output::put_octets(out, 0, octets);
    Ok(size)
}

// The same with the answer of the C interface, which has a verdict and a length.
pub fn write_numbers(numbers: &Numbers, s: &[u8], out: &mut [u8]) -> Written
    ensures { IsWritten (numbered_draft numbers.now s.now) out.old result out.new }
{
    match write_octets(numbers, s, out) {
        Ok(size) => Written {
            verdict: Verdict::default(),
            length: size as u32,
        },
        Err(verdict) => Written { verdict, length: 0 },
    }
}

// Writes a draft, given as a record over octets. Both stand, since both are promised.
pub fn write(draft: Record, s: &[u8], out: &mut [u8]) -> Written
    ensures { IsWritten (draft_of draft s.now) out.old result out.new }
{
    let mut numbers = [0u32; limits::RECORD_NUMBERS];
    numbers::put(&mut numbers, draft);
    write_numbers(&numbers, s, out)
}
