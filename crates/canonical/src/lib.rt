// The canonical form of an accepted command, by which the lab names a state: the command's record, written over its
// octets. Two accepted commands have the same form exactly when they have the same meaning
// (rules/proofs/demands/States).
#![tactic(auto)]

ghost use Rattle.canonical.specs.Promise.{IsCanonical};

use rules::{Reading, Written};

// Writes the canonical form of a command to the start of the output. A refusal is the reader's, else 7004 where the
// output is shorter than the command; it leaves the output as it was.
pub fn canonical(s: &[u8], out: &mut [u8]) -> Written
    ensures { IsCanonical s.now out.old result out.new }
{
    let Reading { verdict, record } = reader::read(s);
    if verdict.number != 0 {
        return Written { verdict, length: 0 };
    }
    writer::write(record, s, out)
}
