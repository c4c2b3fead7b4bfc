// Octets put into a lent output from a place on: octets as they stand, numbers of 3 and 4 octets, big-endian, and
// zeros. What has no room there leaves the output as it was, so each function takes any place.
#![tactic(auto)]

ghost use Rattle.std.specs.Prelude.{◌≡◌, ◌+◌, leb, length, replicate};
ghost use Rattle.rules.specs.Octets.{octets};
ghost use Rattle.output.specs.Output.{put_at};

// Whether so many octets have room from a place on. It is asked before a part of the output is lent, since the check
// does not know how an output ends whose part `get_mut` lent.
fn has_room(out: &[u8], at: usize, count: usize) -> bool
    ensures { result ≡ leb (at + count) (length out.now) }
{
    count <= out.len() && at <= out.len() - count
}

// Octet by octet: `copy_from_slice` between two lent slices is a call of memmove, which the archive for C would then ask
// of its callers.
pub fn put_octets(out: &mut [u8], at: usize, s: &[u8])
    ensures { out.new ≡ put_at out.old at s.now }
{
    if has_room(out, at, s.len()) {
        for i in 0..s.len() {
            out[at + i] = s[i];
        }
    }
}

// The last three octets of a number. This and the next differ in type and width; what both do, `put_octets` does.
#[tactic(auto, using(crate::proofs::Output::be_three))]
pub fn put_number3(out: &mut [u8], at: usize, n: usize)
    ensures { out.new ≡ put_at out.old at (octets 3 n) }
{
    put_octets(out, at, &n.to_be_bytes()[5..]);
}

#[tactic(auto, using(crate::proofs::Output::be_four))]
pub fn put_number4(out: &mut [u8], at: usize, n: u32)
    ensures { out.new ≡ put_at out.old at (octets 4 n) }
{
    put_octets(out, at, &n.to_be_bytes());
}

#[tactic(auto, using(crate::proofs::Output::zeros_none, crate::proofs::Output::zeros_part))]
pub fn put_zeros(out: &mut [u8], at: usize, count: usize)
    ensures { out.new ≡ put_at out.old at (replicate count 0) }
{
    if has_room(out, at, count) {
        out[at..at + count].fill(0);
    }
}
