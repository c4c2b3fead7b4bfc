// Big-endian numbers of 2, 3, 4 and 8 octets at a place of a slice, by one reading over the width. A number that does
// not lie whole in the slice reads as 0, so each function that reads takes any place. And a flag of an octet, and the
// length with padding.
#![tactic(auto)]

ghost use Rattle.std.specs.Prelude.{◌≡◌, ◌≤◌};
ghost use Rattle.rules.specs.Octets.{number_at, IsNumber, flag, padded, IsPadded};

// The number in the octets at a place. It is private, with a public name for each width: no public function asks
// anything of its caller, and 64 bits hold eight octets at most.
fn number_at<const WIDTH: usize>(s: &[u8], at: usize) -> u64
    requires { WIDTH ≤ 8 }
    ensures { IsNumber WIDTH (number_at WIDTH s.now at) result }
{
    if s.len() < WIDTH || s.len() - WIDTH < at {
        return 0;
    }
    let octets = &s[at..at + WIDTH];
    let mut number: u64 = 0;
    for &octet in octets {
        number = number * 256 + u64::from(octet);
    }
    number
}

pub fn number2(s: &[u8], at: usize) -> u32
    ensures { IsNumber 2 (number_at 2 s.now at) result }
{
    number_at::<2>(s, at) as u32
}

pub fn number3(s: &[u8], at: usize) -> u32
    ensures { IsNumber 3 (number_at 3 s.now at) result }
{
    number_at::<3>(s, at) as u32
}

pub fn number4(s: &[u8], at: usize) -> u32
    ensures { IsNumber 4 (number_at 4 s.now at) result }
{
    number_at::<4>(s, at) as u32
}

pub fn number8(s: &[u8], at: usize) -> u64
    ensures { IsNumber 8 (number_at 8 s.now at) result }
{
    number_at::<8>(s, at)
}

// Whether the flag of this value is set in an octet. No flag has the value 0; of a value with several bits, which is no
// flag, the clause says something else than `octet & value` does.
pub fn has_flag(octet: u8, value: u8) -> bool
    ensures { result ≡ flag value octet }
{
    value != 0 && octet / value % 2 == 1
}

// 02 [4], the padding rule of RFC 6733: the least multiple of four that is no smaller than the length, here for every
// length of 32 bits. By `next_multiple_of` it was tried, and slower by 59 instructions on a command of 11 AVPs.
pub fn padded_length(length: u32) -> usize
    ensures { (result ≡ padded length) × (result ≤ 4294967296) × IsPadded length result }
{
    (length as usize).div_ceil(4) * 4
}
