// 01, AVP, and Walk, check 2: the AVP at a place, if the octets left in its list hold it. Its header is read once, from
// the rest of the list.
ghost use Rattle.std.specs.Prelude.{◌≡◌, ◌^◌, ◌≤◌, ◌<◌};
ghost use Rattle.rules.specs.Avp.{avp_at};
ghost use Rattle.rules.specs.Walk.{framing};
ghost use Rattle.walk.specs.Promise.{frame_of, misfit, avp_by, next_after};

use crate::standing::Standing;
use octets::{has_flag, padded_length};
use rules::{Avp, Verdict, flags, limits};

// Where the AVP after this one stands.
pub(crate) fn next_after(a: Avp) -> usize
    ensures { result ≡ next_after a }
{
    a.start as usize + padded_length(a.length)
}

// The length field is below the header's octets, or with padding beyond what is left.
fn misfits(left: usize, header: usize, length: u32) -> bool
    ensures { result ≡ misfit left header length }
{
    (length as usize) < header || left < padded_length(length)
}

// The AVP at a place by the fields of its header.
fn avp_by(w: Standing<'_>, header: usize, vendor: u32, code: u32, flags: u8, length: u32) -> Avp
    requires { (header ≤ length) × (length < 256 ^ 3) }
    ensures { result ≡ avp_by w.entry.at w.entry.depth header vendor code flags length }
{
    Avp {
        depth: w.depth,
        vendor,
        code,
        m: has_flag(flags, flags::MANDATORY),
        p: has_flag(flags, flags::PROTECTED),
        start: (w.at + header) as u32,
        length: length - header as u32,
    }
}

// Check 2 of the AVP where a walk stands: the code is given where 8 octets are left, the vendor where V is set and 12
// are. The two sizes of a header are two paths up to their answers, which tell of vendor and code what was read so far.
pub(crate) fn framed(w: Standing<'_>) -> Result<Avp, Verdict>
    ensures { result ≡ frame_of (framing w.entry.s.now w.entry.at w.entry.end) (avp_at w.entry.s.now w.entry.at w.entry.depth) }
{
    let s = w.s;
    let rest = &s[w.at..w.end];
    let left = rest.len();
    if left < limits::AVP_HEADER_SIZE {
        return Err(w.fault(5014, 0, 0));
    }
    let code = octets::number4(rest, 0);
    let flags = rest[4];
    let length = octets::number3(rest, 5);
    if !has_flag(flags, flags::VENDOR) {
        if misfits(left, limits::AVP_HEADER_SIZE, length) {
            return Err(w.fault(5014, 0, code));
        }
        return Ok(avp_by(w, limits::AVP_HEADER_SIZE, 0, code, flags, length));
    }
    if left < limits::AVP_HEADER_SIZE_WITH_VENDOR {
        return Err(w.fault(5014, 0, code));
    }
    let vendor = octets::number4(rest, 8);
    if misfits(left, limits::AVP_HEADER_SIZE_WITH_VENDOR, length) {
        return Err(w.fault(5014, vendor, code));
    }
    Ok(avp_by(
        w,
        limits::AVP_HEADER_SIZE_WITH_VENDOR,
        vendor,
        code,
        flags,
        length,
    ))
}
