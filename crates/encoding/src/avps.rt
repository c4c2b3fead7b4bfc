// The AVPs of a draft, put one after the other behind the command's header.
ghost use Rattle.std.specs.Prelude.{◌≡◌, List, ℕ, ◌+◌, ◌≤◌, length};
ghost use Rattle.std.proofs.lemmas.List.Edits.{sets};
ghost use Rattle.rules.specs.Header.{header_size};
ghost use Rattle.rules.specs.Wire.{avp_header, avp_octets};
ghost use Rattle.draft.specs.Drafts.{draft_cell, header_for};
ghost use Rattle.encoding.specs.Promise.{IsPut, CanPut, CanPutAll, numbered_list};

use crate::flags;
use numbers::Numbers;
use rules::{Avp, limits};

// An AVP's header, with the vendor where it is not 0: that case puts more, so each has its size here. Output and place
// are two arguments and the place behind comes back: `IsPut` speaks of each.
fn put_header(out: &mut [u8], at: usize, a: Avp) -> usize
    requires { at + header_for a ≤ length out.old }
    ensures { (s : List ℕ) → IsPut out.old at (avp_header (draft_cell s a)) out.new result }
{
    output::put_number4(out, at, a.code);
    out[at + 4] = flags::avp_flags(a);
    if a.vendor == limits::NO_VENDOR {
        output::put_number3(out, at + 5, limits::AVP_HEADER_SIZE + a.length as usize);
        return at + limits::AVP_HEADER_SIZE;
    }
    output::put_number3(
        out,
        at + 5,
        limits::AVP_HEADER_SIZE_WITH_VENDOR + a.length as usize,
    );
    output::put_number4(out, at + limits::AVP_HEADER_SIZE, a.vendor);
    at + limits::AVP_HEADER_SIZE_WITH_VENDOR
}

// An AVP, with padding of zeros; of a read group its header, the members follow.
fn put_avp(out: &mut [u8], at: usize, a: Avp, s: &[u8]) -> usize
    requires { CanPut out.old at a s.now }
    ensures { IsPut out.old at (avp_octets (draft_cell s.now a)) out.new result }
{
    let data = put_header(out, at, a);
    if dictionary::is_read_group(a.vendor, a.code) {
        return data;
    }
    let start = a.start as usize;
    let length = a.length as usize;
    output::put_octets(out, data, &s[start..start + length]);
    let padded = octets::padded_length(a.length);
    output::put_zeros(out, data + length, padded - length);
    data + padded
}

pub(crate) fn put_list(out: &mut [u8], numbers: &Numbers, s: &[u8])
    requires { CanPutAll out.old numbers.now s.now }
    ensures { out.new ≡ sets out.old header_size (numbered_list numbers.now s.now) }
{
    let mut at = limits::HEADER_SIZE;
    for position in 0..numbers::used(numbers) {
        at = put_avp(out, at, numbers::get(numbers, position), s);
    }
}
