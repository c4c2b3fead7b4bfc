// 01, The record and the writer: the octets that an AVP of a draft takes, and those of the members of a list.
ghost use Rattle.std.specs.Prelude.{◌≡◌, not, ◌≤◌, eqb};
ghost use Rattle.rules.specs.Avp.{header_of};
ghost use Rattle.rules.specs.Walk.{most_avps};
ghost use Rattle.draft.specs.Promise.{IsFullSize, IsMembersSize};

use numbers::Numbers;
use rules::{Avp, limits};

// V is set exactly when the vendor is not 0. Not shared with `avp` and `encoding`: that would be one more public
// promise for one test.
fn header_size(vendor: u32) -> usize
    ensures { result ≡ header_of (not (eqb vendor 0)) }
{
    if vendor == limits::NO_VENDOR {
        limits::AVP_HEADER_SIZE
    } else {
        limits::AVP_HEADER_SIZE_WITH_VENDOR
    }
}

// The octets of an AVP with its padding.
fn full_size(a: Avp) -> usize
    ensures { IsFullSize a result }
{
    header_size(a.vendor) + octets::padded_length(a.length)
}

// The octets of the members at a depth: of the AVPs from a position on those at that depth, up to the first above it.
pub(crate) fn members_size(numbers: &Numbers, from: usize, depth: usize) -> usize
    requires { from ≤ most_avps }
    ensures { IsMembersSize numbers.now from depth result }
{
    let mut size: usize = 0;
    for position in from..numbers::used(numbers) {
        let a = numbers::get(numbers, position);
        let at = a.depth as usize;
        if at < depth {
            break;
        }
        if at == depth {
            size += full_size(a);
        }
    }
    size
}
