// The header of a draft's command, in two parts.
ghost use Rattle.std.specs.Prelude.{◌≡◌, ◌≤◌, length};
ghost use Rattle.rules.specs.Header.{header_size};
ghost use Rattle.numbers.specs.Numbers.{numbered_record};
ghost use Rattle.encoding.specs.Promise.{IsStart, identified};

use crate::flags;
use numbers::Numbers;
use rules::limits;

// Version, length, flags and command code, for a command of this size.
pub(crate) fn put_start(out: &mut [u8], numbers: &Numbers, size: usize)
    requires { header_size ≤ length out.old }
    ensures { IsStart out.old numbers.now size out.new }
{
    out[0] = 1;
    output::put_number3(out, 1, size);
    out[4] = flags::command_flags(numbers);
    output::put_number3(out, 5, limits::CODE_BACKGROUND_DATA_TRANSFER as usize);
}

// Application and identifiers, behind the start.
pub(crate) fn put_identifiers(out: &mut [u8], numbers: &Numbers)
    requires { header_size ≤ length out.old }
    ensures { out.new ≡ identified out.old (numbered_record numbers.now) }
{
    let head = numbers::head_of(numbers);
    output::put_number4(out, 8, limits::APPLICATION_NT);
    output::put_number4(out, 12, head.hop_by_hop);
    output::put_number4(out, 16, head.end_to_end);
}
