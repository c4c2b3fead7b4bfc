// Prints the listing of the book on standard input (01, The book and its listing). It only moves octets: what the
// listing is, the crate `book` settles.
#![tactic(auto)]

ghost use Rattle.std.specs.Prelude.{length};
ghost use Rattle.verdicts.specs.Input.{ReadWhole, Printed};

use rules::limits;
use std::io;
use std::io::{Read, Stdin};

// What came in: this many octets of the buffer, which is no Vec since memory is fixed. What the last read gave is for
// the clause: ReadWhole says by it that the input has ended.
#[derive(Clone, Copy)]
struct Input {
    count: usize,
    last: usize,
}

// Reads until the buffer is full or a read gives nothing, which is the end of the input, in pieces of any size. A read
// that a signal broke off counts as failed. Std's `read_exact` and `read_to_end` promise nothing of what they read
// before an error.
fn read_input(mut stdin: Stdin, buffer: &mut [u8]) -> io::Result<Input>
    ensures { ReadWhole (length buffer.old) result }
{
    let mut count = 0;
    let mut last = 1;
    while count < buffer.len() {
        last = stdin.read(&mut buffer[count..])?;
        if last == 0 {
            break;
        }
        count += last;
    }
    Ok(Input { count, last })
}

// Puts what is to be printed for an input: the listing of the octets that were read. A read that failed is not the end
// of the input: no octet follows it.
fn put_printed(
    input: io::Result<Input>,
    buffer: &[u8],
    out: &mut [u8; limits::LISTING_ROOM],
) -> io::Result<usize>
    requires { ReadWhole (length buffer.now) input }
    ensures { Printed input buffer.now out.old result out.new }
{
    let read = input?;
    Ok(book::listing(&buffer[..read.count], out))
}

// The buffer has room for one octet more than the longest book, so that a longer one is seen to be longer. A listing
// that could not be written whole lacks at least the end of its last line, and standard error says so.
fn main(rt: HostRuntime) {
    let mut buffer = [0u8; limits::LONGEST_BOOK + 1];
    let mut out = [0u8; limits::LISTING_ROOM];
    let input = read_input(rt.stdin(), &mut buffer);
    let Ok(length) = put_printed(input, &buffer, &mut out) else {
        let _ = eprintln!(rt; "verdicts: reading failed");
        return;
    };
    if rt.write_all(&out[..length]).is_err() {
        let _ = eprintln!(rt; "verdicts: writing failed");
    }
}
