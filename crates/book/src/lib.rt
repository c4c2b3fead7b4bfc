// The listing of a book of captured commands (01, The book and its listing), put line by line into octets that the
// caller lends; each function that puts a part returns the place behind it. The lines are those of `lines`.
#![tactic(auto)]

ghost use Rattle.std.specs.Prelude.{◌≡◌, true, ◌-◌, ◌≤◌, ◌<◌, length, MatchOption};
ghost use Rattle.rules.specs.Book.{is_cut, is_book};
ghost use Rattle.lines.specs.Promise.{Put, PutWithin};
ghost use Rattle.book.specs.Promise.{ListingPut, HeadPut, Whole, lines_of, room};

use rules::limits;

// The command at an offset, which is cut by its length field alone; none where that field does not lie in the book, is
// under 20 or leads past the end.
fn command_at(book: &[u8], offset: usize) -> Option<&[u8]>
    requires { offset < length book.now }
    ensures { MatchOption result (is_cut book.now offset ≡ true) (λ c. Whole book.now offset c.now) }
{
    let length = octets::number3(book, offset + 1) as usize;
    if length < limits::HEADER_SIZE {
        return None;
    }
    book[offset..].get(..length)
}

// The lines behind the head line: one line for each command, then `end` or a cut. The loop goes on by the length of
// each command; an iterator of commands would be no plainer, since a cut ends it with a line of its own.
fn put_lines(book: &[u8], out: &mut [u8; limits::LISTING_ROOM], start: usize) -> usize
    requires { HeadPut book.now start }
    ensures { PutWithin (room - 6) out.old start (lines_of book.now) result out.new }
{
    let mut log = [0u32; limits::LOG_NUMBERS];
    let mut at = start;
    let mut offset = limits::BOOK_HEAD;
    let mut commands: u64 = 0;
    let mut accepted: u64 = 0;
    while offset < book.len() {
        let Some(command) = command_at(book, offset) else {
            return lines::put_cut_line(out, at, commands + 1, offset as u64);
        };
        let v = reader::verdict(command, &mut log);
        commands += 1;
        at = lines::put_command_line(out, at, commands, offset as u64, v);
        accepted += u64::from(v.number == 0);
        offset += command.len();
    }
    lines::put_end_line(out, at, commands, accepted)
}

// The letters NTB and a 16-bit version 1, in no more than 65,536 octets.
#[tactic(auto, unfolding(rules::specs::Book::is_book))]
fn is_book(book: &[u8]) -> bool
    ensures { result ≡ is_book book.now }
{
    limits::BOOK_HEAD <= book.len()
        && book.len() <= limits::LONGEST_BOOK
        && octets::number3(book, 0) == 0x4e5442
        && octets::number2(book, 3) == 1
}

fn put_first_line(out: &mut [u8; limits::LISTING_ROOM], line: &[u8]) -> usize
    requires { length line.now ≤ room }
    ensures { Put out.old 0 line.now result out.new }
{
    output::put_octets(out, 0, line);
    line.len()
}

// Puts the listing of a book, whatever the octets, and returns how many octets it has.
pub fn listing(book: &[u8], out: &mut [u8; limits::LISTING_ROOM]) -> usize
    ensures { ListingPut book.now out.old result out.new }
{
    if !is_book(book) {
        return put_first_line(out, b"not a book\n");
    }
    let start = put_first_line(out, b"NTB 1\n");
    put_lines(book, out, start)
}
