// Prints the listing of the stream of commands on standard input (02, [7]), of any length, in fixed memory. It only
// moves octets: what is printed for a piece of the stream, and at its end, the functions below promise.
#![tactic(auto)]

ghost use Rattle.std.specs.Prelude.{◌≡◌, ◌+◌, ◌≤◌, length};
ghost use Rattle.lines.specs.Promise.{PutWithin, line_room};
ghost use Rattle.link.specs.Listing.{none_yet, line_by, tally_by, last_line};
ghost use Rattle.link.specs.Promise.{input_by, InPiece, LineListed, PieceListed, Printed, is_last, piece_room, text_room};

use fragments::{Progress, State};
use rules::limits;
use std::io;
use std::io::Read;

// The octets of a piece that is read, and the room in which its lines fit: each line takes an octet of it at least.
const PIECE_ROOM: usize = 4096;

const TEXT_ROOM: usize = 393216;

// Commands and acceptances so far, the offset of the command that is being read, and the reader's state.
#[derive(Clone, Copy)]
struct Tally {
    commands: u64,
    accepted: u64,
    offset: u64,
    state: State,
}

impl Tally {
    fn none_yet() -> Self
        ensures { result ≡ none_yet }
    {
        Tally {
            commands: 0,
            accepted: 0,
            offset: 0,
            state: fragments::fresh(),
        }
    }

    // The tally after an answer of the reader. A command is as long as the octets held and taken.
    fn after(self, size: u64, progress: Progress, state: State) -> Self
        ensures { result ≡ tally_by self size progress state }
    {
        match progress {
            Progress::Unfinished | Progress::Refusal(_) => Tally { state, ..self },
            Progress::Command(v) => Tally {
                commands: self.commands.wrapping_add(1),
                accepted: self.accepted.wrapping_add(u64::from(v.number == 0)),
                offset: self.offset.wrapping_add(size),
                state,
            },
        }
    }

    // Puts the line for an answer of the reader, none while a command is unfinished, and returns the place behind it.
    fn put_line(self, progress: Progress, text: &mut [u8; TEXT_ROOM], at: usize) -> usize
        requires { at + line_room ≤ text_room }
        ensures { PutWithin line_room text.old at (line_by self progress) result text.new }
    {
        let ordinal = self.commands.wrapping_add(1);
        match progress {
            Progress::Unfinished => at,
            Progress::Command(v) => lines::put_command_line(text, at, ordinal, self.offset, v),
            Progress::Refusal(v) => lines::put_stopped_line(text, at, ordinal, self.offset, v),
        }
    }

    // Puts the last line at the end of the input: none once the run has stopped, since `stopped` was the last one then.
    fn put_last_line(self, text: &mut [u8; TEXT_ROOM]) -> usize
        ensures { PutWithin line_room text.old 0 (last_line self) result text.new }
    {
        if self.state.stopped != 0 {
            return 0;
        }
        if self.state.held == 0 {
            return lines::put_end_line(text, 0, self.commands, self.accepted);
        }
        lines::put_cut_line(text, 0, self.commands.wrapping_add(1), self.offset)
    }

    // Whether nothing more is printed: at the end of the input, once the run has stopped, or after a read or a write
    // that failed.
    #[tactic(auto, unfolding(crate::specs::Promise::is_last))]
    fn is_last(self, input: &io::Result<usize>, written: bool) -> bool
        ensures { result ≡ is_last input.now written self }
    {
        match input {
            Ok(count) if written => *count == 0 || self.state.stopped != 0,
            _ => true,
        }
    }
}

// What is kept from one read to the next: the tally, and the buffer and the log that the reader is lent. And the text
// for the last read, up to its end: memory is fixed, so an array with a length and no Vec.
#[derive(Drop)]
struct Link {
    tally: Tally,
    buffer: [u8; limits::LONGEST_COMMAND],
    log: [u32; limits::LOG_NUMBERS],
    text: [u8; TEXT_ROOM],
    end: usize,
}

impl Link {
    // Hands octets to the reader once, puts the line for its answer, and returns how many octets were taken.
    fn list_octets(&mut self, octets: &[u8]) -> usize
        requires { (length octets.now ≤ piece_room) × (self.old.end + line_room ≤ text_room) }
        ensures { LineListed self.old octets.now result self.new }
    {
        let tally = self.tally;
        let step = fragments::take(tally.state, octets, &mut self.buffer, &mut self.log);
        let size = tally.state.held as usize + step.taken;
        self.end = tally.put_line(step.progress, &mut self.text, self.end);
        self.tally = tally.after(size as u64, step.progress, step.state);
        step.taken
    }

    // Puts the lines of a piece of the stream.
    fn list_piece(&mut self, piece: &[u8])
        requires { length piece.now ≤ piece_room }
        ensures { PieceListed self.old piece.now self.new }
    {
        self.end = 0;
        let mut left = piece;
        while !left.is_empty() {
            if self.tally.state.stopped != 0 {
                return;
            }
            let taken = self.list_octets(left);
            if taken == 0 {
                return;
            }
            left = &left[taken..];
        }
    }

    // Puts what is to be printed for what a read gave: the lines of the octets, or the last line at the end of the
    // input, where it gave none. After a read that failed no octet follows.
    fn put_printed(&mut self, input: &io::Result<usize>, piece: &[u8])
        requires { InPiece (length piece.now) input.now }
        ensures { Printed input.now self.old piece.now self.new }
    {
        match input {
            Ok(0) => self.end = self.tally.put_last_line(&mut self.text),
            Ok(count) => self.list_piece(&piece[..*count]),
            Err(_) => self.end = 0,
        }
    }
}

// What a read answered: no more octets than the piece has, or an error. One that a signal broke off counts as failed.
#[tactic(auto, unfolding(crate::specs::Promise::input_by))]
fn input_of(answer: io::Result<usize>, piece: &[u8]) -> io::Result<usize>
    ensures { result ≡ input_by answer (length piece.now) }
{
    match answer {
        Ok(given) => Ok(given.min(piece.len())),
        Err(error) => Err(error),
    }
}

// Says on standard error what failed, if anything did.
fn complain(rt: &HostRuntime, input: &io::Result<usize>, written: bool) {
    if !written {
        let _ = eprintln!(rt; "link: writing failed");
        return;
    }
    if input.is_err() {
        let _ = eprintln!(rt; "link: reading failed");
    }
}

// After 2^64 - 1 reads it ends without a last line. A listing that could not be written whole lacks at least the end of
// its last line.
fn main(rt: HostRuntime) {
    let mut piece = [0u8; PIECE_ROOM];
    let mut link = Link {
        tally: Tally::none_yet(),
        buffer: [0; limits::LONGEST_COMMAND],
        log: [0; limits::LOG_NUMBERS],
        text: [0; TEXT_ROOM],
        end: 0,
    };
    for _ in 0..u64::MAX {
        let answer = rt.stdin().read(&mut piece);
        let input = input_of(answer, &piece);
        link.put_printed(&input, &piece);
        let written = rt.write_all(&link.text[..link.end]).is_ok();
        if link.tally.is_last(&input, written) {
            complain(&rt, &input, written);
            return;
        }
    }
}
