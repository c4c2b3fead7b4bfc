// The lines of a listing (01, The book and its listing), with ordinals, offsets and counts of 64 bits. A line is put
// together in an array, its digits by the kit's `itoa`, and then put into octets that the caller lends; what comes back
// is the place behind it. Without room for every line nothing is put, so each public function takes any place.
#![tactic(auto)]

ghost use Rattle.std.specs.Prelude.{◌≡◌, [], ◌∷◌, ◌++◌, ◌+◌, ◌≤◌, length};
ghost use Rattle.rules.specs.Lines.{decimal, space, command_line, cut_line, stopped_line, end_line};
ghost use Rattle.lines.specs.Promise.{LinePut, line_room};

use itoa::{Buffer, Integer};
use rules::{Verdict, limits};
use std::marker::Model;

// A line while it is put together. Contracts see the octets so far. Memory is fixed, so the octets are an array with a
// length and no Vec.
#[derive(Drop)]
struct Line {
    octets: [u8; limits::LINE_ROOM],
    length: usize,
}

impl Model for Line {
    ghost use Rattle.std.specs.Prelude.{ℕ, ◌≤◌, List, take};

    ghost Value = { List ℕ };

    ghost view = { λ l. take l.length l.octets };

    ghost invariant = { λ l. l.length ≤ 96 };
}

impl Line {
    fn new() -> Self
        ensures { result ≡ [] }
    {
        Line {
            octets: [0; limits::LINE_ROOM],
            length: 0,
        }
    }

    // The start of every line of a command. Ordinal and offset are two parameters, as `command_line`
    // (rules/specs/Lines) has them.
    #[tactic(auto, using(crate::proofs::Decimals::decimal_is))]
    fn start(ordinal: u64, offset: u64) -> Self
        ensures text { result ≡ decimal ordinal ++ space ∷ decimal offset }
        ensures within { length result ≤ 41 }
    {
        let mut line = Line::new();
        line.push_number(ordinal);
        line.push_spaced(offset);
        line
    }

    fn push_word(&mut self, word: &[u8])
        requires { length self.old + length word.now ≤ line_room }
        ensures { self.new ≡ self.old ++ word.now }
    {
        let end = self.length + word.len();
        self.octets[self.length..end].copy_from_slice(word);
        self.length = end;
    }

    fn push_number<I: Integer>(&mut self, n: I)
        requires { length self.old + I.MAX_STR_LEN ≤ line_room }
        ensures text { self.new ≡ self.old ++ I.text n }
        ensures within { length self.new ≤ length self.old + I.MAX_STR_LEN }
    {
        let mut digits = Buffer::new();
        self.push_word(digits.format(n).as_bytes());
    }

    fn push_spaced<I: Integer>(&mut self, n: I)
        requires { length self.old + (1 + I.MAX_STR_LEN) ≤ line_room }
        ensures text { self.new ≡ self.old ++ space ∷ I.text n }
        ensures within { length self.new ≤ length self.old + (1 + I.MAX_STR_LEN) }
    {
        self.push_word(b" ");
        self.push_number(n);
    }

    // Puts the line into lent octets from a place on.
    fn put(&self, out: &mut [u8], at: usize) -> usize
        ensures { LinePut out.old at self.now result out.new }
    {
        let has_room = limits::LINE_ROOM <= out.len().saturating_sub(at);
        if !has_room {
            return at;
        }
        let end = at + self.length;
        out[at..end].copy_from_slice(&self.octets[..self.length]);
        end
    }
}

#[tactic(auto, using(crate::proofs::Decimals::decimal_is, crate::proofs::Lines::joined_twice))]
pub fn put_command_line(out: &mut [u8], at: usize, ordinal: u64, offset: u64, v: Verdict) -> usize
    ensures { LinePut out.old at (command_line ordinal offset v) result out.new }
{
    let mut line = Line::start(ordinal, offset);
    line.push_spaced(v.number);
    line.push_spaced(v.place);
    line.push_spaced(v.vendor);
    line.push_spaced(v.code);
    line.push_word(b"\n");
    line.put(out, at)
}

#[tactic(auto, using(crate::proofs::Lines::joined_twice))]
pub fn put_cut_line(out: &mut [u8], at: usize, ordinal: u64, offset: u64) -> usize
    ensures { LinePut out.old at (cut_line ordinal offset) result out.new }
{
    let mut cut = Line::start(ordinal, offset);
    cut.push_word(b" cut\n");
    cut.put(out, at)
}

#[tactic(auto, using(crate::proofs::Decimals::decimal_is, crate::proofs::Lines::joined_twice))]
pub fn put_stopped_line(out: &mut [u8], at: usize, ordinal: u64, offset: u64, v: Verdict) -> usize
    ensures { LinePut out.old at (stopped_line ordinal offset v) result out.new }
{
    let mut stopped = Line::start(ordinal, offset);
    stopped.push_word(b" stopped");
    stopped.push_spaced(v.number);
    stopped.push_spaced(v.place);
    stopped.push_word(b"\n");
    stopped.put(out, at)
}

#[tactic(auto, using(crate::proofs::Decimals::decimal_is, crate::proofs::Lines::joined_twice))]
pub fn put_end_line(out: &mut [u8], at: usize, commands: u64, accepted: u64) -> usize
    ensures { LinePut out.old at (end_line commands accepted) result out.new }
{
    let mut line = Line::new();
    line.push_word(b"end");
    line.push_spaced(commands);
    line.push_spaced(accepted);
    line.push_word(b"\n");
    line.put(out, at)
}
