// 01, Walk: where a walk stands. What holds of every place of a walk is stated here once.
ghost use Rattle.std.specs.Prelude.{◌≡◌, ◌≤◌, length};
ghost use Rattle.rules.specs.Verdict.{verdict};
ghost use Rattle.rules.specs.Header.{longest_command};
ghost use Rattle.rules.specs.Walk.{most_avps, deepest};

use rules::Verdict;

// At a place of a list of the command `s` that ends at `end` and is at this depth, with `count` AVPs in the log.
#[derive(Clone, Copy)]
pub(crate) struct Standing<'a> {
    pub(crate) s: &'a [u8],
    pub(crate) at: usize,
    pub(crate) end: usize,
    pub(crate) depth: u32,
    pub(crate) count: usize,
    ghost order: { at ≤ end },
    ghost inside: { end ≤ length s.now },
    ghost short: { length s.now ≤ longest_command },
    ghost level: { depth ≤ deepest },
    ghost few: { count ≤ most_avps },
}

impl<'a> Standing<'a> {
    // Behind an AVP of the same list. `..self` is not there for a struct with ghost fields; the bound on `count` is
    // what the field `few` asks for.
    pub(crate) fn behind(self, at: usize, count: usize) -> Standing<'a>
        requires list { at ≤ self.end }
        requires room { count ≤ most_avps }
        ensures same { result.s.now ≡ self.entry.s.now }
        ensures there { (result.at ≡ at) × (result.end ≡ self.entry.end) × (result.depth ≡ self.entry.depth) × (result.count ≡ count) }
    {
        Standing {
            s: self.s,
            at,
            end: self.end,
            depth: self.depth,
            count,
        }
    }

    // A refusal at this place: the verdict itself, where `avp::refusal` gives an Outcome.
    pub(crate) fn fault(self, number: u32, vendor: u32, code: u32) -> Verdict
        ensures { result ≡ verdict number self.entry.at vendor code }
    {
        Verdict {
            number,
            place: self.at as u32,
            vendor,
            code,
        }
    }
}
