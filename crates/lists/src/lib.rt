// The lists of a command over a lent log (01, Order of checks, Rows and Exchange rules): the command's own, then each
// group in walk order. The log has each AVP's entry, by which its row is looked up, and the position after its last
// descendant, where the next member stands.
#![tactic(auto)]

ghost use Rattle.std.specs.Prelude.{◌≡◌, cond, ◌≤◌};
ghost use Rattle.rules.specs.Verdict.{verdict_of, Answers, no_refusal};
ghost use Rattle.rules.specs.Rows.{admits_others};
ghost use Rattle.rules.specs.RowChecks.{counted_at, member_fault};
ghost use Rattle.rules.specs.Walk.{most_avps};
ghost use Rattle.walk_log.specs.Log.{logged_of};
ghost use Rattle.lists.specs.Counts.{HasRoom};
ghost use Rattle.lists.specs.Firsts.{no_firsts, noted, list_in};
ghost use Rattle.lists.specs.Exchanges.{lists_in};

use crate::groups::Command;
use dictionary::kinds;
use rules::{Admission, Avp, CommandRules, Grammar, Outcome, Verdict, limits};
use walk_log::Log;

mod admission_table;
mod admitted;
mod faults;
mod groups;
mod places;
mod requirements;
mod row_table;

// The row counts with one more member of a row. Every place is stored: a copy of the whole array waits for a store of
// one count right before it (measured in docs/speed.md).
fn counted(counts: [u16; places::ROW_PLACES], row: usize) -> [u16; places::ROW_PLACES]
    requires { HasRoom counts }
    ensures { result ≡ counted_at counts row }
{
    let mut more = counts;
    for k in 0..places::ROW_PLACES {
        more[k] = counts[k] + u16::from(k == row);
    }
    more
}

// A member that no row names.
fn without_row(grammar: Grammar, a: Avp) -> Outcome
    ensures { result ≡ cond (admits_others grammar) no_refusal (member_fault 5008 a) }
{
    if admitted::admits_others(grammar) {
        return Ok(());
    }
    avp::member_fault(5008, a)
}

// No entry was met yet in a list: the number of places of a record is no position. No Option: `exchange::judge`
// promises what it says for any numbers.
#[tactic(auto, unfolding(rules::specs::Dictionary::dictionary))]
fn no_firsts() -> [u16; kinds::ENTRIES]
    ensures { result ≡ no_firsts }
{
    [limits::MOST_AVPS as u16; kinds::ENTRIES]
}

// Keeps the first position of an entry, with a member at a position; a number that is no entry's has no place.
#[tactic(auto, using(crate::proofs::Noted::noted_at, crate::proofs::Noted::noted_none))]
fn note(firsts: &mut [u16; kinds::ENTRIES], entry: u8, position: u16)
    ensures { firsts.new ≡ noted firsts.old entry position }
{
    if entry < kinds::NO_ENTRY {
        let place = usize::from(entry);
        firsts[place] = firsts[place].min(position);
    }
}

// A list, which ends at `end`: its members stand in the log from one position on and before another.
#[derive(Clone, Copy)]
pub(crate) struct List<'a> {
    log: &'a Log,
    grammar: Grammar,
    from: usize,
    to: usize,
    end: u32,
    ghost in_record: { to ≤ most_avps },
}

impl List<'_> {
    // What the rows say of it, and where it passes the first position of each entry, for the exchange rules. The index
    // goes on by families, to the position after each member's last descendant.
    pub(crate) fn judge(&self) -> Result<[u16; kinds::ENTRIES], Verdict>
        ensures { let l = self.now in result ≡ list_in (logged_of l.log.now) l.grammar l.end l.from l.to }
    {
        let mut firsts = no_firsts();
        let mut counts = [0u16; places::ROW_PLACES];
        let mut first = true;
        let mut i = self.from;
        while i < self.to {
            let a = walk_log::get(self.log, i);
            let entry = walk_log::entry_at(self.log, i);
            note(&mut firsts, entry, i as u16);
            i = walk_log::after_at(self.log, i);
            let Some(Admission { row, mark }) = admitted::row_of(self.grammar, entry) else {
                without_row(self.grammar, a)?;
                first = false;
                continue;
            };
            faults::by_mark(mark, 0 < counts[row], first, a)?;
            counts = counted(counts, row);
            first = false;
        }
        requirements::missing_row(self.grammar, &counts, self.end)?;
        Ok(firsts)
    }
}

// What these rules say of the lists of the command `s`, whose AVPs stand in a log with this count, above 256 read as
// 256, and whose own list ends at `end`.
pub fn judge(rules: CommandRules, s: &[u8], log: &Log, count: usize, end: u32) -> Outcome
    ensures { Answers verdict_of (lists_in rules s.now log.now end count) result }
{
    let count = walk_log::used(count);
    let own = List {
        log,
        grammar: rules.rows,
        from: 0,
        to: count,
        end,
    };
    let firsts = own.judge()?;
    let groups = Command { s, log, count }.groups()?;
    exchange::judge(rules.exchange, s, log, &firsts, count, end, groups)
}
