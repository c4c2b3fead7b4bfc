// The reader of commands: the verdict and the record of a slice of octets.
#![tactic(auto)]

ghost use Rattle.std.specs.Prelude.{◌≡◌};
ghost use Rattle.rules.specs.Verdict.{verdict, verdict_of};
ghost use Rattle.rules.specs.Record.{reading};
ghost use Rattle.reader.specs.Promise.{IsJudged, Settled, Judged, JudgedBy};

use dictionary::plain;
use rules::{Outcome, Reading, Verdict, limits};
pub use walk_log::Log;

mod header;
mod judge;
mod record;

// What judging a command gives: the outcome of its checks, and how many AVPs a whole walk met, 0 after a fault of
// header or walk. No Result of the two: the count is told after a refusal of its lists too (`counted` of IsJudged).
#[derive(Clone, Copy, Debug, PartialEq, Eq)]
pub struct Judgement {
    pub outcome: Outcome,
    pub count: usize,
}

// Accepted: number, place, vendor and code 0. Public, so kept: what it promises is that verdict.
pub fn accepted() -> Verdict
    ensures { result ≡ verdict 0 0 0 0 }
{
    Verdict::default()
}

// A command judged. The lent log is written anew from position 0 on; that of an accepted command holds its AVPs, for a
// caller that makes a record of them.
pub fn judged(s: &[u8], log: &mut Log) -> Judgement
    ensures { IsJudged s.now log.old result log.new }
{
    judge::judge(s, log)
}

// The outcome of a command's checks. The lent log is written anew from position 0 on.
pub fn outcome(s: &[u8], log: &mut Log) -> Outcome
    ensures { Settled s.now log.old result log.new }
{
    judged(s, log).outcome
}

// By 01's cases: no From says it, since acceptance is a verdict too.
fn verdict_of(outcome: Outcome) -> Verdict
    ensures { result ≡ verdict_of outcome }
{
    match outcome {
        Ok(()) => accepted(),
        Err(verdict) => verdict,
    }
}

// The verdict of a command. The lent log is written anew from position 0 on; no record is made.
pub fn verdict(s: &[u8], log: &mut Log) -> Verdict
    ensures { Judged s.now log.old result log.new }
{
    verdict_of(outcome(s, log))
}

// The same by a lent table of plain codes: the right one is `dictionary::plain_codes`. What another table gives is
// stated too.
pub fn verdict_by(s: &[u8], table: &[u8; plain::PLAIN_CODES], log: &mut Log) -> Verdict
    ensures { JudgedBy table.now s.now log.old result log.new }
{
    verdict_of(judge::judge_by(s, table, log).outcome)
}

// The verdict of a command and its record, the empty one with a refusal.
pub fn read(s: &[u8]) -> Reading
    ensures { result ≡ reading s.now }
{
    let mut log = [0u32; limits::LOG_NUMBERS];
    let judged = judge::judge(s, &mut log);
    match judged.outcome {
        Ok(()) => Reading {
            verdict: accepted(),
            record: record::record_of(s, &log, judged.count),
        },
        Err(verdict) => Reading {
            verdict,
            record: record::empty_record(),
        },
    }
}
