// 01, Order of checks: header, walk, rows, exchange rules and windows; the first that applies is the answer. What a
// command is judged by is chosen once, from its header.
ghost use Rattle.std.specs.Prelude.{◌≡◌, ◌≤◌, length};
ghost use Rattle.rules.specs.Header.{header_size, longest_command};
ghost use Rattle.rules.specs.Command.{rules_by, command_rules};
ghost use Rattle.lists.specs.Exchanges.{lists_in};
ghost use Rattle.reader.specs.Promise.{IsJudgedBy, IsJudged};

use crate::{Judgement, header};
use dictionary::plain;
use octets::has_flag;
use rules::{CommandRules, ExchangeRules, Grammar, Outcome, flags};
use walk_log::Log;

// What a command is judged by, by its command flags: 01's cases, which no derive or From says.
#[tactic(auto, unfolding(rules::specs::Command::rules_by))]
fn command_rules(flags: u8) -> CommandRules
    ensures { result ≡ rules_by flags }
{
    if has_flag(flags, flags::REQUEST) {
        CommandRules {
            rows: Grammar::Request,
            exchange: ExchangeRules::OfRequest,
        }
    } else if has_flag(flags, flags::ERROR) {
        CommandRules {
            rows: Grammar::ErrorAnswer,
            exchange: ExchangeRules::WindowsAlone,
        }
    } else {
        CommandRules {
            rows: Grammar::Answer,
            exchange: ExchangeRules::OfAnswer,
        }
    }
}

// Rows and exchange rules by what a log holds.
fn lists_outcome(s: &[u8], log: &Log, count: usize) -> Outcome
    requires { (header_size ≤ length s.now) × (length s.now ≤ longest_command) }
    ensures { result ≡ lists_in (command_rules s.now) s.now log.now (length s.now) count }
{
    lists::judge(command_rules(s[4]), s, log, count, s.len() as u32)
}

// A command judged into a lent log, by a table of plain codes.
pub(crate) fn judge_by(s: &[u8], table: &[u8; plain::PLAIN_CODES], log: &mut Log) -> Judgement
    ensures { IsJudgedBy table.now s.now log.old result log.new }
{
    if let Err(refusal) = header::header_outcome(s) {
        return Judgement {
            outcome: Err(refusal),
            count: 0,
        };
    }
    match walk::walk_command(s, table, log) {
        Ok(count) => Judgement {
            outcome: lists_outcome(s, log, count),
            count,
        },
        Err(stopped) => Judgement {
            outcome: Err(stopped.verdict),
            count: 0,
        },
    }
}

// The same by the right table. Apart from `judged`, since the edit `judged_passes_all` is wrong in that one alone, not
// in `read`.
pub(crate) fn judge(s: &[u8], log: &mut Log) -> Judgement
    ensures { IsJudged s.now log.old result log.new }
{
    judge_by(s, dictionary::plain_codes(), log)
}
