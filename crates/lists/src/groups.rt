// The groups of a command in walk order: the rows of each, and what the exchange rules say of it. Faults of the
// exchange rules come after those of all rows, so the first of the policies and of the windows are kept, and how many
// policies there are.
ghost use Rattle.std.specs.Prelude.{◌≡◌, ◌+◌, ◌≤◌, ◌<◌};
ghost use Rattle.rules.specs.Verdict.{or_else};
ghost use Rattle.rules.specs.Walk.{most_avps};
ghost use Rattle.walk_log.specs.Log.{logged_of, avps_in};
ghost use Rattle.exchange.specs.Firsts.{find_in};
ghost use Rattle.lists.specs.Exchanges.{is_policy, as_policy, as_window, groups_in};

use crate::List;
use dictionary::kinds;
use dictionary::kinds::{TimeWindow, TransferPolicy};
use exchange::Groups;
use exchange::answer::policy_in;
use exchange::window::window_in;
use rules::{Outcome, Verdict};
use walk_log::Log;

// A command whose AVPs stand in a log with this count.
#[derive(Clone, Copy)]
pub(crate) struct Command<'a> {
    pub(crate) s: &'a [u8],
    pub(crate) log: &'a Log,
    pub(crate) count: usize,
    pub(crate) ghost in_record: { count ≤ most_avps },
}

impl Command<'_> {
    // Whether the AVP at a position is a transfer policy of the command's own list.
    #[tactic(auto, unfolding(rules::specs::Dictionary::dictionary, dictionary::specs::Entries::number_where))]
    fn is_policy(self, position: usize) -> bool
        ensures { result ≡ is_policy (logged_of self.entry.log.now position) }
    {
        walk_log::entry_at(self.log, position) == TransferPolicy::ENTRY
            && walk_log::depth_at(self.log, position) == 1
    }

    // The first fault of the transfer policies of the command's own list, with the group at a position. No one function
    // with a closure for this and the next: test, callee and clause differ, the first line alone is the same.
    fn with_policy(
        self,
        before: Outcome,
        position: usize,
        firsts: &[u16; kinds::ENTRIES],
    ) -> Outcome
        ensures { result ≡ or_else before (as_policy (find_in firsts.now self.entry.count) (logged_of self.entry.log.now position)) }
    {
        before?;
        if self.is_policy(position) {
            return policy_in(firsts, self.count, walk_log::data_end(self.log, position));
        }
        Ok(())
    }

    // The first fault of the time windows, with the group at a position.
    #[tactic(auto, unfolding(rules::specs::Dictionary::dictionary, dictionary::specs::Entries::number_where))]
    fn with_window(
        self,
        before: Outcome,
        position: usize,
        firsts: &[u16; kinds::ENTRIES],
    ) -> Outcome
        ensures { let c = self.entry in result ≡ or_else before (as_window (find_in firsts.now c.count) (avps_in c.log.now c.count) c.s.now (logged_of c.log.now position)) }
    {
        before?;
        if walk_log::entry_at(self.log, position) == TimeWindow::ENTRY {
            return window_in(
                self.s,
                self.log,
                firsts,
                self.count,
                walk_log::data_end(self.log, position),
            );
        }
        Ok(())
    }

    // Each group in walk order: its list is the AVPs up to its last descendant.
    pub(crate) fn groups(self) -> Result<Groups, Verdict>
        ensures { let c = self.entry in result ≡ groups_in (logged_of c.log.now) (avps_in c.log.now c.count) c.s.now c.count }
    {
        let mut groups = Groups {
            number: 0,
            policies: Ok(()),
            windows: Ok(()),
        };
        for i in 0..self.count {
            let Some(grammar) = dictionary::members_of(walk_log::entry_at(self.log, i)) else {
                continue;
            };
            let list = List {
                log: self.log,
                grammar,
                from: i + 1,
                to: walk_log::after_at(self.log, i).min(self.count),
                end: walk_log::data_end(self.log, i),
            };
            let firsts = list.judge()?;
            groups = Groups {
                number: groups.number + usize::from(self.is_policy(i)),
                policies: self.with_policy(groups.policies, i, &firsts),
                windows: self.with_window(groups.windows, i, &firsts),
            };
        }
        Ok(groups)
    }
}
