// What a list admits (01, Rows): an AVP by the row that names it, found by the number of its entry; and whether AVPs
// that no row names. Of a mark only what it says of a member matters here.
ghost use Rattle.std.specs.Prelude.{◌≡◌};
ghost use Rattle.rules.specs.Rows.{admits_others};
ghost use Rattle.lists.specs.Tables.{mark_at, admission_in, Admits};

use crate::{admission_table, places};
use dictionary::kinds;
use rules::{Admission, Grammar, Mark};

// The marks of a member by their numbers, that of any number being the last.
const FIRST: u8 = admission_table::FIRST / admission_table::MARK;

const ONCE: u8 = admission_table::ONCE / admission_table::MARK;

const AT_MOST_ONCE: u8 = admission_table::AT_MOST_ONCE / admission_table::MARK;

// By the numbers of the table, of which each has a mark: no TryFrom, since none is refused.
fn mark_of(number: u8) -> Mark
    ensures { result ≡ mark_at number }
{
    match number {
        FIRST => Mark::FirstIfPresent,
        ONCE => Mark::Once,
        AT_MOST_ONCE => Mark::AtMostOnce,
        _ => Mark::AnyNumber,
    }
}

// What a number of the table says.
#[tactic(auto, unfolding(crate::specs::Tables::admission_in))]
fn admission_in(number: u8) -> Option<Admission>
    ensures { result ≡ admission_in number }
{
    let row = usize::from(number % admission_table::MARK);
    if places::ROW_PLACES <= row {
        return None;
    }
    Some(Admission {
        row,
        mark: mark_of(number / admission_table::MARK),
    })
}

// The row of a list that names an entry.
pub(crate) fn row_of(grammar: Grammar, entry: u8) -> Option<Admission>
    ensures { Admits grammar entry result }
{
    if kinds::NO_ENTRY <= entry {
        return None;
    }
    let place = places::list_index(grammar) * kinds::ENTRIES + usize::from(entry);
    admission_in(admission_table::table()[place])
}

// "+" at the end admits any other AVP in any number.
#[tactic(auto, unfolding(rules::specs::Rows::admits_others))]
pub(crate) fn admits_others(grammar: Grammar) -> bool
    ensures { result ≡ admits_others grammar }
{
    !matches!(
        grammar,
        Grammar::VendorSpecificApplicationId | Grammar::ExperimentalResult
    )
}
