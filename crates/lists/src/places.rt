// The lists that have rows, in the order in which both tables of rows have them.
ghost use Rattle.lists.specs.Tables.{ListAt};

use rules::Grammar;

pub(crate) const LISTS: usize = 9;

// The places that a list has for its rows: the longest one, of 23, has an end too.
pub(crate) const ROW_PLACES: usize = 24;

pub(crate) fn list_index(grammar: Grammar) -> usize
    ensures { ListAt grammar result }
{
    grammar as usize
}
