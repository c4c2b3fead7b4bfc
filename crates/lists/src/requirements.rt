// The rows of a list that must be met (01, Order of checks, Rows).
ghost use Rattle.std.specs.Prelude.{◌≡◌, ◌&&◌, eqb, ltb};
ghost use Rattle.rules.specs.RowChecks.{missing};
ghost use Rattle.lists.specs.Tables.{free_row};

use crate::{places, row_table};
use rules::{Grammar, Outcome};

// Whether a row, by its number in the table, is missing where it was met so often.
fn is_missing(number: u8, count: u16) -> bool
    ensures { result ≡ (ltb number free_row && eqb count 0) }
{
    number < row_table::FREE && count == 0
}

// The first missing row of a list that ends at `end`. The counts are only looked at, so they are lent. By an index, no
// less plain: `zip` with the list's part of the table saves `k` alone, and the invariant would speak of two iterators.
pub(crate) fn missing_row(grammar: Grammar, counts: &[u16; places::ROW_PLACES], end: u32) -> Outcome
    ensures { result ≡ missing grammar counts.now end }
{
    let table = row_table::table();
    let from = places::list_index(grammar) * places::ROW_PLACES;
    for k in 0..places::ROW_PLACES {
        let number = table[from + k];
        if number == row_table::END {
            return Ok(());
        }
        if is_missing(number, counts[k]) {
            let entry = number % row_table::FREE;
            return avp::refusal(
                5005,
                end,
                dictionary::vendor_of(entry),
                dictionary::code_of(entry),
            );
        }
    }
    Ok(())
}
