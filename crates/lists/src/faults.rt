// The outcome of one member that has a row (01, Order of checks, Rows): 5008 where it is not admitted, 5009 where it
// exceeds its row.
ghost use Rattle.std.specs.Prelude.{◌≡◌};
ghost use Rattle.rules.specs.RowChecks.{by_mark};

use avp::member_fault;
use rules::{Avp, Mark, Outcome};

// A member that has a row with this mark: `met` says that the row was met before, `first` that the member is the list's
// first. One match of 01's cases: closures would want a case each all the same.
pub(crate) fn by_mark(mark: Mark, met: bool, first: bool, a: Avp) -> Outcome
    ensures { result ≡ by_mark mark met first a }
{
    match mark {
        Mark::AnyNumber => Ok(()),
        _ if met => member_fault(5009, a),
        Mark::First | Mark::FirstIfPresent if !first => member_fault(5008, a),
        _ => Ok(()),
    }
}
