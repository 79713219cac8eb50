ghost use Rattle.std.specs.Prelude.{◌≡◌};
ghost use Rattle.builder.specs.Leaves.{leaf_row, leaf_test};

use crate::step::Step;
use ledger::stop::{Reason, Stop};
use rows::check_places;
use rows::rows::Rows;

// The mark and the number of a row that a step at a leaf writes; a null's number is 0.
pub fn leaf_row(step: Step) -> (bool, i64)
    ensures { result ≡ leaf_row step }
{
    match step {
        Step::Value(v) => (true, v),
        Step::Null | Step::Nulls(_) | Step::Close(_) => (false, 0),
    }
}

// The tests of a step at a leaf, given whether its number lies in the range.
pub fn check_leaf(rows: Rows, step: Step, in_range: bool) -> Result<(), Stop>
    ensures { result ≡ leaf_test in_range rows.count rows.room step }
{
    match step {
        Step::Value(_) => {
            check_places(rows, 1)?;
            if !in_range {
                return Err(Reason::NumberOutOfRange.into());
            }
            Ok(())
        }
        Step::Null => check_places(rows, 1),
        Step::Nulls(n) => check_places(rows, n),
        Step::Close(_) => Err(Reason::NoSuchStep.into()),
    }
}
