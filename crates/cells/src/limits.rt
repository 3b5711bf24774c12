// Whether the cells in use of rows that a report does not work anew are within the limit.
ghost use Rattle.std.specs.Prelude.{◌≡◌, ◌≤◌};
ghost use Rattle.cells.specs.Limits.{row_verdict, later_verdict};

use crate::place::Table;
use terms::{Refusal, ReportFault, Station, Train, Verdict};

// No total can pass this many passenger-minutes: 2,080 pairs × 10,000 × 64 × 1,440.
const LIMIT: u64 = 1916928000000;

// The cells in use of the row that begins with `first`.
#[tactic(auto, using(crate::proofs::Limited::row_refused))]
fn check_row(table: &Table, first: Train) -> Verdict
    requires { (1 ≤ first.0) × (first.0 ≤ table.now.m) }
    ensures { result ≡ row_verdict table.now.m table.now.cells.now first.0 }
{
    for l in first.leaves().0..=table.m {
        if LIMIT < table.cell_at(first, Station(l)) {
            return Err(Refusal::OfReport(ReportFault::CellOverLimit(first)));
        }
    }
    Ok(())
}

// The rows after the train's own, one after the other.
pub fn check_rows_after(table: &Table, train: Train) -> Verdict
    requires { train.0 ≤ table.now.m }
    ensures { result ≡ later_verdict table.now.m table.now.cells.now train.0 }
{
    for k in train.0 + 1..=table.m {
        check_row(table, Train(k))?;
    }
    Ok(())
}
