// The sums of those who leave in one list, from the passenger fields of a line.
ghost use Rattle.std.specs.Prelude.{◌-◌, ◌≤◌};
ghost use Rattle.prepare.specs.Prepared.{HoldsSums};
ghost use Rattle.prepare.specs.FieldsHeld.{pairs_held};

use crate::fields::Fields;
use cells::sums::{SUMS, place_of_sum};
use terms::{Station, Train};

// The sums of those who leave one train, beside those of the trains before it: from those who board
// at the station that it leaves back to those who board at station 1 or later.
#[tactic(auto, using(crate::proofs::Summing::column_start, crate::proofs::Summing::column_end))]
fn sum_column(sums: &mut [u32; SUMS], fields: &Fields, train: Train)
    requires { (1 ≤ train.0) × (train.0 ≤ fields.now.m)
        × HoldsSums (train.0 - 1) (pairs_held fields.now) sums.old }
    ensures { HoldsSums train.0 (pairs_held fields.now) sums.new }
{
    let last = train.leaves();
    let to = train.reaches();
    let mut sum: u32 = 0;
    for k in (1..=last.0).rev() {
        let from = Station(k);
        sum += fields.pair(from, to);
        sums[place_of_sum(from, train)] = sum;
    }
}

// The sums of all trains.
#[tactic(auto, using(crate::proofs::Holding::sums_none, crate::proofs::Holding::sums_fewer))]
pub fn sum_columns(sums: &mut [u32; SUMS], fields: &Fields)
    ensures { HoldsSums fields.now.m (pairs_held fields.now) sums.new }
{
    for i in 1..=fields.m {
        sum_column(sums, fields, Train(i));
    }
}
