// The times of a line, from the numbers of its trains.
ghost use Rattle.std.specs.Prelude.{◌≡◌, ℕ, ◌-◌, ◌≤◌, length};
ghost use Rattle.lists.specs.Run.{nth};
ghost use Rattle.sheet.specs.Held.{times_lent};
ghost use Rattle.prepare.specs.Prepared.{HoldsTimes};
ghost use Rattle.prepare.specs.Preparing.{SlackGiven, TrainGiven};

use cells::timing::{Timing, TrainTimes};
use sheet::numbers::Lists;
use terms::{Head, Train};

// The slack at the station that a train leaves: its departure less that of its feeder less the
// feeder's driving time. Train 1 has no feeder; its 0 swallows no delay.
#[tactic(auto, using(lists::proofs::Held::nth_index))]
fn slack(train: Train, departures: &[u32], driving: &[u32]) -> u32
    requires { SlackGiven train.0 departures.now driving.now }
    ensures { 2 ≤ train.0 → result ≡ nth departures.now train.0
        - nth departures.now (train.0 - 1)
        - nth driving.now (train.0 - 1) }
{
    if train.0 < 2 {
        return 0;
    }
    let k = train.index();
    let feeder = train.leaves().feeder().index();
    departures[k] - departures[feeder] - driving[feeder]
}

// The times of a train beside those of the trains before it: slack and period at the station that
// it leaves, and its source delay.
#[tactic(auto, using(crate::proofs::Holding::times_next, lists::proofs::Held::nth_index))]
fn set_times(timing: &mut Timing, train: Train, period: u32, numbers: Lists)
    requires { TrainGiven train.0 numbers.departures.now numbers.driving.now numbers.delays.now
        × HoldsTimes (train.0 - 1) period (times_lent numbers) timing.old }
    ensures { HoldsTimes train.0 period (times_lent numbers.entry) timing.new }
{
    let times = TrainTimes {
        slack: slack(train, numbers.departures, numbers.driving),
        source: numbers.delays[train.index()],
        period,
    };
    timing.set(train, times);
}

// The times of all trains.
pub fn fill_timing(timing: &mut Timing, head: Head, numbers: Lists)
    requires { (i : ℕ) → 1 ≤ i → i ≤ head.trains
        → TrainGiven i numbers.departures.now numbers.driving.now numbers.delays.now }
    ensures { HoldsTimes head.trains head.period (times_lent numbers.entry) timing.new }
{
    for i in 1..=head.trains {
        set_times(timing, Train(i), head.period, numbers);
    }
}
