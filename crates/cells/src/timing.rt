// The times of a line, train by train. What else reads or stores one of them calls this file.
ghost use Rattle.std.specs.Prelude.{◌≡◌, ◌+◌, ◌-◌, ◌*◌, ◌≤◌};
ghost use Rattle.line.specs.Ranges.{latest, everyone, limit};
ghost use Rattle.cells.specs.Timing.{no_times, slack_in, source_in, period_in};
ghost use Rattle.cells.specs.Timing.{with_times, with_source};

use terms::{Station, Train};

// Of one train: the slack at the station that it leaves, its source delay, and the minutes that
// each passenger counts who misses it there.
#[derive(Clone, Copy, Default)]
pub struct TrainTimes {
    pub slack: u32,
    pub source: u32,
    pub period: u32,
}

#[derive(Drop)]
pub struct Timing {
    trains: [TrainTimes; 64],
}

impl Timing {
    // 0 for every train.
    pub fn zeros() -> Timing
        ensures { result ≡ no_times }
    {
        Timing {
            trains: [TrainTimes::default(); 64],
        }
    }

    // What is left of the feeder's arrival delay once the slack at the station is used up.
    #[tactic(auto, unfolding(crate::specs::Timing::slack_in))]
    pub fn excess_at(&self, station: Station, late: u64) -> u64
        requires { (1 ≤ station.0) × (station.0 ≤ 64) }
        ensures { result ≡ late - slack_in self.now station.0 }
    {
        late.saturating_sub(u64::from(self.trains[station.index()].slack))
    }

    // A train's arrival delay by its departure delay.
    #[tactic(auto, unfolding(crate::specs::Timing::source_in))]
    pub fn arrives(&self, train: Train, departs: u64) -> u64
        requires { (1 ≤ train.0) × (train.0 ≤ 64) × (departs ≤ latest) }
        ensures { result ≡ departs + source_in self.now train.0 }
    {
        departs + u64::from(self.trains[train.index()].source)
    }

    // The minutes that each passenger counts who misses the connection at a station.
    #[tactic(auto, unfolding(crate::specs::Timing::period_in))]
    pub fn period_at(&self, station: Station) -> u64
        requires { (1 ≤ station.0) × (station.0 ≤ 64) }
        ensures { result ≡ period_in self.now station.0 }
    {
        u64::from(self.trains[station.index()].period)
    }

    // The times of a train become these.
    #[tactic(auto, using(crate::proofs::Times::replaced))]
    pub fn set(&mut self, train: Train, times: TrainTimes)
        requires { (1 ≤ train.0) × (train.0 ≤ 64) }
        ensures whole { self.new ≡ with_times self.old train.0 times }
        ensures slack { slack_in self.new train.0 ≡ times.slack }
        ensures source { source_in self.new train.0 ≡ times.source }
        ensures period { period_in self.new train.0 ≡ times.period }
    {
        self.trains[train.index()] = times;
    }

    // The source delay of a train becomes so many minutes.
    #[tactic(auto, unfolding(crate::specs::Timing::source_in))]
    pub fn set_source(&mut self, train: Train, minutes: u32)
        requires { (1 ≤ train.0) × (train.0 ≤ 64) }
        ensures whole { self.new ≡ with_source self.old train.0 minutes }
        ensures here { source_in self.new train.0 ≡ minutes }
    {
        self.trains[train.index()].source = minutes;
    }
}

// What so many passengers count.
pub fn cost(persons: u64, minutes: u64) -> u64
    requires { (persons ≤ everyone) × (minutes ≤ latest) }
    ensures { (result ≡ persons * minutes) × (result ≤ limit) }
{
    persons * minutes
}
