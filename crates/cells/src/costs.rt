// What the two choices cost along a run, but for the cells that they rest on, station by station.
ghost use Rattle.std.specs.Prelude.{◌≡◌, ◌≤◌};
ghost use Rattle.cells.specs.Costs.{no_costs, excess_in, keep_in, go_in, with_costs};

use terms::Station;

// At one station: the excess, what keep costs but for the cell after it, and what go costs but for
// the cell on the diagonal.
#[derive(Clone, Copy, Default)]
pub struct Cost {
    pub excess: u64,
    pub keep: u64,
    pub go: u64,
}

#[derive(Drop)]
pub struct Costs {
    stations: [Cost; 64],
}

impl Costs {
    // 0 at every station.
    pub fn zeros() -> Costs
        ensures { result ≡ no_costs }
    {
        Costs {
            stations: [Cost::default(); 64],
        }
    }

    // The costs at a station of the run.
    #[tactic(auto, unfolding(crate::specs::Costs::excess_in, crate::specs::Costs::keep_in, crate::specs::Costs::go_in))]
    pub fn on(&self, station: Station) -> Cost
        requires { (1 ≤ station.0) × (station.0 ≤ 64) }
        ensures excess { result.excess ≡ excess_in self.now station.0 }
        ensures keep { result.keep ≡ keep_in self.now station.0 }
        ensures go { result.go ≡ go_in self.now station.0 }
    {
        self.stations[station.index()]
    }

    // Stores those of a station.
    pub(crate) fn put_costs(&mut self, station: Station, cost: Cost)
        requires { (1 ≤ station.0) × (station.0 ≤ 64) }
        ensures { self.new ≡ with_costs self.old station.0 cost }
    {
        self.stations[station.index()] = cost;
    }
}
