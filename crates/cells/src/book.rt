// What cells are worked from, as one value: a line's times, the sums of those who leave, with how
// many trains it has, and by station those who board there or later. Its fields are in range and
// belong together.
ghost use Rattle.std.specs.Prelude.{◌≡◌};
ghost use Rattle.cells.specs.Sums.{Boarders};
ghost use Rattle.cells.specs.Book.{BookGiven};

use crate::costs::{Cost, Costs};
use crate::sources::Sources;
use crate::sums::Sums;
use crate::timing::{Timing, cost};
use terms::Train;

#[derive(Drop)]
pub struct Book<'a> {
    pub timing: &'a Timing,
    pub sums: Sums<'a>,
    pub boarding: [u64; 64],
    pub ghost given: { BookGiven sums.m timing.now sums.list.now },
    pub ghost boarders: { Boarders sums.m sums.list.now boarding },
}

impl<'a> Book<'a> {
    ghost use Rattle.std.specs.Prelude.{◌≤◌};
    ghost use Rattle.cells.specs.Costs.{CostsAlong};
    ghost use Rattle.cells.specs.Held.{book_held};

    // Those who board are counted from the sums.
    pub fn new(m: u32, sources: &'a Sources) -> Book<'a>
        requires { BookGiven m sources.now.timing sources.now.sums }
        ensures m { result.sums.m ≡ m }
        ensures timing { result.timing.now ≡ sources.now.timing }
        ensures sums { result.sums.list.now ≡ sources.now.sums }
    {
        let Sources { timing, sums } = sources;
        let sums = Sums::new(m, sums);
        let boarding = sums.boarders();
        Book {
            timing,
            sums,
            boarding,
        }
    }

    // Fills the costs along the run that begins with `first` on time. `boarded` are those who board
    // where it begins or later and leave this train or a later one: but for those who board here or
    // later, they are aboard.
    #[tactic(auto, using(crate::proofs::Along::along))]
    pub fn costs_along(&self, costs: &mut Costs, first: Train)
        requires { (1 ≤ first.0) × (first.0 ≤ self.now.sums.m) }
        ensures { CostsAlong (book_held self.now) first.0 costs.new }
    {
        let from = first.leaves();
        let mut late: u64 = 0;
        let mut boarded = self.boarding[from.index()];
        for i in first.0..=self.sums.m {
            let train = Train(i);
            let station = train.leaves();
            let excess = self.timing.excess_at(station, late);
            late = self.timing.arrives(train, excess);
            let leave = self.sums.leaving(from, train);
            let keep = cost(leave, late);
            let aboard = boarded - self.boarding[station.index()];
            let go = cost(aboard, self.timing.period_at(station));
            costs.put_costs(station, Cost { excess, keep, go });
            boarded -= leave;
        }
    }
}
