// Decisions and arrival delays read off cells as they stand, train by train.
#![tactic(auto)]

ghost use Rattle.std.specs.Prelude.{◌≡◌};
ghost use Rattle.line.specs.Cells.{prefer};
ghost use Rattle.cells.specs.Held.{book_held, table_held};
ghost use Rattle.cells.specs.Shown.{byte_of};
ghost use Rattle.walk.specs.Walked.{Walked};
ghost use Rattle.walk.specs.Following.{decision_of, chosen_by};
ghost use Rattle.walk.specs.Following.{ChoiceGiven, StepGiven, Stepped, WalkGiven};

use cells::book::Book;
use cells::costs::Costs;
use cells::place::Table;
use terms::Train;

// What a station decides.
#[derive(Clone, Copy)]
enum Choice {
    Keep,
    Go,
}

impl Choice {
    // As document 01 shows it.
    fn byte(self) -> u8
        ensures { result ≡ byte_of (decision_of self) }
    {
        match self {
            Choice::Keep => 1,
            Choice::Go => 0,
        }
    }
}

// The lesser choice, and keep when equal or where there is no excess.
#[tactic(auto, using(line::proofs::Choices::prefer_of_go_less, line::proofs::Choices::prefer_of_keep_le))]
fn prefer(excess: u64, keep: u64, go: u64) -> Choice
    ensures { decision_of result ≡ prefer excess keep go }
{
    if excess == 0 {
        return Choice::Keep;
    }
    if go < keep { Choice::Go } else { Choice::Keep }
}

// The choice at the station that `train` leaves, on the run from `first`, whose costs these are.
#[tactic(auto, using(cells::proofs::Bounded::cell_le))]
fn choose(costs: &Costs, table: &Table, first: Train, train: Train) -> Choice
    requires { ChoiceGiven first.0 train.0 costs.now table.now }
    ensures { decision_of result ≡ chosen_by costs.now (table_held table.now)
        first.0 train.0 }
{
    let station = train.leaves();
    let cost = costs.on(station);
    let keep = cost.keep + table.cell_at(first, train.reaches());
    let go = cost.go + table.cell_at(train, station);
    prefer(cost.excess, keep, go)
}

// What one station decides: the choice, the train that the run then begins with, and how late its
// train arrives.
#[derive(Clone, Copy)]
struct Step {
    choice: Choice,
    first: Train,
    late: u64,
}

// The step of `train`, on the run from `first`. Where it goes, the costs are worked along the run
// that begins with it.
#[tactic(auto, using(cells::proofs::Along::kept_le))]
fn decide_at(costs: &mut Costs, table: &Table, book: &Book, first: Train, train: Train) -> Step
    requires { StepGiven (book_held book.now) first.0 train.0 costs.old table.now }
    ensures { Stepped (book_held book.now) (table_held table.now)
        first.0 train.0 (decision_of result.choice) result.first.0 result.late
        costs.new }
{
    let choice = choose(costs, table, first, train);
    match choice {
        Choice::Keep => {
            let excess = costs.on(train.leaves()).excess;
            let late = book.timing.arrives(train, excess);
            Step {
                choice,
                first,
                late,
            }
        }
        Choice::Go => {
            book.costs_along(costs, train);
            let late = book.timing.arrives(train, 0);
            Step {
                choice,
                first: train,
                late,
            }
        }
    }
}

// At each station the lesser choice, on the run that its feeder is on. Train 1 has nobody to wait
// for; what is after the last train is 0.
#[tactic(auto, using(crate::proofs::Walks::walking))]
pub fn follow(decisions: &mut [u8], delays: &mut [u32], table: &Table, book: &Book)
    requires { WalkGiven decisions.old delays.old table.now }
    ensures { Walked (book_held book.now) (table_held table.now)
        decisions.new delays.new }
{
    decisions.fill(0);
    delays.fill(0);
    let mut first = Train(1);
    let mut costs = Costs::zeros();
    book.costs_along(&mut costs, first);
    delays[first.index()] = book.timing.arrives(first, 0) as u32;
    for i in 2..=book.sums.m {
        let train = Train(i);
        let step = decide_at(&mut costs, table, book, first, train);
        first = step.first;
        let k = train.index();
        decisions[k] = step.choice.byte();
        delays[k] = step.late as u32;
    }
}
