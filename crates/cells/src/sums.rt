// How many leave each train, by where they boarded: for station k and train l, those who board at
// station k or later and leave train l.
ghost use Rattle.std.specs.Prelude.{◌≡◌, ◌≤◌, ◌<◌};
ghost use Rattle.line.specs.Ranges.{everyone};
ghost use Rattle.cells.specs.Sums.{sums_count, place_of_sum, leaving_in, boarded_in};
ghost use Rattle.cells.specs.Sums.{SumsGiven, Boarders};

use terms::{Station, Train};

// The places of the list.
pub const SUMS: usize = 4096;

// Where the sum stands of those who board at `from` or later and leave `train`; no other function
// knows.
#[tactic(auto, unfolding(crate::specs::Sums::place_of_sum))]
pub fn place_of_sum(from: Station, train: Train) -> usize
    requires { (1 ≤ from.0) × (from.0 ≤ 64) × (1 ≤ train.0) × (train.0 ≤ 64) }
    ensures { (result ≡ place_of_sum from.0 train.0) × (result < sums_count) }
{
    64 * from.index() + train.index()
}

// The sums of a line of `m` trains, in range.
#[derive(Clone, Copy)]
pub struct Sums<'a> {
    pub m: u32,
    pub list: &'a [u32; SUMS],
    pub ghost given: { SumsGiven m list.now },
}

impl<'a> Sums<'a> {
    pub fn new(m: u32, list: &'a [u32; SUMS]) -> Sums<'a>
        requires { SumsGiven m list.now }
        ensures m { result.m ≡ m }
        ensures list { result.list.now ≡ list.now }
    {
        Sums { m, list }
    }

    // Those who board at `from` or later and leave `train`.
    pub fn leaving(&self, from: Station, train: Train) -> u64
        requires { (1 ≤ from.0) × (from.0 ≤ train.0) × (train.0 ≤ self.now.m) }
        ensures { (result ≡ leaving_in self.now.list.now from.0 train.0) ×
            (result ≤ everyone) }
    {
        u64::from(self.list[place_of_sum(from, train)])
    }

    // Those who board at `from` or later and leave `train` or a later one.
    #[tactic(auto, using(crate::proofs::Leavers::counting))]
    fn boarded(&self, from: Station, train: Train) -> u64
        requires { (1 ≤ from.0) × (from.0 ≤ train.0) × (train.0 ≤ self.now.m) }
        ensures { result ≡ boarded_in self.now.m self.now.list.now from.0 train.0 }
    {
        let mut sum: u64 = 0;
        for t in (train.0..=self.m).rev() {
            sum += self.leaving(from, Train(t));
        }
        sum
    }

    // By station, those who board there or later.
    #[tactic(auto, using(lists::proofs::Held::held_set))]
    pub(crate) fn boarders(&self) -> [u64; 64]
        ensures { Boarders self.now.m self.now.list.now result }
    {
        let mut boarding = [0u64; 64];
        for i in 1..=self.m {
            let train = Train(i);
            let from = train.leaves();
            boarding[from.index()] = self.boarded(from, train);
        }
        boarding
    }
}
