// Where the cells stand, which no other file knows, and cells that are lent to be read.
ghost use Rattle.std.specs.Prelude.{◌≡◌, ◌≤◌, length};
ghost use Rattle.cells.specs.Place.{cell_count, place};

use terms::{Station, Train};

// How many working cells are lent.
pub const CELLS: usize = 4096;

// The cell of the run from `first` at station `at`, of a line of `m` trains. In this layout it
// stands in the same place whatever `m` is.
#[tactic(auto, unfolding(crate::specs::Place::place))]
pub fn place(m: u32, first: Train, at: Station) -> usize
    requires { (1 ≤ first.0) × (first.0 ≤ at.0) × (at.0 ≤ m) × (m ≤ 64) }
    ensures { result ≡ place m first.0 at.0 }
{
    64 * first.index() + at.index()
}

// Cells that are lent to be read, of a line of `m` trains.
#[derive(Clone, Copy)]
pub struct Table<'a> {
    pub m: u32,
    pub cells: &'a [u64],
    pub ghost few: { m ≤ 64 },
    pub ghost long: { length cells.now ≡ cell_count },
}

impl<'a> Table<'a> {
    ghost use Rattle.cells.specs.Held.{table_held};

    pub fn new(m: u32, cells: &'a [u64]) -> Table<'a>
        requires { (m ≤ 64) × (length cells.now ≡ cell_count) }
        ensures m { result.m ≡ m }
        ensures cells { result.cells.now ≡ cells.now }
    {
        Table { m, cells }
    }

    // What the cell of the run from `first` at station `at` holds; 0 at the last station, for which
    // none is stored.
    #[tactic(auto, using(crate::proofs::Places::reading))]
    pub fn cell_at(&self, first: Train, at: Station) -> u64
        requires { (1 ≤ first.0) × (first.0 ≤ at.0) }
        ensures { result ≡ table_held self.now first.0 at.0 }
    {
        if at.0 <= self.m {
            self.cells[place(self.m, first, at)]
        } else {
            0
        }
    }
}
