// What the working cells hold before the first step, so that a place that was not written is seen:
// each place, from 1, times 1,000,003.
ghost use Rattle.std.specs.Prelude.{◌≡◌, ℕ, ◌*◌};
ghost use Rattle.lists.specs.Run.{listed};

use crate::lent::CELLS;

// Each cell that a record can lend takes its mark.
pub fn put(cells: &mut [u64; CELLS])
    ensures { cells.new ≡ listed (λ (k : ℕ). k * 1000003) 1 4100 }
{
    for (k, cell) in cells.iter_mut().enumerate() {
        *cell = (k as u64 + 1) * 1_000_003;
    }
}
